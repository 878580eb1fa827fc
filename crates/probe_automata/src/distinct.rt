//! The distinct letters and guards of positions, by their first places.
ghost use Rattle.std.specs.Prelude.{◌≡◌, OnOk, IfOk, [], map, flat_map};
ghost use Rattle.probe_words.specs.Guards.{same_condition};
ghost use Rattle.probe_words.specs.Twins.{condition_of};
ghost use Rattle.probe_words.specs.ProbeTables.{same_letter, is_among_by, with_new_by, by_first_places};

use probe_words::{Guard, Guards, Letter, Letters, Position};
use std::alloc::{AllocError, Global};

/// Whether both are the same action or the same signal.
pub(crate) fn is_same_letter(left: Letter, right: Letter) -> bool
    ensures { result ≡ same_letter left right }
{
    match left {
        Letter::Action(a) => match right {
            Letter::Action(b) => a == b,
            Letter::Signal(_) => false,
        },
        Letter::Signal(a) => match right {
            Letter::Action(_) => false,
            Letter::Signal(b) => a == b,
        },
    }
}

fn has_letter(letters: &[Letter], letter: Letter) -> bool
    ensures { result ≡ is_among_by same_letter letter letters.now }
{
    for other in letters {
        if is_same_letter(letter, *other) {
            return true;
        }
    }
    false
}

fn add_letter(letters: &mut Letters, letter: Letter) -> Result<(), AllocError>
    ensures { OnOk result (letters.new ≡ with_new_by same_letter letters.old letter) }
{
    if has_letter(letters.as_slice(), letter) {
        return Ok(());
    }
    letters.push(letter)
}

/// The distinct letters, in the order of the positions.
pub(crate) fn distinct_letters(alloc: Global, each: &[Position]) -> Result<Letters, AllocError>
    ensures { IfOk result (λ letters. letters ≡ by_first_places same_letter [] (map (λ x. x.letter) each.now)) }
{
    let mut letters = Letters::new(alloc);
    for position in each {
        add_letter(&mut letters, position.letter)?;
    }
    Ok(letters)
}

fn has_guard(guards: &[Guard], guard: &Guard) -> bool
    ensures { result ≡ is_among_by same_condition (condition_of guard.now) (map condition_of guards.now) }
{
    for other in guards {
        if guard.is_same(other) {
            return true;
        }
    }
    false
}

fn add_guard(alloc: Global, guards: &mut Guards, guard: &Guard) -> Result<(), AllocError>
    ensures { OnOk result (map condition_of guards.new ≡ with_new_by same_condition (map condition_of guards.old) (condition_of guard.now)) }
{
    if has_guard(guards.as_slice(), guard) {
        return Ok(());
    }
    guards.push(guard.copy(alloc)?)
}

fn add_guards(alloc: Global, found: &mut Guards, guards: &[Guard]) -> Result<(), AllocError>
    ensures { OnOk result (map condition_of found.new ≡ by_first_places same_condition (map condition_of found.old) (map condition_of guards.now)) }
{
    for guard in guards {
        add_guard(alloc, found, guard)?;
    }
    Ok(())
}

/// The distinct guards, position by position.
pub(crate) fn distinct_guards(alloc: Global, each: &[Position]) -> Result<Guards, AllocError>
    ensures { IfOk result (λ guards. map condition_of guards ≡ by_first_places same_condition [] (flat_map (λ x. map condition_of x.guards) each.now)) }
{
    let mut guards = Guards::new(alloc);
    for position in each {
        add_guards(alloc, &mut guards, position.guards.as_slice())?;
    }
    Ok(guards)
}
