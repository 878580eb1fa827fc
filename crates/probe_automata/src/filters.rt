//! The positions of one letter whose guards hold by a valuation of the distinct guards.
ghost use Rattle.std.specs.Prelude.{◌≡◌, ◌≤◌, ◌<◌, ◌^◌, ◌++◌, ℕ, List, map, length, OnOk, IfOk};
ghost use Rattle.std.specs.List.{list_all};
ghost use Rattle.probe_words.specs.Twins.{condition_of};
ghost use Rattle.probe_automata.specs.Filters.{is_opened, passes, IsFilterOf, IsFilterRow, AreFilterRows};

use crate::distinct::is_same_letter;
use probe_words::{Guard, Letter, Position, Words64, has, with};
use std::alloc::{AllocError, Global};

/// Whether the valuation says that the guard holds.
fn guard_holds(guards: &[Guard], valuation: u64, guard: &Guard) -> bool
    requires { length guards.now ≤ 4 }
    ensures { result ≡ is_opened (map condition_of guards.now) 0 valuation (condition_of guard.now) }
{
    for (at, other) in guards.iter().enumerate() {
        if other.is_same(guard) && has(valuation, at) {
            return true;
        }
    }
    false
}

fn all_hold(guards: &[Guard], valuation: u64, needed: &[Guard]) -> bool
    requires { length guards.now ≤ 4 }
    ensures { result ≡ list_all (λ g. is_opened (map condition_of guards.now) 0 valuation (condition_of g)) needed.now }
{
    needed
        .iter()
        .all(|guard| guard_holds(guards, valuation, guard))
}

fn position_passes(guards: &[Guard], valuation: u64, letter: Letter, position: &Position) -> bool
    requires { length guards.now ≤ 4 }
    ensures { result ≡ passes guards.now valuation letter position.now }
{
    is_same_letter(position.letter, letter)
        && all_hold(guards, valuation, position.guards.as_slice())
}

/// The positions of the letter whose guards hold.
fn filter_of(each: &[Position], guards: &[Guard], valuation: u64, letter: Letter) -> u64
    requires few { length guards.now ≤ 4 }
    requires short { length each.now ≤ 63 }
    ensures { IsFilterOf each.now guards.now valuation letter result }
{
    let mut set = 0u64;
    for (at, position) in each.iter().enumerate() {
        if position_passes(guards, valuation, letter, position) {
            set = with(set, at);
        }
    }
    set
}

/// Appends the sets of a letter, one for each valuation from 0 up.
fn push_filters(
    filters: &mut Words64,
    each: &[Position],
    guards: &[Guard],
    letter: &Letter,
) -> Result<(), AllocError>
    requires few { length guards.now ≤ 4 }
    requires short { length each.now ≤ 63 }
    ensures { OnOk result ((row : List ℕ) × (filters.new ≡ filters.old ++ row) × IsFilterRow each.now guards.now letter.now (2 ^ length guards.now) row) }
{
    let count = 1u64 << guards.len();
    for valuation in 0..count {
        filters.push(filter_of(each, guards, valuation, *letter))?;
    }
    Ok(())
}

/// The sets of each letter in order.
pub(crate) fn all_filters(
    alloc: Global,
    each: &[Position],
    guards: &[Guard],
    letters: &[Letter],
) -> Result<Words64, AllocError>
    requires few { length guards.now ≤ 4 }
    requires short { length each.now ≤ 63 }
    ensures { IfOk result (λ filters. AreFilterRows each.now guards.now (2 ^ length guards.now) letters.now filters) }
{
    let mut filters = Words64::new(alloc);
    for letter in letters {
        push_filters(&mut filters, each, guards, letter)?;
    }
    Ok(filters)
}
