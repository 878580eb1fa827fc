//! The positions of an expression, laid part by part.
ghost use Rattle.std.specs.Prelude.{◌≡◌, ◌==◌, ◌+◌, ◌^◌, ◌<◌, ◌≤◌, ◌↔◌, ◌++◌, ℕ, length, [], ◌∷◌, IfOk, bit_or, Some, slice_get, slice_index, ◌||◌, ◌&&◌, IsTrue, true, ◌⊎◌, map};
ghost use Rattle.std.specs.Int.{bit_at};
ghost use Rattle.probe_words.specs.MarkedLetters.{IsAmong, has_guard, add_once, guard_added as guarded_mark};
ghost use Rattle.probe_words.specs.Core.{Core, Epsilon, Symbol, Sequence, Alternative, LastLabelled, Repeated, Restarted, FirstGuarded, size_of, list_if};
ghost use Rattle.probe_words.specs.CoreForm.{core_of, row_of, tail_of, maybe_of};
ghost use Rattle.probe_words.specs.Words.{IsProperPattern};
ghost use Rattle.probe_words.specs.Twins.{pattern_of, condition_of, mark_of};
ghost use Rattle.probe_words.specs.Laying.{has_no_position, IsEven, LaysPart, AnswersLaying, JoinsEach, PushesPosition, JoinsParts, AnswersLayingFrom, PushesGuardedCopy};
ghost use Rattle.probe_words.specs.Sets.{HasMember};
ghost use Rattle.probe_words.specs.declared.work.Work.{Work};

use crate::bit_sets::{has, set_of, with};
use crate::expression::Expr;
use crate::guard::{Guard, Guards};
use crate::letter::Letter;
use crate::position_list::PositionsFault;
use crate::work::{Part, Placed, Work};
use sqlite_items::Items;
use std::alloc::{AllocError, Global};

// So many positions are there at most, one for each bit of a set but the last.
const POSITION_LIMIT: usize = 63;

/// Adds `more` to each set whose place is in `which`.
fn add_to_each(sets: &mut Items<u64>, which: u64, more: u64)
    requires { length sets.old ≤ 63 }
    ensures { JoinsEach sets.old sets.new which more }
{
    for at in 0..sets.len() {
        if has(which, at) {
            if let Some(old) = sets.get(at) {
                let joined = *old | more;
                sets.set(at, joined);
            }
        }
    }
}

/// No position.
fn nothing(alloc: Global) -> Part
    ensures { (work : Work) → IsEven work → LaysPart Epsilon (length work.places) work work result }
{
    Part {
        first: Items::new(alloc),
        last: 0,
        empty: true,
    }
}

/// One position at the end, with no labels.
fn push_position(work: &mut Work, place: Placed, follow: u64) -> Result<(), PositionsFault>
    requires even { IsEven work.old }
    requires room { length work.old.places ≤ 63 }
    ensures { PushesPosition place follow work.old work.new result }
{
    if work.places.len() == POSITION_LIMIT {
        return Err(PositionsFault::TooManyPositions);
    }
    work.places.push(place)?;
    work.labels.push(0)?;
    work.follow.push(follow)?;
    Ok(())
}

/// The position of one letter.
fn one(alloc: Global, work: &mut Work, letter: Letter) -> Result<Part, PositionsFault>
    requires even { IsEven work.old }
    requires room { length work.old.places ≤ 63 }
    ensures { AnswersLaying (Symbol letter) work.old work.new result }
{
    let at = work.places.len();
    let guards = Items::new(alloc);
    push_position(work, Placed { letter, guards }, 0)?;
    let mut first = Items::new(alloc);
    first.push(at)?;
    let last = with(0, at);
    Ok(Part {
        first,
        last,
        empty: false,
    })
}

/// The sequence of two parts that are laid one after the other.
fn in_a_row(work: &mut Work, left: Part, right: Part) -> Result<Part, PositionsFault>
    requires even { IsEven work.old }
    requires room { length work.old.places ≤ 63 }
    requires numbers { (j : ℕ) → IsAmong j right.first → j < 64 }
    ensures { (r s : Core) (at : ℕ) (before between : Work) → LaysPart r at before between left →
        LaysPart s (at + size_of r) between work.old right → JoinsParts (Sequence r s) at before work.new result }
{
    let Part { first, last, empty } = left;
    add_to_each(&mut work.follow, last, set_of(&right.first));
    let last = with_if(right.empty, right.last, last);
    let both = empty && right.empty;
    let first = append_if(empty, first, right.first)?;
    Ok(Part {
        first,
        last,
        empty: both,
    })
}

/// The first numbers, and then the second ones where the test holds.
fn append_if(
    test: bool,
    mut first: Items<usize>,
    second: Items<usize>,
) -> Result<Items<usize>, AllocError>
    ensures { IfOk result (λ all. all ≡ first ++ list_if test second) }
{
    if test {
        first.append(second)?;
    }
    Ok(first)
}

/// The set, with more in it where the test holds.
fn with_if(test: bool, set: u64, more: u64) -> u64
    ensures { (i : ℕ) → HasMember result i ↔ (HasMember set i ⊎ ((test ≡ true) × HasMember more i)) }
{
    if test { set | more } else { set }
}

/// The alternative of two parts that are laid one after the other.
fn either(left: Part, right: Part) -> Result<Part, PositionsFault>
    ensures { (r s : Core) (at : ℕ) (before between after : Work) → LaysPart r at before between left →
        LaysPart s (at + size_of r) between after right → JoinsParts (Alternative r s) at before after result }
{
    let Part { first, last, empty } = left;
    let last = with_if(true, last, right.last);
    let first = append_if(true, first, right.first)?;
    let empty = empty || right.empty;
    Ok(Part { first, last, empty })
}

/// The part with a label on its last positions.
fn label_last(work: &mut Work, part: &Part, label: u32)
    requires room { length work.old.places ≤ 63 }
    requires even { IsEven work.old }
    requires small { label < 64 }
    ensures { (r : Core) (at : ℕ) (before : Work) → LaysPart r at before work.old part.now → LaysPart (LastLabelled r label) at before work.new part.now }
{
    let more = with(0, label as usize);
    add_to_each(&mut work.labels, part.last, more);
}

/// The part, at least once.
fn repeated(work: &mut Work, part: &Part)
    requires room { length work.old.places ≤ 63 }
    requires even { IsEven work.old }
    requires numbers { (j : ℕ) → IsAmong j part.now.first → j < 64 }
    ensures { (r : Core) (at : ℕ) (before : Work) → LaysPart r at before work.old part.now → LaysPart (Repeated r) at before work.new part.now }
{
    let first = set_of(&part.first);
    add_to_each(&mut work.follow, part.last, first);
}

/// The part, or nothing.
fn maybe(part: Part) -> Part
    ensures { (r : Core) (at : ℕ) (before after : Work) → LaysPart r at before after part → LaysPart (maybe_of r) at before after result }
{
    Part {
        first: part.first,
        last: part.last,
        empty: true,
    }
}

/// The numbers from the first to below the second.
fn range(from: usize, to: usize) -> u64
    requires { (from ≤ to) × (to ≤ 63) }
    ensures { (i : ℕ) → HasMember result i ↔ ((from ≤ i) × (i < to)) }
{
    (1u64 << to) - (1u64 << from)
}

/// The part, which can begin anew at a letter; it begins at `at`.
fn resettable(
    alloc: Global,
    work: &mut Work,
    at: usize,
    part: Part,
    letter: Letter,
) -> Result<Part, PositionsFault>
    requires room { length work.old.places ≤ 63 }
    requires even { IsEven work.old }
    requires begin { at ≤ length work.old.places }
    requires numbers { (j : ℕ) → IsAmong j part.first → j < 64 }
    ensures { (r : Core) (before : Work) → LaysPart r at before work.old part → AnswersLayingFrom (Restarted r letter) at before work.new result }
{
    let new = work.places.len();
    let own = with(set_of(&part.first), new);
    let guards = Items::new(alloc);
    push_position(work, Placed { letter, guards }, own)?;
    let more = with(0, new);
    add_to_each(&mut work.follow, range(at, new), more);
    let Part {
        mut first,
        last,
        empty,
    } = part;
    first.push(new)?;
    let last = with_if(empty, last, more);
    Ok(Part { first, last, empty })
}

fn either_of(left: bool, right: bool) -> bool
    ensures { result ≡ (left || right) }
{
    left || right
}

/// The guards with one added, equal ones once.
fn copy_guarded(alloc: Global, guards: &[Guard], guard: &Guard) -> Result<Guards, AllocError>
    ensures { IfOk result (λ gs. map condition_of gs ≡ add_once (has_guard (map condition_of guards.now) (condition_of guard.now)) (condition_of guard.now) (map condition_of guards.now)) }
{
    let mut copy = Items::new(alloc);
    let mut found = false;
    for other in guards {
        let same = other.is_same(guard);
        found = either_of(found, same);
        copy.push(other.copy(alloc)?)?;
    }
    if !found {
        copy.push(guard.copy(alloc)?)?;
    }
    Ok(copy)
}

/// The letter and guards with one guard added.
fn place_guarded(alloc: Global, place: &Placed, guard: &Guard) -> Result<Placed, AllocError>
    ensures { IfOk result (λ p. mark_of p ≡ guarded_mark (condition_of guard.now) (mark_of place.now)) }
{
    let guards = copy_guarded(alloc, place.guards.as_slice(), guard)?;
    let letter = place.letter;
    Ok(Placed { letter, guards })
}

/// A copy of a position at the end, with the guard added.
fn push_copy(alloc: Global, work: &mut Work, at: usize, guard: &Guard) -> Result<(), PositionsFault>
    requires even { IsEven work.old }
    requires room { length work.old.places ≤ 63 }
    requires there { at < length work.old.places }
    ensures { PushesGuardedCopy at (condition_of guard.now) work.old work.new result }
{
    if work.places.len() == POSITION_LIMIT {
        return Err(PositionsFault::TooManyPositions);
    }
    let place = &work.places.as_slice()[at];
    let copy = place_guarded(alloc, place, guard)?;
    let labels = work.labels.as_slice()[at];
    let follow = work.follow.as_slice()[at];
    work.places.push(copy)?;
    work.labels.push(labels)?;
    work.follow.push(follow)?;
    Ok(())
}

/// The part with a guard on its first letters: they get copies.
fn guarded(
    alloc: Global,
    work: &mut Work,
    part: Part,
    guard: &Guard,
) -> Result<Part, PositionsFault>
    requires even { IsEven work.old }
    requires room { length work.old.places ≤ 63 }
    requires numbers { (j : ℕ) → IsAmong j part.first → j < length work.old.places }
    ensures { (r : Core) (at : ℕ) (before : Work) → LaysPart r at before work.old part → AnswersLayingFrom (FirstGuarded (condition_of guard.now) r) at before work.new result }
{
    let mut first = Items::new(alloc);
    let mut last = part.last;
    for from in part.first.as_slice() {
        let copy = work.places.len();
        push_copy(alloc, work, *from, guard)?;
        last = with_if(has(part.last, *from), last, with(0, copy));
        first.push(copy)?;
    }
    let empty = part.empty;
    Ok(Part { first, last, empty })
}

/// Whether the expression has no positions.
fn is_void(expr: &Expr) -> bool
    ensures { result ≡ has_no_position (pattern_of expr.now) }
{
    match expr {
        Expr::One(_) => false,
        Expr::Then(left, right) => is_void(left) && is_void(right),
        Expr::Or(left, right) => is_void(left) && is_void(right),
        Expr::Label(inner, _) => is_void(inner),
        Expr::Star(inner) => is_void(inner),
        Expr::Plus(inner) => is_void(inner),
        Expr::Maybe(inner) => is_void(inner),
        Expr::Times(inner, count) => *count == 0 || is_void(inner),
        Expr::Between(inner, least, most) => (*least == 0 && *most == 0) || is_void(inner),
        Expr::Reset(_, _) => false,
        Expr::Guarded(_, inner) => is_void(inner),
    }
}

/// The positions of an expression, laid after those that are there.
#[cycle(add)]
pub(crate) fn add(alloc: Global, work: &mut Work, expr: &Expr) -> Result<Part, PositionsFault>
    requires room { length work.old.places ≤ 63 }
    requires even { IsEven work.old }
    requires proper { IsProperPattern (pattern_of expr.now) }
    ensures { AnswersLaying (core_of (pattern_of expr.now)) work.old work.new result }
{
    match expr {
        Expr::One(letter) => one(alloc, work, *letter),
        Expr::Then(left, right) => {
            let left = add(alloc, work, left)?;
            let right = add(alloc, work, right)?;
            in_a_row(work, left, right)
        }
        Expr::Or(left, right) => {
            let left = add(alloc, work, left)?;
            let right = add(alloc, work, right)?;
            either(left, right)
        }
        Expr::Label(inner, label) => {
            let part = add(alloc, work, inner)?;
            label_last(work, &part, *label);
            Ok(part)
        }
        Expr::Star(inner) => {
            let part = add(alloc, work, inner)?;
            repeated(work, &part);
            Ok(maybe(part))
        }
        Expr::Plus(inner) => {
            let part = add(alloc, work, inner)?;
            repeated(work, &part);
            Ok(part)
        }
        Expr::Maybe(inner) => {
            let part = add(alloc, work, inner)?;
            Ok(maybe(part))
        }
        Expr::Times(inner, count) => add_row(alloc, work, inner, *count),
        Expr::Between(inner, least, most) => {
            let front = add_row(alloc, work, inner, *least)?;
            let back = add_tail(alloc, work, inner, *most - *least)?;
            in_a_row(work, front, back)
        }
        Expr::Reset(inner, letter) => {
            let at = work.places.len();
            let part = add(alloc, work, inner)?;
            resettable(alloc, work, at, part, *letter)
        }
        Expr::Guarded(guard, inner) => {
            let part = add(alloc, work, inner)?;
            guarded(alloc, work, part, guard)
        }
    }
}

/// So many copies in a row.
#[cycle(add)]
fn add_row(alloc: Global, work: &mut Work, inner: &Expr, count: u32) -> Result<Part, PositionsFault>
    requires room { length work.old.places ≤ 63 }
    requires even { IsEven work.old }
    requires proper { IsProperPattern (pattern_of inner.now) }
    requires small { count < 64 }
    ensures { AnswersLaying (row_of (core_of (pattern_of inner.now)) count) work.old work.new result }
{
    if count == 0 {
        return Ok(nothing(alloc));
    }
    if is_void(inner) {
        return Ok(nothing(alloc));
    }
    let front = add_row(alloc, work, inner, count - 1)?;
    let back = add(alloc, work, inner)?;
    in_a_row(work, front, back)
}

/// The tail for so many copies.
#[cycle(add)]
fn add_tail(
    alloc: Global,
    work: &mut Work,
    inner: &Expr,
    count: u32,
) -> Result<Part, PositionsFault>
    requires room { length work.old.places ≤ 63 }
    requires even { IsEven work.old }
    requires proper { IsProperPattern (pattern_of inner.now) }
    requires small { count < 64 }
    ensures { AnswersLaying (tail_of (core_of (pattern_of inner.now)) count) work.old work.new result }
{
    if count == 0 {
        return Ok(nothing(alloc));
    }
    if is_void(inner) {
        return Ok(nothing(alloc));
    }
    let front = add(alloc, work, inner)?;
    if count == 1 {
        return Ok(maybe(front));
    }
    let back = add_tail(alloc, work, inner, count - 1)?;
    let both = in_a_row(work, front, back)?;
    Ok(maybe(both))
}
