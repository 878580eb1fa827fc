//! The sets of positions that are reached, numbered as they are first reached.
ghost use Rattle.std.specs.Prelude.{◌≡◌, ◌==◌, ◌+◌, ◌<◌, ◌≤◌, ◌^◌, ℕ, length, false, true, [], ◌∷◌, OnOk, IfOk, MatchResult, take, slice_index};
ghost use Rattle.indexmap.specs.IndexSet.{insert_index, insert_key};
ghost use Rattle.probe_words.specs.ProbeTables.{place_among, state_number_of};
ghost use Rattle.probe_automata.specs.Exploring.{is_in, with_new, move_at, candidates_of, IsExplored, Numbers, Explores};

use crate::build_fault::BuildFault;
use indexmap::IndexSet;
use probe_words::{Positions, Words16, has};
use std::alloc::{AllocError, Global};

/// The sets of the states, each at its number, and the moves between them.
#[derive(Debug, Drop)]
pub(crate) struct Explored {
    pub(crate) sets: IndexSet<u64>,
    pub(crate) moves: Words16,
}

/// The place of the set, which is put at the end unless it is there.
fn insert(sets: &mut IndexSet<u64>, set: u64) -> Result<usize, AllocError>
    ensures keys { OnOk result (sets.new.keys ≡ with_new sets.old.keys set) }
    ensures place { IfOk result (λ place. place ≡ place_among set sets.new.keys) }
{
    let (place, _) = sets.insert_full(set)?;
    Ok(place)
}

/// The number of the set, which is new or not.
fn number(sets: &mut IndexSet<u64>, set: u64) -> Result<u16, BuildFault>
    requires { length sets.old.keys ≤ 1024 }
    ensures { Numbers sets.old.keys sets.new.keys set result }
{
    let place = insert(sets, set)?;
    if place >= STATE_LIMIT {
        return Err(BuildFault::TooManyStates);
    }
    Ok(move_number(set, place))
}

// So many states are there at most.
const STATE_LIMIT: usize = 1024;

/// The number of a move to the set.
fn move_number(set: u64, place: usize) -> u16
    requires { place < 1024 }
    ensures { result ≡ move_at set place }
{
    if set == 0 { 65535 } else { place as u16 }
}

/// The positions that can come next.
fn candidates(positions: &Positions, set: u64) -> u64
    requires { length positions.now.follow ≤ 63 }
    ensures { result ≡ candidates_of positions.now set }
{
    if set == 0 {
        return positions.first;
    }
    let mut all = 0u64;
    for (at, follow) in positions.follow.as_slice().iter().enumerate() {
        if has(set, at) {
            all |= *follow;
        }
    }
    if set & positions.last != 0 {
        all | positions.first
    } else {
        all
    }
}

/// All sets that are reached, and the moves between them: from each set one for each filter.
pub(crate) fn explore(
    alloc: Global,
    positions: &Positions,
    filters: &[u64],
) -> Result<Explored, BuildFault>
    requires { length positions.now.follow ≤ 63 }
    ensures { Explores positions.now filters.now result }
{
    let mut sets = IndexSet::new(alloc);
    insert(&mut sets, 0)?;
    let mut moves = Words16::new(alloc);
    let mut state = 0;
    'states: while let Some(set) = sets.get_index(state) {
        let next = candidates(positions, *set);
        'filters: for filter in filters {
            let number = number(&mut sets, next & *filter)?;
            moves.push(number)?;
        }
        state += 1;
    }
    Ok(Explored { sets, moves })
}
