//! The table of some positions.
ghost use Rattle.std.specs.Prelude.{◌≡◌, ◌≤◌, length};
ghost use Rattle.probe_words.specs.PositionsOf.{ArePositionSets};
ghost use Rattle.probe_automata.specs.Builds.{IsBuildAnswer};

use crate::build_fault::BuildFault;
use crate::distinct::{distinct_guards, distinct_letters};
use crate::exploring::{Explored, explore};
use crate::filters::all_filters;
use crate::signals::signals_of;
use probe_words::{Positions, ProbeTable};
use std::alloc::Global;

// So many distinct guards are there at most.
const GUARD_LIMIT: usize = 4;

/// The table of these positions, or why there is none: more than 4 distinct guards, else more than 1,024 reached sets.
///
/// The caller sees to it that there are at most 63 positions, as many sets in `follow`, and that every set holds numbers below that
/// many.
pub fn build(alloc: Global, positions: &Positions) -> Result<ProbeTable, BuildFault>
    requires { ArePositionSets positions.now }
    ensures { IsBuildAnswer positions.now result }
{
    let each = positions.each.as_slice();
    let letters = distinct_letters(alloc, each)?;
    let guards = distinct_guards(alloc, each)?;
    if guards.len() > GUARD_LIMIT {
        return Err(BuildFault::TooManyGuards);
    }
    let filters = all_filters(alloc, each, guards.as_slice(), letters.as_slice())?;
    let Explored { sets, moves } = explore(alloc, positions, filters.as_slice())?;
    let signals = signals_of(alloc, each, &sets)?;
    Ok(ProbeTable {
        states: sets.len() as u32,
        letters,
        guards,
        moves,
        signals,
    })
}
