//! The parts of a file that a model's limits are on.
ghost use Rattle.fault_ends.specs.Answers.{OkOrFault};
ghost use Rattle.pepa_checks.specs.FileViews.{IsOrderedFile, IsCountedFile, IsPastLimit};

use crate::activities::performed;
use crate::leaves::{Leaves, leaves_of};
use crate::over_limit::OverLimit;
use crate::sets::{SetTable, set_table};
use crate::structured_file::StructuredFile;
use crate::summand::Performed;
use crate::system_size::{Measure, is_too_large};
use fault_ends::End;
use sqlite_items::Items;
use std::alloc::Global;

/// The most action types that a model may have, beside `tau`.
const MOST_ACTIONS: usize = 1024;

/// The most sets that a model may have.
const MOST_SETS: usize = 1024;

/// What is counted of a file that passes no limit.
#[derive(Drop)]
pub(crate) struct Counted {
    /// The sets, each at the place of its number.
    pub(crate) sets: SetTable,
    pub(crate) leaves: Leaves,
    /// What each leaf performs, by number.
    pub(crate) performed: Items<Items<Performed>>,
}

/// Counts the action types, the sets, the leaves and their activities, and the leaves and the nodes of the system.
pub(crate) fn count(alloc: Global, file: &StructuredFile) -> Result<Counted, End<OverLimit>>
    requires { IsOrderedFile file.now }
    ensures { OkOrFault result (IsCountedFile file.now) (λ _. IsPastLimit file.now) }
{
    let view = file.view();
    if file.numbered.actions.len() > MOST_ACTIONS + 1 {
        return Err(End::Fault(OverLimit));
    }
    let sets = set_table(alloc, view)?;
    if sets.len() > MOST_SETS {
        return Err(End::Fault(OverLimit));
    }
    let leaves = leaves_of(alloc, view)?;
    let constants = leaves.constants.as_slice();
    let performed = performed(alloc, view, constants, leaves.summands.as_slice())?;
    if is_too_large(alloc, Measure::Leaves, view)? {
        return Err(End::Fault(OverLimit));
    }
    if is_too_large(alloc, Measure::Nodes, view)? {
        return Err(End::Fault(OverLimit));
    }
    Ok(Counted {
        sets,
        leaves,
        performed,
    })
}
