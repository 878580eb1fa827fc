//! The leaves of a file, each with the operands of its choice.
ghost use Rattle.std.specs.Prelude.{◌≡◌, ◌≤◌, length, IfOk};
ghost use Rattle.fault_ends.specs.Answers.{OkOrFault};
ghost use Rattle.pepa_resolver.specs.NamedTypes.{named_of, bodies_of};
ghost use Rattle.pepa_checks.specs.FileViews.{IsOrderedView};
ghost use Rattle.pepa_checks.specs.LeavesAnswers.{IsLeavesOf, LeavesAreTooMany, numbers_from};

use crate::expressions::{FileWalk, walk_file};
use crate::leaf_table::LeafTable;
use crate::over_limit::OverLimit;
use crate::structured_file::FileView;
use crate::summand::Summand;
use fault_ends::End;
use pepa_model::SequentialList;
use sqlite_items::Items;
use std::alloc::{AllocError, Global};

/// How many leaves a model may have.
const MAX_LEAVES: usize = 65_535;

/// The leaves of a file.
#[derive(Drop)]
pub(crate) struct Leaves {
    /// The leaves' expressions, by number.
    pub(crate) expressions: SequentialList,
    /// The operands of each leaf's choice, by number; those of a constant's body for a leaf that is one.
    pub(crate) summands: Items<Items<Summand>>,
    /// The number of the leaf that each sequential constant is, by constant; any number for a compound one.
    pub(crate) constants: Items<u32>,
}

/// The numbers of the leaves that are sequential constants, by constant: these are the first leaves.
fn constant_leaves(alloc: Global, compounds: &[bool]) -> Result<Items<u32>, AllocError>
    requires { length compounds.now ≤ 1024 }
    ensures { IfOk result (λ numbers. numbers ≡ numbers_from 0 compounds.now) }
{
    let mut numbers = Items::new(alloc);
    let mut next = 0;
    for compound in compounds {
        numbers.push(next)?;
        if !*compound {
            next += 1;
        }
    }
    Ok(numbers)
}

/// The leaves of the processes of a file. Equal expressions are found by their numbers, and each process is walked once.
pub(crate) fn leaves_of(alloc: Global, file: FileView) -> Result<Leaves, End<OverLimit>>
    requires { IsOrderedView file }
    ensures { OkOrFault result
        (IsLeavesOf file.entry.compounds.now (bodies_of file.entry.bodies.now)
        (named_of file.entry.system.now))
        (λ _. LeavesAreTooMany file.entry.compounds.now (bodies_of file.entry.bodies.now)
        (named_of file.entry.system.now)) }
{
    let FileWalk { walk, mut heads } = walk_file(alloc, file)?;
    let mut table = LeafTable::new(alloc);
    while let Some(head) = heads.pop() {
        table.add_head(head)?;
    }
    let mut candidates = walk.candidates;
    while let Some(candidate) = candidates.pop() {
        table.add_candidate(alloc, candidate)?;
        if table.numbers.len() > MAX_LEAVES {
            return Err(End::Fault(OverLimit));
        }
    }
    let summands = table.summands(alloc)?;
    let constants = constant_leaves(alloc, file.compounds)?;
    Ok(Leaves {
        expressions: table.expressions,
        summands,
        constants,
    })
}
