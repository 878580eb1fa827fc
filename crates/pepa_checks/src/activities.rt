//! What each leaf performs.
ghost use Rattle.std.specs.Prelude.{◌≡◌, ◌<◌, ◌≤◌, ◌++◌, [], false, zero, length, sum_by, replicate, slice_index, IfOk, OnOk};
ghost use Rattle.fault_ends.specs.Answers.{OkOrFault};
ghost use Rattle.pepa_checks.specs.Summands.{ArePerformed};
ghost use Rattle.pepa_checks.specs.ActivityLists.{LeafChoices, choices_outline, written, OpensIntoMany, performed_by, performed_in, AreSoFar, MakesList, PassesMost};

use crate::over_limit::OverLimit;
use crate::structured_file::FileView;
use crate::summand::{Performed, Summand};
use fault_ends::End;
use pepa_model::Activity;
use sqlite_items::Items;
use std::alloc::{AllocError, Global};

/// The most activities that the leaves of a model may have together.
const MOST_ACTIVITIES: usize = 65_535;

/// The number of the leaf that a sequential constant is. Each constant in a leaf is one.
fn leaf_of(constants: &[u32], constant: u32) -> usize
    ensures { result ≡ slice_index constants.now constant }
{
    constants.get(constant as usize).copied().unwrap_or(0) as usize
}

/// How many activities an operand has.
fn count_of(constants: &[u32], lists: &[Items<Performed>], operand: &Summand) -> usize
    ensures { result ≡ length (performed_by constants.now lists.now operand.now) }
{
    match operand {
        Summand::Constant(constant) => match lists.get(leaf_of(constants, *constant)) {
            Some(list) => list.len(),
            None => 0,
        },
        Summand::Activity { .. } => 1,
    }
}

/// Puts the activities of an operand behind the others.
fn add_operand(
    list: &mut Vec<Performed>,
    constants: &[u32],
    lists: &[Items<Performed>],
    operand: &Summand,
) -> Result<(), AllocError>
    ensures { OnOk result (list.new.items
        ≡ list.old.items ++ performed_by constants.now lists.now operand.now) }
{
    match operand {
        Summand::Constant(constant) => {
            if let Some(same) = lists.get(leaf_of(constants, *constant)) {
                list.extend_from_slice(same.as_slice())?;
            }
        }
        Summand::Activity {
            at,
            action,
            rate,
            target,
        } => list.push(Performed {
            at: *at,
            activity: Activity {
                action: *action,
                rate: *rate,
                target: *target,
            },
        })?,
    }
    Ok(())
}

/// The list of a leaf with these operands, if there is room for it.
fn list_of(
    alloc: Global,
    constants: &[u32],
    lists: &[Items<Performed>],
    operands: &[Summand],
    room: usize,
) -> Result<Items<Performed>, End<OverLimit>>
    ensures { OkOrFault result
        (λ list. (list ≡ performed_in constants.now lists.now operands.now) × (length list ≤ room))
        (λ _. room < length (performed_in constants.now lists.now operands.now)) }
{
    let mut list = Vec::new(alloc);
    for operand in operands {
        if count_of(constants, lists, operand) > room - list.len() {
            return Err(End::Fault(OverLimit));
        }
        add_operand(&mut list, constants, lists, operand)?;
    }
    Ok(Items::from_vec(list))
}

/// The lists of the leaves, as far as they are made.
#[derive(Drop)]
struct Lists {
    /// Whether the list of each leaf is made.
    made: Items<bool>,
    /// The list of each leaf, which is empty until it is made.
    lists: Items<Items<Performed>>,
    /// How many activities they have together.
    total: usize,
}

impl Lists {
    /// The lists of so many leaves, none of them made.
    fn new(alloc: Global, count: usize) -> Result<Lists, AllocError>
        ensures { IfOk result (λ it. (it.made ≡ replicate count false) × (it.lists ≡ replicate count [])
            × (it.total ≡ 0)) }
    {
        let mut lists = Items::new(alloc);
        for _made in 0..count {
            lists.push(Items::new(alloc))?;
        }
        let made = Items::from_vec(vec![in alloc; false; count]?);
        Ok(Lists {
            made,
            lists,
            total: 0,
        })
    }

    /// Makes the list of a leaf with these operands, unless it is made.
    fn make(
        &mut self,
        alloc: Global,
        constants: &[u32],
        operands: &[Summand],
        number: usize,
    ) -> Result<(), End<OverLimit>>
        requires kept { AreSoFar self.old }
        requires within { number < length self.old.lists }
        ensures { OkOrFault result
            (λ _. AreSoFar self.new × MakesList constants.now operands.now number self.old self.new)
            (λ _. PassesMost constants.now operands.now number self.old) }
    {
        if self.made.as_slice()[number] {
            return Ok(());
        }
        let room = MOST_ACTIVITIES - self.total;
        let list = list_of(alloc, constants, self.lists.as_slice(), operands, room)?;
        self.total += list.len();
        self.lists.set(number, list);
        self.made.set(number, true);
        Ok(())
    }
}

/// What each leaf performs, by number, from the numbers of the leaves that are constants and the operands of each leaf's choice.
///
/// In the file's order a sequential constant comes after those that its body reaches without an activity, since its list is made of
/// theirs. Each list is made once, in the time of its operands and its activities, and there is room for it before it is made.
pub(crate) fn performed(
    alloc: Global,
    file: FileView,
    constants: &[u32],
    leaves: &[Items<Summand>],
) -> Result<Items<Items<Performed>>, End<OverLimit>>
    requires { LeafChoices file.compounds.now file.sequential_order.now constants.now leaves.now }
    ensures performed { (choices : LeafChoices file.entry.compounds.now
        file.entry.sequential_order.now constants.now leaves.now)
        → OkOrFault result
        (ArePerformed (choices_outline choices) choices.bodies (written choices))
        (λ _. OpensIntoMany (choices_outline choices)) }
    ensures few { IfOk result (λ lists. sum_by length lists ≤ 65535) }
{
    let FileView {
        compounds,
        sequential_order: order,
        ..
    } = file;
    let mut lists = Lists::new(alloc, leaves.len())?;
    for constant in order {
        let constant = *constant as usize;
        if !compounds[constant] {
            let number = constants[constant] as usize;
            lists.make(alloc, constants, leaves[number].as_slice(), number)?;
        }
    }
    for number in 0..leaves.len() {
        lists.make(alloc, constants, leaves[number].as_slice(), number)?;
    }
    Ok(lists.lists)
}
