//! The apparent rates of cooperations and hidings by action type, from those of their parts.
ghost use Rattle.std.specs.List.Sorted.{IsStrictlyIncreasing};
ghost use Rattle.pepa_steps.specs.ActionRates.{AllFine, AnswersChoice};
ghost use Rattle.pepa_steps.specs.StateRates.{AnswersRatesBy, rates_of_cooperation, rates_of_hiding};
ghost use Rattle.pepa_steps.specs.CooperationRates.{AnswersSetting, MakesRates, rates_of_left, rates_outside};

use crate::action_rates::add_rate;
use crate::sets::is_in;
use fault_ends::End;
use pepa_rates::{Rate, RateFault};
use std::alloc::Global;
use std::collections::BTreeMap;

/// The rates of a cooperation over these types: of a type among them the lesser of both sides' rates, if each side has one, and
/// of another type their sum.
pub(crate) fn cooperation_rates(
    alloc: Global,
    types: &[u32],
    left: &BTreeMap<u32, Rate>,
    right: &BTreeMap<u32, Rate>,
) -> Result<BTreeMap<u32, Rate>, End<RateFault>>
    requires ascends { IsStrictlyIncreasing types.now }
    requires left_fine { AllFine left.now.entries }
    requires right_fine { AllFine right.now.entries }
    ensures { AnswersRatesBy
        (rates_of_cooperation types.now left.now.entries right.now.entries) result }
{
    let first = left_rates(alloc, types, left, right)?;
    add_outside(types, first, right)
}

// The rates of the left side by types outside the set, and the lesser of both sides' by types in it.
fn left_rates(
    alloc: Global,
    types: &[u32],
    left: &BTreeMap<u32, Rate>,
    right: &BTreeMap<u32, Rate>,
) -> Result<BTreeMap<u32, Rate>, End<RateFault>>
    requires ascends { IsStrictlyIncreasing types.now }
    requires left_fine { AllFine left.now.entries }
    requires right_fine { AllFine right.now.entries }
    ensures { MakesRates (rates_of_left types.now left.now.entries right.now.entries) result }
{
    let mut all = BTreeMap::new(alloc);
    for (action, rate) in left {
        if !is_in(types, *action) {
            set_rate(&mut all, *action, *rate)?;
        } else if let Some(other) = right.get(action) {
            set_rate(&mut all, *action, rate.least(other))?;
        }
    }
    Ok(all)
}

// The first rates with the others by types outside the set added.
fn add_outside(
    types: &[u32],
    first: BTreeMap<u32, Rate>,
    others: &BTreeMap<u32, Rate>,
) -> Result<BTreeMap<u32, Rate>, End<RateFault>>
    requires ascends { IsStrictlyIncreasing types.now }
    requires fine { AllFine first.entries }
    ensures { AnswersChoice first.entries (rates_outside types.now others.now.entries) result }
{
    let mut all = first;
    for (action, rate) in others {
        if !is_in(types, *action) {
            add_rate(&mut all, *action, rate)?;
        }
    }
    Ok(all)
}

/// The rates of a system that hides these types.
pub(crate) fn hiding_rates(
    alloc: Global,
    types: &[u32],
    inner: &BTreeMap<u32, Rate>,
) -> Result<BTreeMap<u32, Rate>, End<RateFault>>
    requires ascends { IsStrictlyIncreasing types.now }
    requires fine { AllFine inner.now.entries }
    ensures { AnswersRatesBy (rates_of_hiding types.now inner.now.entries) result }
{
    let mut seen = BTreeMap::new(alloc);
    for (action, rate) in inner {
        if !is_in(types, *action) {
            set_rate(&mut seen, *action, *rate)?;
        }
    }
    Ok(seen)
}

// Gives an action this rate.
fn set_rate(rates: &mut BTreeMap<u32, Rate>, action: u32, rate: Rate) -> Result<(), End<RateFault>>
    ensures { AnswersSetting rates.old.entries rates.new.entries action rate result }
{
    rates.insert(action, rate).map_err(|_| End::Memory)?;
    Ok(())
}
