//! The apparent rates of a component by action type, each part's from those of its parts.
ghost use Rattle.std.specs.Prelude.{◌≡◌, ℕ, ◌<◌, IfOk, MatchResult};
ghost use Rattle.pepa_rates.specs.Fraction.{InRange};
ghost use Rattle.pepa_rates.specs.Sum.{fraction_of};
ghost use Rattle.pepa_model.specs.Expression.{expression_of};
ghost use Rattle.pepa_model.specs.Opened.{Opened, Opens};
ghost use Rattle.pepa_steps.specs.ApparentAnswers.{CanOpen};
ghost use Rattle.pepa_steps.specs.ActionRates.{AnswersRates, AllFine, IsRatesOfPrefix, AddsRate, AnswersAddition, AnswersChoice};

use fault_ends::End;
use pepa_model::{Model, Sequential, TAU};
use pepa_rates::{Rate, RateFault};
use std::alloc::Global;
use std::collections::BTreeMap;

/// The apparent rates of a component, of each action type from 1 up that it performs.
///
/// The fault is that of the first part, in post-order, and there that of the least action.
pub(crate) fn component_rates(
    alloc: Global,
    model: &Model,
    component: &Sequential,
    depth: u32,
) -> Result<BTreeMap<u32, Rate>, End<RateFault>>
    requires { CanOpen model.now.bodies (expression_of component.now) depth }
    ensures { (o : Opened)
        → Opens model.now.bodies (expression_of component.now) o → AnswersRates o result }
{
    match component {
        Sequential::Prefix(action, rate, _next) => prefix_rates(alloc, *action, rate),
        Sequential::Choice(left, right) => {
            let left = component_rates(alloc, model, left, depth - 1)?;
            let right = component_rates(alloc, model, right, depth - 1)?;
            choice_rates(left, right)
        }
        Sequential::Constant(constant) => {
            component_rates(alloc, model, model.body(*constant), depth - 1)
        }
    }
}

// The rates of a prefix. The verdict doesn't judge `tau`.
fn prefix_rates(
    alloc: Global,
    action: u32,
    rate: &Rate,
) -> Result<BTreeMap<u32, Rate>, End<RateFault>>
    ensures { IsRatesOfPrefix action rate.now result }
{
    rate.valid();
    let mut rates = BTreeMap::new(alloc);
    if action != TAU {
        rates.insert(action, *rate).map_err(|_| End::Memory)?;
    }
    Ok(rates)
}

// The rates of a choice, of those of its operands. Fewer entries go into more, since addition doesn't mind the order.
pub(crate) fn choice_rates(
    left: BTreeMap<u32, Rate>,
    right: BTreeMap<u32, Rate>,
) -> Result<BTreeMap<u32, Rate>, End<RateFault>>
    requires left_fine { AllFine left.entries }
    requires right_fine { AllFine right.entries }
    ensures { AnswersChoice left.entries right.entries result }
{
    if left.len() < right.len() {
        add_rates(right, left)
    } else {
        add_rates(left, right)
    }
}

// The first rates with the others added, entry by entry.
fn add_rates(
    first: BTreeMap<u32, Rate>,
    others: BTreeMap<u32, Rate>,
) -> Result<BTreeMap<u32, Rate>, End<RateFault>>
    requires first_fine { AllFine first.entries }
    requires others_fine { AllFine others.entries }
    ensures { AnswersChoice first.entries others.entries result }
{
    let mut all = first;
    for (action, rate) in &others {
        add_rate(&mut all, *action, rate)?;
    }
    Ok(all)
}

// Adds a rate to that of an action.
pub(crate) fn add_rate(
    rates: &mut BTreeMap<u32, Rate>,
    action: u32,
    rate: &Rate,
) -> Result<(), End<RateFault>>
    ensures { AnswersAddition rates.old.entries rates.new.entries action rate.now result }
{
    rate.valid();
    let sum = match rates.get(&action) {
        None => *rate,
        Some(before) => before.add(rate).map_err(End::Fault)?,
    };
    rates.insert(action, sum).map_err(|_| End::Memory)?;
    Ok(())
}
