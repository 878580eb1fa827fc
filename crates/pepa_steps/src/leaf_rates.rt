//! The apparent rates of leaves, found once for each.
ghost use Rattle.std.specs.Prelude.{◌≡◌, ◌<◌, Some, length, slice_get};
ghost use Rattle.pepa_model.specs.Expression.{Expression};
ghost use Rattle.pepa_model.specs.Opened.{Opened, Opens};
ghost use Rattle.pepa_steps.specs.ActionRates.{AnswersRates};
ghost use Rattle.pepa_steps.specs.KeptRates.{AreKeptRates, IsKeptRates, AnswersLeaf, AnswersKept, AnswersKeeping, kept_of, IsFoundRates};

use crate::action_rates::component_rates;
use fault_ends::End;
use pepa_model::{MAX_HEIGHT, Model};
use pepa_rates::{Rate, RateFault};
use std::alloc::Global;
use std::collections::BTreeMap;

/// What is kept of a leaf: its apparent rates by action type, or the first fault of its parts.
#[derive(Debug, Drop)]
pub(crate) enum LeafRates {
    Rated(BTreeMap<u32, Rate>),
    Faulty(RateFault),
}

/// The apparent rates of a leaf, which are found at the first call for it and kept.
pub(crate) fn leaf_rates(
    alloc: Global,
    model: &Model,
    leaf: u32,
    kept: &mut BTreeMap<u32, LeafRates>,
) -> Result<BTreeMap<u32, Rate>, End<RateFault>>
    requires leaf { leaf < length model.now.leaves }
    requires kept { AreKeptRates model.now kept.old.entries }
    ensures kept { AreKeptRates model.now kept.new.entries }
    ensures answers { AnswersLeaf model.now leaf result }
{
    if let Some(found) = kept.get(&leaf) {
        return copied(found);
    }
    let found = find_rates(alloc, model, leaf)?;
    let rates = copied(&found);
    keep(kept, leaf, found)?;
    rates
}

/// Finds the apparent rates of a leaf.
fn find_rates(alloc: Global, model: &Model, leaf: u32) -> Result<LeafRates, End<RateFault>>
    requires { leaf < length model.now.leaves }
    ensures { IsFoundRates model.now leaf result }
{
    model.recall_invariant();
    match component_rates(alloc, model, model.leaf(leaf), MAX_HEIGHT) {
        Ok(rates) => Ok(LeafRates::Rated(rates)),
        Err(End::Fault(fault)) => Ok(LeafRates::Faulty(fault)),
        Err(End::Memory) => Err(End::Memory),
    }
}

/// What is kept, as the answer of a leaf.
fn copied(found: &LeafRates) -> Result<BTreeMap<u32, Rate>, End<RateFault>>
    ensures { AnswersKept found.now result }
{
    match found {
        LeafRates::Rated(rates) => rates.clone().map_err(|_| End::Memory),
        LeafRates::Faulty(fault) => Err(End::Fault(*fault)),
    }
}

/// Keeps what was found of a leaf.
fn keep(
    kept: &mut BTreeMap<u32, LeafRates>,
    leaf: u32,
    found: LeafRates,
) -> Result<(), End<RateFault>>
    ensures { AnswersKeeping kept.old.entries kept.new.entries leaf found result }
{
    kept.insert(leaf, found).map_err(|_| End::Memory)?;
    Ok(())
}
