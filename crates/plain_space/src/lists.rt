//! The list that a plain space has loaded.
ghost use Rattle.pepa_model.specs.PepaModel.{PepaModel};
ghost use Rattle.pepa_steps.specs.Traces.{AreFor};
ghost use Rattle.plain_space.specs.PlainLists.{AnswersWeighing};

use pepa_rates::{Frac, Rate, Scale, WeightFault, push_weights};
use pepa_steps::{Buffers, Entry};
use sim_space::{Halt, Stop};
use std::alloc::Global;

/// The transitions of a term without their targets, their rates as fractions, and their weights. All of it is kept for the next
/// list.
#[derive(Drop)]
pub(crate) struct Lists {
    pub(crate) buffers: Buffers,
    pub(crate) rates: Vec<Frac>,
    pub(crate) each: Vec<u64>,
}

impl Lists {
    /// No list, for any model.
    pub(crate) fn new(alloc: Global) -> Lists
        ensures { (m : PepaModel) → AreFor m result.buffers }
    {
        Lists {
            buffers: Buffers::new(alloc),
            rates: Vec::new(alloc),
            each: Vec::new(alloc),
        }
    }
}

/// The weights of the entries that were loaded, in place of those that are there, and their scale.
///
/// The stop is `PassiveLeft` exactly where a rate is passive, else `WeightOverflow` exactly where there are no weights.
pub(crate) fn weigh(
    entries: &[Entry],
    rates: &mut Vec<Frac>,
    each: &mut Vec<u64>,
) -> Result<Scale, Halt>
    ensures { AnswersWeighing entries.now rates.new.items each.new.items result }
{
    rates.clear();
    each.clear();
    for entry in entries {
        match &entry.rate {
            Rate::Active(rate) => {
                rate.valid();
                let Ok(()) = rates.push(*rate) else {
                    return Err(Halt::Memory);
                };
            }
            Rate::Passive(_) => return Err(Halt::Stop(Stop::PassiveLeft)),
        }
    }
    match push_weights(rates.as_slice(), each) {
        Ok(scale) => Ok(scale),
        Err(WeightFault::Overflow) => Err(Halt::Stop(Stop::WeightOverflow)),
        Err(WeightFault::Memory) => Err(Halt::Memory),
    }
}
