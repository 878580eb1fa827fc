//! The weights by which one of a state's transitions is chosen.
ghost use Rattle.std.specs.Prelude.{◌≡◌};
ghost use Rattle.sim_space.specs.Choices.{AnswersWeights};

use crate::stop::Stop;
use pepa_rates::{Rate, WeightFault, Weights, weights};
use sqlite_items::Items;
use std::alloc::{AllocError, Global};

/// Why there are no weights to choose by.
#[derive(Clone, Copy, Debug, PartialEq, Eq)]
pub enum ChoiceEnd {
    /// The rates together have this stop.
    Stop(Stop),
    /// Memory ran out.
    Memory,
}

impl From<AllocError> for ChoiceEnd {
    ghost use Rattle.sim_space.specs.declared.choices.ChoiceEnd.TheVariants.{Memory};

    ghost from_gives = { λ _ end. end ≡ Memory };

    fn from(_error: AllocError) -> ChoiceEnd {
        ChoiceEnd::Memory
    }
}

/// The weights by which one of the transitions of these rates is chosen, in the order of the rates; 1 as their denominator and no
/// weight where there is no rate.
///
/// The stop is `PassiveLeft` exactly where a rate is passive, else `WeightOverflow` exactly where the denominator or the sum of
/// the weights is 2^62 or more, and no other. `Memory` says only that memory ran out.
pub fn choice_weights(alloc: Global, rates: &[Rate]) -> Result<Weights, ChoiceEnd>
    ensures { AnswersWeights rates.now result }
{
    let mut active = Items::new(alloc);
    for rate in rates {
        match rate {
            Rate::Active(rate) => active.push(*rate)?,
            Rate::Passive(_) => return Err(ChoiceEnd::Stop(Stop::PassiveLeft)),
        }
    }
    match weights(alloc, active.as_slice()) {
        Ok(weights) => Ok(weights),
        Err(WeightFault::Overflow) => Err(ChoiceEnd::Stop(Stop::WeightOverflow)),
        Err(WeightFault::Memory) => Err(ChoiceEnd::Memory),
    }
}
