//! The transitions of a term, and the verdict on it.
ghost use Rattle.std.specs.Prelude.{◌≡◌, List, IfOk};
ghost use Rattle.std.specs.List.{AllZip};
ghost use Rattle.pepa_model.specs.Terms.{IsTermOf};
ghost use Rattle.pepa_steps.specs.States.{State, StateTransition, StandsFor, ForEachState, StepStandsFor};
ghost use Rattle.pepa_steps.specs.Rules.{IsTransitionList};
ghost use Rattle.pepa_steps.specs.StepsAnswers.{IsStepsResult};
ghost use Rattle.pepa_steps.specs.Traces.{HasList};

use crate::buffers::Buffers;
use crate::loading::load;
use crate::targets::target;
use fault_ends::End;
use pepa_model::{Model, Step, StepList, Term};
use pepa_rates::{RateFault, RateOverflow};
use std::alloc::{AllocError, Global};

/// A fault of a term, by which its verdict names it.
#[derive(Clone, Copy, Debug, PartialEq, Eq)]
pub enum StepFault {
    /// An apparent rate is a sum of an active and a passive rate.
    Mixed,
    /// An apparent rate, or the rate of a derivation, isn't in range.
    Overflow,
    /// A part has more than 65,535 derivations.
    ListTooLong,
}

/// Why a term has no transition list.
#[derive(Clone, Copy, Debug, PartialEq, Eq)]
pub enum StepsEnd {
    /// The first fault of its parts, in post-order.
    Fault(StepFault),
    /// The memory ran out.
    Memory,
}

impl From<AllocError> for StepsEnd {
    ghost use Rattle.pepa_steps.specs.declared.transitions.StepsEnd.TheVariants.{Memory};

    ghost from_gives = { λ _ end. end ≡ Memory };

    fn from(_error: AllocError) -> StepsEnd {
        StepsEnd::Memory
    }
}

impl From<End<RateFault>> for StepsEnd {
    ghost use Rattle.pepa_steps.specs.EndNames.{rates_end};

    ghost from_gives = { λ end other. other ≡ rates_end end };

    fn from(end: End<RateFault>) -> StepsEnd {
        match end {
            End::Fault(RateFault::Mixed) => StepsEnd::Fault(StepFault::Mixed),
            End::Fault(RateFault::Overflow) => StepsEnd::Fault(StepFault::Overflow),
            End::Memory => StepsEnd::Memory,
        }
    }
}

impl From<End<RateOverflow>> for StepsEnd {
    ghost use Rattle.pepa_steps.specs.EndNames.{joint_end};

    ghost from_gives = { λ end other. other ≡ joint_end end };

    fn from(end: End<RateOverflow>) -> StepsEnd {
        match end {
            End::Fault(RateOverflow) => StepsEnd::Fault(StepFault::Overflow),
            End::Memory => StepsEnd::Memory,
        }
    }
}

/// The transitions of a term (Hillston 1996, chapter 3): one step for each derivation, in derivation order, with its exact rate.
///
/// The parts of the term are judged in post-order: the operands of a choice, and the body of a constant, before the whole; both
/// sides of a cooperation before it, and what is hidden before the hiding. A part has the first of these faults that it has: of
/// the least action type from 1 up whose apparent rate has one, `Mixed` or `Overflow`; `ListTooLong`, if it has more than 65,535
/// derivations; `Overflow`, if the rate of one isn't in range. `Memory` says only that memory ran out.
pub fn steps(alloc: Global, model: &Model, term: &Term) -> Result<StepList, StepsEnd>
    requires { IsTermOf model.now term.now }
    ensures { ForEachState model.now term.now (λ state. IsStepsResult model.now state result) }
{
    model.recall_invariant();
    let mut buffers = Buffers::new(alloc);
    load(alloc, model, term, &mut buffers)?;
    Ok(StepList::from_vec(steps_listed(alloc, model, term, &buffers)?))
}

/// The steps of a term whose list is in the buffers.
fn steps_listed(
    alloc: Global,
    model: &Model,
    term: &Term,
    buffers: &Buffers,
) -> Result<Vec<Step>, AllocError>
    requires { HasList model.now term.now buffers.now }
    ensures { IfOk result (λ list. (state : State) (transitions : List StateTransition)
        → StandsFor model.now state term.now → IsTransitionList model.now.bodies state transitions
        → AllZip (StepStandsFor model.now) list.items transitions) }
{
    model.recall_invariant();
    let mut list = Vec::new(alloc);
    for (index, entry) in buffers.entries().iter().enumerate() {
        list.push(Step {
            action: entry.action,
            signals: entry.signals,
            rate: entry.rate,
            target: target(alloc, model, term, buffers, index)?,
        })?;
    }
    Ok(list)
}
