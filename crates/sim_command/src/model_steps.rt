//! The answer of `steps` for a model.
ghost use Rattle.std.specs.Prelude.{◌≡◌, IfOk};
ghost use Rattle.sim_command.specs.FirstSteps.{step_rates, AreFirstSteps};
ghost use Rattle.sim_command.specs.ModelAnswers.{IsStepsAnswer};

use crate::answered::{Answered, refusal};
use pepa_model::{Model, Step};
use pepa_rates::Rate;
use pepa_steps::{StepsEnd, steps};
use probe_attach::attach;
use sim_report::{Fault, Line, steps_text};
use sim_space::{ChoiceEnd, Stop, choice_weights};
use sqlite_items::Items;
use std::alloc::{AllocError, Global};

/// The answer of `steps` for a model: the transitions of its first state, or why there are none.
pub(crate) fn steps_answer(alloc: Global, model: &Model) -> Result<Answered, AllocError>
    ensures { IfOk result (IsStepsAnswer model.now) }
{
    model.recall_invariant();
    let term = attach(alloc, model)?;
    match steps(alloc, model, &term) {
        Ok(list) => list_answer(alloc, model, list.as_slice()),
        Err(StepsEnd::Fault(fault)) => {
            let stop = Stop::from(fault);
            Ok(refusal(alloc, 6, &Fault::StepsStopped { stop }))
        }
        Err(StepsEnd::Memory) => Err(AllocError),
    }
}

/// The answer for the steps of the first state, none of whose parts has a fault.
fn list_answer(alloc: Global, model: &Model, list: &[Step]) -> Result<Answered, AllocError>
    requires { AreFirstSteps model.now list.now }
    ensures { IfOk result (IsStepsAnswer model.now) }
{
    model.recall_invariant();
    let rates = rates_of(alloc, list)?;
    match choice_weights(alloc, rates.as_slice()) {
        Ok(_) => Ok(Answered {
            status: 0,
            out: steps_text(alloc, model, list)?,
            line: Line::empty(),
        }),
        Err(ChoiceEnd::Stop(stop)) => Ok(refusal(alloc, 6, &Fault::StepsStopped { stop })),
        Err(ChoiceEnd::Memory) => Err(AllocError),
    }
}

/// The rates of steps, in their order.
fn rates_of(alloc: Global, steps: &[Step]) -> Result<Items<Rate>, AllocError>
    ensures { IfOk result (λ rates. rates ≡ step_rates steps.now) }
{
    let mut rates = Items::new(alloc);
    for step in steps {
        rates.push(step.rate)?;
    }
    Ok(rates)
}
