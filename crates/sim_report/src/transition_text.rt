//! The text of transitions.
ghost use Rattle.std.specs.Prelude.{◌≡◌, ◌++◌, IfOk, OnOk};
ghost use Rattle.sim_report.specs.TransitionsText.{IsTextOfSteps};
ghost use Rattle.sim_report.specs.StepsText.{CanPrint, CanPrintStep, step_text};

use pepa_model::{Model, Step};
use pepa_text::{push_action, push_rate, push_term, push_text};
use sim_outside::Bytes;
use std::alloc::{AllocError, Global};

/// The text of transitions, a line for each: the action type, the rate, and the target. Its only error is want of memory.
pub fn steps_text(alloc: Global, model: &Model, steps: &[Step]) -> Result<Bytes, AllocError>
    requires { CanPrint model.now steps.now }
    ensures { IfOk result (IsTextOfSteps model.now steps.now) }
{
    let mut text = Vec::new(alloc);
    for step in steps {
        push_step(alloc, &mut text, model, step)?;
    }
    Ok(Bytes::from_vec(text))
}

/// Appends the line of a transition.
fn push_step(alloc: Global, to: &mut Vec<u8>, model: &Model, step: &Step) -> Result<(), AllocError>
    requires { CanPrintStep model.now step.now }
    ensures { OnOk result (to.new.items ≡ to.old.items ++ step_text model.now step.now) }
{
    push_action(to, model, step.action)?;
    push_text(to, b" ")?;
    push_rate(alloc, to, &step.rate)?;
    push_text(to, b" ")?;
    push_term(alloc, to, model, &step.target)?;
    push_text(to, b"\n")
}
