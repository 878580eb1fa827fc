//! The answers of `check`, `print` and `probe` for a model.
ghost use Rattle.std.specs.Prelude.{IfOk};
ghost use Rattle.sim_report.specs.ProbeText.{probe_text_of};
ghost use Rattle.sim_command.specs.AnswerForms.{IsFineAnswer};
ghost use Rattle.sim_command.specs.ModelAnswers.{IsCheckAnswer, IsPrintAnswer};

use crate::answered::{Answered, fine};
use pepa_model::Model;
use pepa_printer::print_model;
use sim_report::{ProbeAsk, check_text, probe_text};
use std::alloc::{AllocError, Global};

/// The answer of `check` for a model: its counts.
pub(crate) fn check_answer(alloc: Global, model: &Model) -> Result<Answered, AllocError>
    ensures { IfOk result (IsCheckAnswer model.now) }
{
    let text = check_text(alloc, model)?;
    Ok(fine(text))
}

/// The answer of `print` for a model: its text.
pub(crate) fn print_answer(alloc: Global, model: &Model) -> Result<Answered, AllocError>
    ensures { IfOk result (IsPrintAnswer model.now) }
{
    let text = print_model(alloc, model)?;
    Ok(fine(text))
}

/// The answer of `probe` for a model: what is asked of its probes.
pub(crate) fn probe_answer(
    alloc: Global,
    model: &Model,
    ask: &ProbeAsk,
) -> Result<Answered, AllocError>
    ensures { IfOk result (λ answered. IsFineAnswer answered (probe_text_of ask.now)) }
{
    let text = probe_text(alloc, model, ask)?;
    Ok(fine(text))
}
