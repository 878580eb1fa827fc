//! The answer of `run` for a model.
ghost use Rattle.std.specs.Prelude.{◌≤◌, All, length, IfOk};
ghost use Rattle.sim_replication.specs.Orders.{IsOrderInRange};
ghost use Rattle.sim_command.specs.RunAnswers.{IsReportOf, IsRunAnswer};

use crate::answered::{Answered, fine, refusal};
use pepa_model::Model;
use sim_histograms::summary;
use sim_replication::{Order, Outcome, Ran};
use sim_report::{Fault, report};
use sim_workers::laws::can_be_summed_up;
use sim_workers::run_alone;
use std::alloc::{AllocError, Global};

/// The answer of `run` for a model: the report of all replications, or the first that stops.
pub(crate) fn run_answer(
    alloc: Global,
    model: &Model,
    order: &Order,
) -> Result<Answered, AllocError>
    requires { IsOrderInRange order.now }
    ensures { IfOk result (IsRunAnswer model.now order.now) }
{
    can_be_summed_up();
    let outcome = run_alone(alloc, model, order)?;
    match outcome {
        Outcome::Finished(rans) => report_answer(alloc, rans.as_slice(), order),
        Outcome::Stopped { number, stop } => {
            Ok(refusal(alloc, 6, &Fault::RunStopped { number, stop }))
        }
    }
}

/// The answer for replications that all ended: the report of their summary.
fn report_answer(alloc: Global, rans: &[Ran], order: &Order) -> Result<Answered, AllocError>
    requires range { IsOrderInRange order.now }
    requires runs { length rans.now ≤ order.now.runs }
    requires passages { All (λ r. length r.passages ≤ order.now.passages) rans.now }
    ensures { IfOk result (IsReportOf order.now rans.now) }
{
    let summary = summary(alloc, rans, order)?;
    let text = report(alloc, &summary)?;
    Ok(fine(text))
}
