//! What `probe` says of a model.
ghost use Rattle.std.specs.Prelude.{◌≡◌, IfOk};
ghost use Rattle.sim_report.specs.ProbeText.{probe_text_of};

use crate::counts::push_count;
use crate::probe_ask::ProbeAsk;
use pepa_model::Model;
use pepa_text::push_text;
use sim_outside::Bytes;
use std::alloc::{AllocError, Global};

/// What is answered of a model's probes. No model has a probe yet: of all its probes there is no line, and for the events of one
/// there is the line `no probe NUMBER`.
///
/// Its only error is want of memory.
pub fn probe_text(alloc: Global, _model: &Model, ask: &ProbeAsk) -> Result<Bytes, AllocError>
    ensures { IfOk result (λ text. text ≡ probe_text_of ask.now) }
{
    let mut text = Vec::new(alloc);
    if let ProbeAsk::Events { number, .. } = ask {
        push_count(alloc, &mut text, b"no probe ", u64::from(*number))?;
        push_text(&mut text, b"\n")?;
    }
    Ok(Bytes::from_vec(text))
}
