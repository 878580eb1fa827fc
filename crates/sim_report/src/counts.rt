//! What `check` says of a model.
ghost use Rattle.std.specs.Prelude.{◌≡◌, ◌++◌, decimal, IfOk, OnOk};
ghost use Rattle.sim_report.specs.CheckText.{IsCheckText};

use pepa_model::Model;
use probe_attach::system_leaves;
use sim_outside::{Bytes, push_decimal};
use std::alloc::{AllocError, Global};

/// The line with how many constants, action types without `tau`, probes and leaves of its system a model has.
///
/// Its only error is want of memory.
pub fn check_text(alloc: Global, model: &Model) -> Result<Bytes, AllocError>
    ensures { IfOk result (IsCheckText model.now) }
{
    model.recall_invariant();
    let constants = &model.constants;
    let actions = &model.actions;
    let leaves = system_leaves(alloc, model)?;
    let mut text = Vec::new(alloc);
    push_count(alloc, &mut text, b"ok constants ", constants.len() as u64)?;
    push_count(alloc, &mut text, b" actions ", actions.len() as u64 - 1)?;
    push_count(alloc, &mut text, b" probes 0 leaves ", u64::from(leaves))?;
    text.push(b'\n')?;
    Ok(Bytes::from_vec(text))
}

/// Appends words and a number.
pub(crate) fn push_count(
    alloc: Global,
    to: &mut Vec<u8>,
    words: &[u8],
    count: u64,
) -> Result<(), AllocError>
    ensures { OnOk result (to.new.items ≡ to.old.items ++ words.now ++ decimal count) }
{
    to.extend_from_slice(words)?;
    push_decimal(alloc, to, u128::from(count))
}
