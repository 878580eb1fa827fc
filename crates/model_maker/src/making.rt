//! The text of a made model.
ghost use Rattle.std.specs.Prelude.{◌≡◌, ◌++◌, ◌≤◌, ◌↔◌, IfOk, IsTrue, OnOk};
ghost use Rattle.model_maker.specs.MadeModel.{IsMadeSize, joined_names, made_text};

use sim_outside::Bytes;
use std::alloc::{AllocError, Global};

/// The lines of rates, of components and of the probe.
const LINES: &[u8] = b"t = 1;
a = 4;
s = 3;
Idle = (think, t).Ready;
Ready = (ask, a).Wait;
Wait = (reply, infty).Idle;
Free = (ask, infty).Busy;
Busy = (reply, s).Free;
probe Idle :: ask:start, reply:stop;
";

/// Whether there is a made model of this size: it is from 1 to 100.
pub fn is_made_size(size: u32) -> bool
    ensures { IsTrue result ↔ IsMadeSize size }
{
    1 <= size && size <= 100
}

/// The text of the made model of a size, which is its number of users. Its only error is want of
/// memory.
pub fn make_model(alloc: Global, size: u32) -> Result<Bytes, AllocError>
    requires { IsMadeSize size }
    ensures { IfOk result (λ text. text ≡ made_text size) }
{
    let mut text = Vec::new(alloc);
    text.extend_from_slice(LINES)?;
    push_joined(&mut text, b"Idle", size)?;
    text.extend_from_slice(b" <ask,reply> (")?;
    push_joined(&mut text, b"Free", (size + 3) / 4)?;
    text.extend_from_slice(b")\n")?;
    Ok(Bytes::from_vec(text))
}

/// Appends a name so many times, with cooperations over no types between.
fn push_joined(to: &mut Vec<u8>, name: &[u8], count: u32) -> Result<(), AllocError>
    requires { 1 ≤ count }
    ensures { OnOk result (to.new.items ≡ to.old.items ++ joined_names name.now count) }
{
    to.extend_from_slice(name)?;
    for _more in 0..count - 1 {
        to.extend_from_slice(b" || ")?;
        to.extend_from_slice(name)?;
    }
    Ok(())
}
