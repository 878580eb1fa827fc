//! The text of a time.
ghost use Rattle.std.specs.Prelude.{◌≡◌, ◌*◌, ◌/◌, ◌%◌, ◌^◌, ◌++◌, OnOk, OnErr};
ghost use Rattle.sim_outside.specs.TicksText.{ticks_text};

use std::alloc::{AllocError, Global};

/// Appends a time in ticks, of 2^-32 time units each: the whole time units, a point, and six digits, rounded down.
///
/// At want of memory `to` is as before.
pub fn push_ticks(alloc: Global, to: &mut Vec<u8>, ticks: u64) -> Result<(), AllocError>
    ensures ok { OnOk result (to.new.items ≡ to.old.items ++ ticks_text ticks) }
    ensures err { OnErr result (to.new.items ≡ to.old.items) }
{
    let text = format!(in alloc; "{}.{:06}", whole_units(ticks), millionths(ticks))?;
    to.extend_from_slice(text.as_bytes())
}

/// The whole time units of a time.
fn whole_units(ticks: u64) -> u64
    ensures { result ≡ ticks / 2 ^ 32 }
{
    ticks >> 32
}

/// The millionths of a time unit that are left beside the whole ones.
fn millionths(ticks: u64) -> u64
    ensures { result ≡ ticks % 2 ^ 32 * 10 ^ 6 / 2 ^ 32 }
{
    (ticks % (1 << 32) * 1_000_000) >> 32
}
