//! Two draws, one after the other, from any numbers.
ghost use Rattle.std.specs.Prelude.{◌+◌, ◌^◌, ◌<◌, ◌≤◌};

use sim_draws::{DrawLimit, Numbers, below, exponential};

/// An exponential draw, and then one below the bound.
pub fn draw_both<N: Numbers>(from: &mut N, bound: u64) -> Result<(u64, u64), DrawLimit>
    requires positive { 0 < bound }
    requires range { bound < 2 ^ 62 }
    requires room { N.place from.old + 320 ≤ 2 ^ 63 }
{
    let draw = exponential(from)?;
    let choice = below(from, bound)?;
    Ok((draw, choice))
}
