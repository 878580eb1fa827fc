//! A fair choice below a bound, by rejection.

ghost use Rattle.std.specs.Prelude.{◌≡◌, ◌+◌, ◌-◌, ◌^◌, ◌<◌, ◌≤◌, IfOk, MatchResult, OnErr};
ghost use Rattle.sim_draws.specs.Numbers.{next_numbers};
ghost use Rattle.sim_draws.specs.FairDraw.{IsDrawBelow, NoDrawBelow, fair_limit};

use crate::numbers::{DrawLimit, Numbers};

const MOST_NUMBERS: u64 = 64;

/// A number below `bound`, each as often as any other: the first number below the greatest multiple of the bound that is
/// at most 2^64, modulo the bound.
///
/// A draw that isn't decided by 64 numbers is refused, and they are then taken.
pub fn below<N: Numbers>(from: &mut N, bound: u64) -> Result<u64, DrawLimit>
    requires positive { 0 < bound }
    requires range { bound < 2 ^ 62 }
    requires room { N.place from.old + 64 ≤ 2 ^ 63 }
    ensures draw { let xs = next_numbers (N.at from.old) (N.place from.old) 64 in
        MatchResult result
        (λ draw. IsDrawBelow xs bound draw (N.place from.new - N.place from.old))
        (λ _. NoDrawBelow xs bound) }
    ensures small { IfOk result (λ draw. draw < bound) }
    ensures forward { N.place from.old ≤ N.place from.new }
    ensures within { N.place from.new ≤ N.place from.old + 64 }
    ensures spent { OnErr result (N.place from.new ≡ N.place from.old + 64) }
    ensures same { N.at from.new ≡ N.at from.old }
{
    let last = last_fair(bound);
    for _taken in 0..MOST_NUMBERS {
        let number = from.number();
        if number <= last {
            return Ok(number % bound);
        }
    }
    Err(DrawLimit)
}

// The greatest number below the limit, which may be 2^64 itself.
fn last_fair(bound: u64) -> u64
    requires positive { 0 < bound }
    requires range { bound < 2 ^ 62 }
    ensures { result + 1 ≡ fair_limit bound }
{
    u64::MAX - (u64::MAX % bound + 1) % bound
}
