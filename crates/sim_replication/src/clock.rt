//! The time of a replication.
ghost use Rattle.std.specs.Prelude.{◌≡◌, ◌+◌, ◌*◌, ◌/◌, ◌^◌, ◌<◌, ◌≤◌, MatchOption};

/// The time after an exponential draw, in ticks, where it is below 2^63: the draw times the denominator of the weights over
/// their sum, rounded down, after the time before.
pub(crate) fn advance(time: u64, draw: u64, den: u64, whole: u64) -> Option<u64>
    requires time { time < 2 ^ 63 }
    requires draw { draw < 85 * 2 ^ 32 }
    requires den { den < 2 ^ 62 }
    requires whole { 0 < whole }
    ensures { MatchOption result (2 ^ 63 ≤ time + draw * den / whole)
        (λ after. (after ≡ time + draw * den / whole) × (after < 2 ^ 63)) }
{
    let more = u128::from(draw) * u128::from(den) / u128::from(whole);
    let after = u128::from(time) + more;
    if after < 1 << 63 {
        Some(after as u64)
    } else {
        None
    }
}
