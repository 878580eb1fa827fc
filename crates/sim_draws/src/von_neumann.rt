//! The exponential draw, after von Neumann.

ghost use Rattle.std.specs.Prelude.{◌≡◌, ◌+◌, ◌-◌, ◌*◌, ◌^◌, ◌<◌, ◌≤◌, IfOk, IfSome, MatchOption, MatchResult, OnErr};
ghost use Rattle.sim_draws.specs.Numbers.{next_numbers};
ghost use Rattle.sim_draws.specs.ExponentialDraw.{run_length, IsExponentialDraw, NoExponentialDraw};

use crate::numbers::{DrawLimit, Numbers};

const MOST_NUMBERS: u64 = 256;

// A whole round: its first number, and the length of its run.
#[derive(Clone, Copy)]
struct Round {
    first: u64,
    run: u64,
}

/// A draw of the exponential distribution with rate 1, in units of 2^-32.
///
/// A round takes numbers up to the first that isn't below the one before it; those before that one are its run. The draw
/// is that of the first round whose run has odd length: so many whole units as there are rounds before it, and the high
/// half of the round's first number. A draw that isn't decided by 256 numbers is refused, and they are then taken.
pub fn exponential<N: Numbers>(from: &mut N) -> Result<u64, DrawLimit>
    requires { N.place from.old + 256 ≤ 2 ^ 63 }
    ensures draw { let xs = next_numbers (N.at from.old) (N.place from.old) 256 in
        MatchResult result
        (λ draw. IsExponentialDraw xs draw (N.place from.new - N.place from.old))
        (λ _. NoExponentialDraw xs) }
    // A round without a draw takes three numbers or more.
    ensures small { IfOk result (λ draw. draw < 85 * 2 ^ 32) }
    ensures forward { N.place from.old ≤ N.place from.new }
    ensures within { N.place from.new ≤ N.place from.old + 256 }
    ensures spent { OnErr result (N.place from.new ≡ N.place from.old + 256) }
    ensures same { N.at from.new ≡ N.at from.old }
{
    let mut left = MOST_NUMBERS;
    let mut rounds: u64 = 0;
    while left > 0 {
        let Some(round) = one_round(from, left) else {
            return Err(DrawLimit);
        };
        if round.run % 2 == 1 {
            return Ok((rounds << 32) + (round.first >> 32));
        }
        left -= round.run + 1;
        rounds += 1;
    }
    Err(DrawLimit)
}

// One round, of at most so many numbers; none where they don't end it.
fn one_round<N: Numbers>(from: &mut N, most: u64) -> Option<Round>
    requires some { 0 < most }
    requires room { N.place from.old + most ≤ 2 ^ 63 }
    ensures run { let xs = next_numbers (N.at from.old) (N.place from.old) most in
        MatchOption result (run_length xs ≡ most)
        (λ round. (round.run ≡ run_length xs) × (run_length xs < most)
        × (round.first ≡ N.at from.old (N.place from.old))) }
    ensures spent { MatchOption result (N.place from.new ≡ N.place from.old + most)
        (λ round. N.place from.new ≡ N.place from.old + round.run + 1) }
    ensures range { IfSome result (λ round. (0 < round.run) × (round.first < 2 ^ 64)) }
    ensures same { N.at from.new ≡ N.at from.old }
{
    let first = from.number();
    let mut previous = first;
    for run in 1..most {
        let next = from.number();
        if next >= previous {
            return Some(Round { first, run });
        }
        previous = next;
    }
    None
}
