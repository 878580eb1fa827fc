//! What numbers are drawn from, and the refusal of a draw.

ghost use Rattle.std.specs.Prelude.{◌≡◌, ℕ, ◌+◌, ◌^◌, ◌<◌};

use thiserror::Error;

/// Numbers below 2^64, one at each place, that are taken one after the other.
pub trait Numbers {
    // The number at a place.
    ghost at: { Self → ℕ → ℕ };

    // The place of the next number, from 0.
    ghost place: { Self → ℕ };

    /// The number at the place, which moves on by one.
    fn number(&mut self) -> u64
        requires { place self.old < 2 ^ 63 }
        ensures value { result ≡ at self.old (place self.old) }
        ensures moves { place self.new ≡ place self.old + 1 }
        ensures same { at self.new ≡ at self.old };
}

/// The numbers that a draw may take don't decide it.
#[derive(Clone, Copy, Debug, PartialEq, Eq, Error)]
#[error("the numbers that a draw may take don't decide it")]
pub struct DrawLimit;
