//! Positive fractions in lowest terms.
ghost use Rattle.std.specs.Prelude.{◌≡◌, ◌<◌, MatchResult};
ghost use Rattle.pepa_rates.specs.Fraction.{gcd, reduced, InRange};

use std::marker::Model;

/// A positive fraction in lowest terms, with numerator and denominator from 1 to 2^42 - 1.
///
/// Contracts see it as its two numbers.
#[derive(Clone, Copy, Debug, PartialEq, Eq, Hash)]
pub struct Frac {
    pub num: u64,
    pub den: u64,
}

impl Model for Frac {
    ghost use Rattle.pepa_rates.specs.Fraction.{Fraction, IsProper};

    ghost Value = { Fraction };

    ghost view = { λ f. record { num = f.num; den = f.den } };

    ghost invariant = { λ f. IsProper (record { num = f.num; den = f.den }) };

    ghost inverse = { λ q. record { num = q.num; den = q.den } };
}

impl Frac {
    ghost use Rattle.pepa_rates.specs.Fraction.{IsProper};

    /// The value n/d in lowest terms, unless its numerator or its denominator is 2^42 or more.
    pub fn make(n: u128, d: u128) -> Result<Frac, RateOverflow>
        requires numerator { 0 < n }
        requires denominator { 0 < d }
        ensures { MatchResult result (λ q. q ≡ reduced n d) (λ _. ¬ InRange (reduced n d)) }
    {
        let divisor = common_divisor(n, d);
        let num = n / divisor;
        let den = d / divisor;
        if num >= PART_LIMIT || den >= PART_LIMIT {
            return Err(RateOverflow);
        }
        Ok(Frac {
            num: num as u64,
            den: den as u64,
        })
    }

    /// Costs nothing, and tells a proof what every fraction keeps.
    pub fn valid(&self)
        ensures { IsProper self.now }
    {
        let _ = &self.num;
    }
}

/// A value in lowest terms has a numerator or a denominator of 2^42 or more.
#[derive(Clone, Copy, Debug, PartialEq, Eq)]
pub struct RateOverflow;

// Numerators and denominators are below this.
const PART_LIMIT: u128 = 1 << 42;

// The greatest common divisor, by Euclid's algorithm.
pub(crate) fn common_divisor(a: u128, b: u128) -> u128
    ensures { result ≡ gcd a b }
{
    let mut x = a;
    let mut y = b;
    while y != 0 {
        let rest = x % y;
        x = y;
        y = rest;
    }
    x
}
