//! Rates of activities and their sums.
ghost use Rattle.std.specs.Prelude.{◌≡◌, MatchResult};
ghost use Rattle.pepa_rates.specs.Fraction.{InRange, IsProper};
ghost use Rattle.pepa_rates.specs.Sum.{sum_of, fraction_of, IsSumOf};

use crate::frac::Frac;

/// The rate of an activity: active, in activities per time unit, or passive, with a weight.
#[derive(Clone, Copy, Debug, PartialEq, Eq, Hash)]
pub enum Rate {
    Active(Frac),
    Passive(Frac),
}

/// Why two rates have no sum within the range.
#[derive(Clone, Copy, Debug, PartialEq, Eq)]
pub enum RateFault {
    /// One rate is active and the other passive.
    Mixed,
    /// The exact sum in lowest terms is out of range.
    Overflow,
}

impl Rate {
    /// The exact sum of two rates of one kind, in lowest terms.
    pub fn add(&self, other: &Rate) -> Result<Rate, RateFault>
        ensures { IsSumOf self.now other.now result }
    {
        match (self, other) {
            (Rate::Active(p), Rate::Active(q)) => Ok(Rate::Active(exact_sum(p, q)?)),
            (Rate::Passive(p), Rate::Passive(q)) => Ok(Rate::Passive(exact_sum(p, q)?)),
            (Rate::Active(_), Rate::Passive(_)) | (Rate::Passive(_), Rate::Active(_)) => {
                Err(RateFault::Mixed)
            }
        }
    }

    /// Costs nothing, and tells a proof what every rate keeps.
    pub fn valid(&self)
        ensures { IsProper (fraction_of self.now) }
    {
        match self {
            Rate::Active(fraction) | Rate::Passive(fraction) => fraction.valid(),
        }
    }
}

// No product here passes 2^84, since each factor is below 2^42.
fn exact_sum(p: &Frac, q: &Frac) -> Result<Frac, RateFault>
    ensures { MatchResult result (λ sum. (sum ≡ sum_of p.now q.now) × InRange (sum_of p.now q.now)) (λ e. (e ≡ RateFault.Overflow) × ¬ InRange (sum_of p.now q.now)) }
{
    let p_den = u128::from(p.den);
    let q_den = u128::from(q.den);
    let num = u128::from(p.num) * q_den + u128::from(q.num) * p_den;
    let sum = Frac::make(num, p_den * q_den).map_err(|_| RateFault::Overflow)?;
    sum.valid();
    Ok(sum)
}
