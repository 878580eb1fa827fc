//! Fractions as whole numbers over their least common denominator.
ghost use Rattle.std.specs.Prelude.{◌≡◌, ◌<◌, ◌≤◌, ◌^◌, ◌++◌, map, sum_by, All, MatchOption, OnErr, OnOk};
ghost use Rattle.pepa_rates.specs.Fraction.{IsProper};
ghost use Rattle.pepa_rates.specs.Weights.{common_den, weight_of, weights_of, IsScaleOf, IsWeightsOf};

use crate::frac::{Frac, common_divisor};
use crate::weight_list::{Scale, WeightFault, Weights};
use sqlite_items::Items;
use std::alloc::{AllocError, Global};

// The denominator and the sum of the weights are below this.
const WHOLE_LIMIT: u128 = 1 << 62;

/// Each fraction as a whole number over the least common multiple of all denominators, and their sum.
///
/// The denominator is 1 for an empty list.
pub fn weights(alloc: Global, rates: &[Frac]) -> Result<Weights, WeightFault>
    ensures { IsWeightsOf rates.now result }
{
    let mut each = Vec::new(alloc);
    let scale = push_weights(rates, &mut each)?;
    Ok(Weights {
        each: Items::from_vec(each),
        whole: scale.whole,
        den: scale.den,
    })
}

/// Appends each fraction as a whole number over the least common multiple of all denominators, and answers this and their sum.
///
/// It is `weights` for a buffer that is kept. After an `Err` the buffer is as before.
pub fn push_weights(rates: &[Frac], to: &mut Vec<u64>) -> Result<Scale, WeightFault>
    ensures scale { IsScaleOf rates.now result }
    ensures each { OnOk result (to.new.items ≡ to.old.items ++ weights_of rates.now) }
    ensures kept { OnErr result (to.new.items ≡ to.old.items) }
{
    let Some(den) = least_common_den(rates) else {
        return Err(WeightFault::Overflow);
    };
    let Some(whole) = whole_weight(rates, den) else {
        return Err(WeightFault::Overflow);
    };
    let Ok(()) = push_each(rates, den, to) else {
        return Err(WeightFault::Memory);
    };
    Ok(Scale { whole, den })
}

// A least common multiple only grows with more denominators, so one that is too large is refused at once. No product
// here passes 2^104.
fn least_common_den(rates: &[Frac]) -> Option<u64>
    ensures { MatchOption result (2 ^ 62 ≤ common_den rates.now) (λ den. (den ≡ common_den rates.now) × (den < 2 ^ 62)) }
{
    all_valid(rates);
    let mut common: u128 = 1;
    for q in rates {
        let part = u128::from(q.den);
        common = common * part / common_divisor(common, part);
        if common >= WHOLE_LIMIT {
            return None;
        }
    }
    Some(common as u64)
}

fn whole_weight(rates: &[Frac], den: u64) -> Option<u64>
    requires { den < 2 ^ 62 }
    ensures { let exact = sum_by (weight_of den) rates.now
        in MatchOption result (2 ^ 62 ≤ exact) (λ whole. (whole ≡ exact) × (whole < 2 ^ 62)) }
{
    let mut whole: u128 = 0;
    for q in rates {
        whole += weight(q, den);
        if whole >= WHOLE_LIMIT {
            return None;
        }
    }
    Some(whole as u64)
}

fn push_each(rates: &[Frac], den: u64, to: &mut Vec<u64>) -> Result<(), AllocError>
    requires limit { den < 2 ^ 62 }
    requires whole { sum_by (weight_of den) rates.now < 2 ^ 62 }
    ensures each { OnOk result (to.new.items ≡ to.old.items ++ map (weight_of den) rates.now) }
    ensures kept { OnErr result (to.new.items ≡ to.old.items) }
{
    let before = to.len();
    for q in rates {
        let Ok(()) = to.push(weight(q, den) as u64) else {
            to.truncate(before);
            return Err(AllocError);
        };
    }
    Ok(())
}

fn weight(q: &Frac, den: u64) -> u128
    requires { den < 2 ^ 62 }
    ensures value { result ≡ weight_of den q.now }
    ensures limit { result < 2 ^ 104 }
{
    q.valid();
    u128::from(q.num) * u128::from(den) / u128::from(q.den)
}

// Costs nothing, and tells a proof what every fraction of a list keeps.
fn all_valid(rates: &[Frac])
    ensures { All IsProper rates.now }
{
    for q in rates {
        q.valid();
    }
}
