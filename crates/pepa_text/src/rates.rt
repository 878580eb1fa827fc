//! The text of rates.
ghost use Rattle.std.specs.Prelude.{◌≡◌, ◌++◌, OnOk, OnErr};
ghost use Rattle.std.specs.Io.{StartsWith};
ghost use Rattle.pepa_text.specs.RateText.{fraction_text, rate_text, weight_text};

use crate::text::push_text;
use pepa_rates::{Frac, Rate};
use sim_outside::push_decimal;
use std::alloc::{AllocError, Global};

/// Appends a rate: `3/2` for an active one, and `infty` or `2*infty` for a passive one.
pub fn push_rate(alloc: Global, to: &mut Vec<u8>, rate: &Rate) -> Result<(), AllocError>
    ensures text { OnOk result (to.new.items ≡ to.old.items ++ rate_text rate.now) }
    ensures kept { OnErr result (StartsWith to.new.items to.old.items) }
{
    match rate {
        Rate::Active(value) => push_fraction(alloc, to, value),
        Rate::Passive(weight) => push_weight(alloc, to, weight),
    }
}

/// Appends a multiple of `infty`.
fn push_weight(alloc: Global, to: &mut Vec<u8>, weight: &Frac) -> Result<(), AllocError>
    ensures text { OnOk result (to.new.items ≡ to.old.items ++ weight_text weight.now) }
    ensures kept { OnErr result (StartsWith to.new.items to.old.items) }
{
    if weight.num == 1 && weight.den == 1 {
        return push_text(to, b"infty");
    }
    push_fraction(alloc, to, weight)?;
    push_text(to, b"*infty")
}

/// Appends a fraction, without its denominator where that is 1.
fn push_fraction(alloc: Global, to: &mut Vec<u8>, value: &Frac) -> Result<(), AllocError>
    ensures text { OnOk result (to.new.items ≡ to.old.items ++ fraction_text value.now) }
    ensures kept { OnErr result (StartsWith to.new.items to.old.items) }
{
    push_decimal(alloc, to, u128::from(value.num))?;
    if value.den == 1 {
        return Ok(());
    }
    push_text(to, b"/")?;
    push_decimal(alloc, to, u128::from(value.den))
}
