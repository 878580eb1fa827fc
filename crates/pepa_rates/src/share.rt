//! The lesser of two rates, and shares of a rate.
ghost use Rattle.std.specs.Prelude.{◌≡◌, ◌<◌, ◌*◌, ◌↔◌, IsTrue, MatchResult};
ghost use Rattle.pepa_rates.specs.Fraction.{reduced, InRange};
ghost use Rattle.pepa_rates.specs.Sum.{fraction_of};
ghost use Rattle.pepa_rates.specs.Share.{lesser_of, least_of, SameKind, with_fraction, share_of, IsRateInRange, IsInOrder};

use crate::frac::{Frac, RateOverflow};
use crate::rate::Rate;

impl Rate {
    /// The lesser of two rates; the first where they are equal.
    ///
    /// Every active rate is below every passive one, and two of one kind compare as numbers.
    pub fn least(&self, other: &Rate) -> Rate
        ensures { result ≡ least_of self.now other.now }
    {
        match (self, other) {
            (Rate::Active(p), Rate::Active(q)) => Rate::Active(lesser(p, q)),
            (Rate::Passive(p), Rate::Passive(q)) => Rate::Passive(lesser(p, q)),
            (Rate::Active(p), Rate::Passive(_)) | (Rate::Passive(_), Rate::Active(p)) => {
                Rate::Active(*p)
            }
        }
    }

    /// The rate of an activity that two components perform together: `r1` and `r2` are their activities' rates, and
    /// `ra` and `rb` the apparent rates of their action.
    ///
    /// The exact value of `(r1/ra) * (r2/rb) * least(ra, rb)`, in lowest terms and of the kind of `least(ra, rb)`.
    pub fn share(r1: &Rate, ra: &Rate, r2: &Rate, rb: &Rate) -> Result<Rate, RateOverflow>
        requires first { SameKind r1.now ra.now }
        requires second { SameKind r2.now rb.now }
        ensures { IsRateInRange (share_of r1.now ra.now r2.now rb.now) result }
    {
        r1.valid();
        ra.valid();
        r2.valid();
        rb.valid();
        // The lesser apparent rate cancels: it is divided by, and multiplied with.
        let (least, other) = ordered(ra, rb);
        let Ok(share) = exact_share(r1.fraction(), r2.fraction(), other.fraction()) else {
            return Err(RateOverflow);
        };
        Ok(least.with_fraction(share))
    }

    fn with_fraction(&self, fraction: Frac) -> Rate
        ensures { result ≡ with_fraction self.now fraction }
    {
        match self {
            Rate::Active(_) => Rate::Active(fraction),
            Rate::Passive(_) => Rate::Passive(fraction),
        }
    }

    fn fraction(&self) -> &Frac
        ensures { result.now ≡ fraction_of self.now }
    {
        match self {
            Rate::Active(fraction) | Rate::Passive(fraction) => fraction,
        }
    }
}

// The lesser of two rates, and the other one.
fn ordered(a: &Rate, b: &Rate) -> (Rate, Rate)
    ensures { IsInOrder a.now b.now result.0 result.1 }
{
    let least = a.least(b);
    if least == *a {
        (least, *b)
    } else {
        (least, *a)
    }
}

fn lesser(p: &Frac, q: &Frac) -> Frac
    ensures { result ≡ lesser_of p.now q.now }
{
    if is_less(q, p) { *q } else { *p }
}

fn is_less(p: &Frac, q: &Frac) -> bool
    ensures { IsTrue result ↔ (p.now.num * q.now.den < q.now.num * p.now.den) }
{
    p.valid();
    q.valid();
    u128::from(p.num) * u128::from(q.den) < u128::from(q.num) * u128::from(p.den)
}

// p * q / r. No product here passes 2^126, since each factor is below 2^42.
fn exact_share(p: &Frac, q: &Frac, r: &Frac) -> Result<Frac, RateOverflow>
    ensures { let exact = reduced (p.now.num * q.now.num * r.now.den) (p.now.den * q.now.den * r.now.num)
        in MatchResult result (λ share. (share ≡ exact) × InRange exact) (λ _. ¬ InRange exact) }
{
    p.valid();
    q.valid();
    r.valid();
    let num = u128::from(p.num) * u128::from(q.num) * u128::from(r.den);
    let den = u128::from(p.den) * u128::from(q.den) * u128::from(r.num);
    let share = Frac::make(num, den)?;
    share.valid();
    Ok(share)
}
