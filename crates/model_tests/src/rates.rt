//! Exact fractions, rates and weights.

ghost use Rattle.std.specs.Prelude.{◌<◌, ◌↔◌, IsTrue};
ghost use Rattle.pepa_rates.specs.Share.{SameKind};

use pepa_rates::{Frac, Rate, RateFault, RateOverflow, WeightFault, weights};
use std::process::Abort;

// 2^42 - 1, the greatest numerator and denominator.
const MOST: u128 = 4_398_046_511_103;

#[test]
fn makes_fractions(rt: HostRuntime) {
    for (n, d, want) in [
        (6, 4, Some((3, 2))),
        (MOST + 1, 1, None),
        (MOST, 1, Some((4_398_046_511_103, 1))),
        (1, MOST + 1, None),
        (8_796_093_022_208, 2, None),
        (8_796_093_022_208, 4, Some((2_199_023_255_552, 1))),
        (7, 7, Some((1, 1))),
        (u128::MAX, u128::MAX, Some((1, 1))),
    ] {
        assert!(rt; n > 0 && d > 0);
        let made = Frac::make(n, d)
            .ok()
            .map(|fraction| (fraction.num, fraction.den));
        assert_eq!(rt; made, want, "{n}/{d}");
    }
}

#[test]
fn adds_rates(rt: HostRuntime) {
    for (a, b, want) in [
        (active(&rt, 1, 2), active(&rt, 1, 3), Ok(active(&rt, 5, 6))),
        (active(&rt, 1, 6), active(&rt, 1, 3), Ok(active(&rt, 1, 2))),
        (
            passive(&rt, 1, 1),
            passive(&rt, 2, 1),
            Ok(passive(&rt, 3, 1)),
        ),
        (active(&rt, 1, 1), passive(&rt, 1, 1), Err(RateFault::Mixed)),
        (passive(&rt, 1, 1), active(&rt, 1, 1), Err(RateFault::Mixed)),
        (
            active(&rt, MOST, 1),
            active(&rt, 1, 1),
            Err(RateFault::Overflow),
        ),
        (
            active(&rt, MOST - 1, 1),
            active(&rt, 1, 1),
            Ok(active(&rt, MOST, 1)),
        ),
        (
            active(&rt, 1, MOST),
            active(&rt, 1, MOST - 2),
            Err(RateFault::Overflow),
        ),
    ] {
        assert_eq!(rt; a.add(&b), want, "{a:?} and {b:?}");
    }
}

#[test]
fn the_lesser_rate(rt: HostRuntime) {
    for (a, b, want) in [
        (active(&rt, 3, 1), active(&rt, 2, 1), active(&rt, 2, 1)),
        (active(&rt, 1, 3), active(&rt, 1, 2), active(&rt, 1, 3)),
        (passive(&rt, 3, 2), passive(&rt, 4, 3), passive(&rt, 4, 3)),
        (
            active(&rt, MOST, 1),
            passive(&rt, 1, MOST),
            active(&rt, MOST, 1),
        ),
        (passive(&rt, 1, 2), active(&rt, 7, 1), active(&rt, 7, 1)),
    ] {
        assert_eq!(rt; a.least(&b), want, "{a:?} and {b:?}");
    }
}

#[test]
fn shares_rates(rt: HostRuntime) {
    let six = active(&rt, 6, 1);
    let one = active(&rt, 1, 1);
    let infty = passive(&rt, 1, 1);
    let infty_2 = passive(&rt, 2, 1);
    let infty_3 = passive(&rt, 3, 1);
    let infty_4 = passive(&rt, 4, 1);
    let two = active(&rt, 2, 1);
    let most = active(&rt, MOST, 1);
    for (r1, ra, r2, rb, want) in [
        // (2/2) * (3/4) * 2
        (
            two,
            two,
            active(&rt, 3, 1),
            active(&rt, 4, 1),
            Ok(active(&rt, 3, 2)),
        ),
        // (6/6) * (1/3) * 6, and from the other side
        (six, six, infty, infty_3, Ok(two)),
        (infty, infty_3, six, six, Ok(two)),
        // (6/6) * (2/3) * 6
        (six, six, infty_2, infty_3, Ok(active(&rt, 4, 1))),
        // (1/2) * (3/4) * 2
        (infty, infty_2, infty_3, infty_4, Ok(passive(&rt, 3, 4))),
        (most, most, most, most, Ok(most)),
        // 1 / ((2^42 - 1) * (2^42 - 3))
        (
            active(&rt, 1, MOST),
            one,
            active(&rt, 1, MOST - 2),
            one,
            Err(RateOverflow),
        ),
    ] {
        assert!(rt; are_alike(&r1, &ra) && are_alike(&r2, &rb));
        let found = Rate::share(&r1, &ra, &r2, &rb);
        assert_eq!(rt; found, want, "{r1:?} of {ra:?} and {r2:?} of {rb:?}");
    }
}

#[test]
fn weighs_fractions(rt: HostRuntime) {
    let most = fraction(&rt, MOST, 1);
    let tiny = fraction(&rt, 1, 1 << 20);
    let below_one = fraction(&rt, (1 << 20) - 1, 1 << 20);
    for (rates, want) in [
        (
            &[fraction(&rt, 1, 2), fraction(&rt, 1, 3)][..],
            Ok((&[3, 2][..], 5, 6)),
        ),
        (&[][..], Ok((&[][..], 0, 1))),
        (
            &[fraction(&rt, 1, 4), fraction(&rt, 5, 6)][..],
            Ok((&[3, 10][..], 13, 12)),
        ),
        (
            &[fraction(&rt, 1, MOST), fraction(&rt, 1, MOST - 2)][..],
            Err(WeightFault::Overflow),
        ),
        // (2^42 - 1) * 2^20 and 2^20 - 1 make 2^62 - 1; one more is 2^62
        (
            &[most, below_one][..],
            Ok((
                &[4_611_686_018_426_339_328, 1_048_575][..],
                4_611_686_018_427_387_903,
                1_048_576,
            )),
        ),
        (&[most, below_one, tiny][..], Err(WeightFault::Overflow)),
    ] {
        let made = weights(rt.alloc(), rates);
        let found = match &made {
            Ok(weights) => Ok((weights.each.as_slice(), weights.whole, weights.den)),
            Err(fault) => Err(*fault),
        };
        assert_eq!(rt; found, want, "{rates:?}");
    }
}

fn are_alike(a: &Rate, b: &Rate) -> bool
    ensures { IsTrue result ↔ SameKind a.now b.now }
{
    matches!(
        (a, b),
        (Rate::Active(_), Rate::Active(_)) | (Rate::Passive(_), Rate::Passive(_))
    )
}

pub(crate) fn active(rt: &impl Abort, n: u128, d: u128) -> Rate
    requires numerator { 0 < n }
    requires denominator { 0 < d }
{
    Rate::Active(fraction(rt, n, d))
}

pub(crate) fn passive(rt: &impl Abort, n: u128, d: u128) -> Rate
    requires numerator { 0 < n }
    requires denominator { 0 < d }
{
    Rate::Passive(fraction(rt, n, d))
}

fn fraction(rt: &impl Abort, n: u128, d: u128) -> Frac
    requires numerator { 0 < n }
    requires denominator { 0 < d }
{
    Frac::make(n, d).expect(rt, "in range")
}
