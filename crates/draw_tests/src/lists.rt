//! Draws from lists of numbers.

use crate::both::draw_both;
use sim_draws::{DrawLimit, Listed, Numbers, below, exponential};
use std::alloc::{AllocError, Global};
use std::process::Abort;
use std::test::Fail;

// The greatest number.
const MOST: u64 = u64::MAX;

// A unit of time.
const UNIT: u64 = 1 << 32;

#[test]
fn exponential_draws(rt: HostRuntime) -> Result<(), Fail> {
    for (numbers, want, taken) in [
        // A run of length 1.
        (&[1 << 63, 9 << 60][..], 2_147_483_648, 2),
        // A run of length 2, and one of length 1 that begins after the number that ends it.
        (
            &[9 << 60, 8 << 60, 8 << 60, 4 << 60, 5 << 60][..],
            5_368_709_120,
            5,
        ),
        // A run of length 3.
        (&[9 * UNIT, 8 * UNIT, 2 * UNIT, 3 * UNIT][..], 9, 4),
        // Of two equal numbers the second isn't below the first.
        (&[7 * UNIT, 7 * UNIT][..], 7, 2),
        // The low half of a number counts for the run, and not for the draw.
        (&[7 * UNIT + 2, 7 * UNIT + 1, 7 * UNIT, MOST][..], 7, 4),
        (&[MOST - 1, MOST][..], 4_294_967_295, 2),
        // After the end each number is 0.
        (&[5 * UNIT][..], UNIT, 5),
        (&[][..], 0, 2),
    ] {
        let mut listed = Listed::make(rt.alloc(), numbers)?;
        assert_eq!(rt; exponential(&mut listed), Ok(want), "{numbers:?}");
        assert_eq!(rt; listed.place(), taken, "{numbers:?}");
    }
    Ok(())
}

#[test]
fn exponential_draws_of_256_numbers(rt: HostRuntime) -> Result<(), Fail> {
    let alloc = rt.alloc();
    // One run that nothing ends, and one that the last number ends.
    takes_256(&rt, alloc, &falling(alloc, 256, &[])?, Err(DrawLimit))?;
    takes_256(&rt, alloc, &falling(alloc, 255, &[MOST])?, Ok(255))?;
    // 85 rounds with runs of length 2, and one more number.
    takes_256(&rt, alloc, &undecided(alloc, 255, &[2])?, Err(DrawLimit))?;
    // 84 such rounds, and one whose run of length 3 is ended by the last number.
    let last = [9 * UNIT, 8 * UNIT, 7 * UNIT, 7 * UNIT];
    let draw = 84 * UNIT + 9;
    takes_256(&rt, alloc, &undecided(alloc, 252, &last)?, Ok(draw))
}

// The draw of these numbers, which takes 256 of them.
fn takes_256(
    rt: &impl Abort,
    alloc: Global,
    numbers: &[u64],
    want: Result<u64, DrawLimit>,
) -> Result<(), Fail> {
    let mut listed = Listed::make(alloc, numbers)?;
    assert_eq!(rt; exponential(&mut listed), want);
    assert_eq!(rt; listed.place(), 256);
    Ok(())
}

// The units from `count` down to 1, and then the last numbers.
fn falling(alloc: Global, count: u64, last: &[u64]) -> Result<Vec<u64>, AllocError> {
    let mut numbers = Vec::new(alloc);
    for i in 0..count {
        numbers.push((count - i).saturating_mul(UNIT))?;
    }
    numbers.extend_from_slice(last)?;
    Ok(numbers)
}

// So many numbers of rounds whose runs have length 2, and then the last numbers.
fn undecided(alloc: Global, count: u64, last: &[u64]) -> Result<Vec<u64>, AllocError> {
    let mut numbers = Vec::new(alloc);
    for i in 0..count {
        numbers.push(if i % 3 == 0 { 2 } else { 1 })?;
    }
    numbers.extend_from_slice(last)?;
    Ok(numbers)
}

#[test]
fn draws_below_a_bound(rt: HostRuntime) -> Result<(), Fail> {
    for (numbers, bound, want, taken) in [
        (&[18_446_744_073_709_551_615, 23][..], 10, 3, 2),
        // 2^64 is 1,844,674,407,370,955,161 times 10, and 6.
        (
            &[18_446_744_073_709_551_610, 18_446_744_073_709_551_609][..],
            10,
            9,
            2,
        ),
        (&[MOST][..], 1, 0, 1),
        // A power of two divides 2^64, so no number is too large.
        (&[MOST][..], 1 << 61, 2_305_843_009_213_693_951, 1),
        // 2^64 is 3 times something, and 1.
        (&[MOST, MOST - 1][..], 3, 2, 2),
        // 2^64 is 4 times 2^62 - 1, and 4.
        (
            &[18_446_744_073_709_551_612, 18_446_744_073_709_551_611][..],
            4_611_686_018_427_387_903,
            4_611_686_018_427_387_902,
            2,
        ),
    ] {
        assert!(rt; 0 < bound && bound < 1 << 62);
        let mut listed = Listed::make(rt.alloc(), numbers)?;
        assert_eq!(rt; below(&mut listed, bound), Ok(want), "{numbers:?}");
        assert_eq!(rt; listed.place(), taken, "{numbers:?}");
    }
    Ok(())
}

#[test]
fn draws_of_64_numbers(rt: HostRuntime) -> Result<(), Fail> {
    let mut numbers = [MOST; 64];
    let mut listed = Listed::make(rt.alloc(), &numbers)?;
    assert_eq!(rt; below(&mut listed, 10), Err(DrawLimit));
    assert_eq!(rt; listed.place(), 64);
    numbers[63] = 41;
    let mut listed = Listed::make(rt.alloc(), &numbers)?;
    assert_eq!(rt; below(&mut listed, 10), Ok(1));
    assert_eq!(rt; listed.place(), 64);
    Ok(())
}

#[test]
fn draws_one_after_the_other(rt: HostRuntime) -> Result<(), Fail> {
    let mut listed = Listed::make(rt.alloc(), &[1 << 63, 9 << 60, MOST, 23, 5])?;
    assert_eq!(rt; draw_both(&mut listed, 10), Ok((2_147_483_648, 3)));
    assert_eq!(rt; listed.place(), 4);
    assert!(rt; listed.place() < 1 << 63);
    assert_eq!(rt; listed.number(), 5);
    Ok(())
}

#[test]
fn says_why_there_is_no_draw(rt: HostRuntime) -> Result<(), Fail> {
    let text = format!(in rt.alloc(); "{DrawLimit}")?;
    assert_eq!(rt;
        text.as_str(),
        "the numbers that a draw may take don't decide it"
    );
    Ok(())
}
