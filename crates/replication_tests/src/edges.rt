//! Replications whose numbers are listed, and so chosen: the limits of draws and of times, and the order of what is looked at.

use crate::orders::{Wanted, ends_as, order_of, visits};
use Wanted::{Ended, Stopped};
use number_space::NumberSpace;
use pepa_model::Model;
use sim_draws::Listed;
use sim_replication::Ending::{Done, JumpLimit};
use sim_replication::replicate_over;
use sim_space::Halt;
use sim_space::Stop::{DrawLimit, PassiveLeft, TimeOverflow};
use small_models::model_of;
use std::alloc::{AllocError, Global};
use std::test::Fail;

/// Listed numbers: first so many rounds of a draw that don't decide it, of three numbers each; then these, where the first of two
/// equal ones is a draw, and its high half the time in ticks at a rate of 1; then so often the greatest number, which no draw below 3
/// takes. Zeros follow.
type Drawn = (usize, &'static [u64], usize);

/// A text and numbers; the passages and the jumps that are ordered; how it ends, how many numbers it takes, and the leaves that
/// it visits.
type Row = (&'static str, Drawn, (u64, u64), Wanted, u64, &'static [u32]);

const FAST: &str = "P = (a,1).P; P";

const SLOW: &str = "P = (a,1/4294967296).P; P";

const SLOW_TWO: &str = "P = (a,1/4294967296).P + (b,1/2147483648).P; P";

const SLOW_FIRST: &str = "P = (a,1/4294967296).Q; Q = (b,1).Q + (c,2).Q; P";

const BRANCHES: &str = "P = (a,1).Q + (b,2).R; Q = (c,1).Q; R = (d,1).R; P";

const PASSIVE: &str = "P = (a,infty).P; P";

/// Draws of 1, 2^31 - 1, 2^31 and 2^32 - 1.
const ONE: u64 = 1 << 32;

const BELOW_HALF: u64 = (1 << 63) - (1 << 32);

const HALF: u64 = 1 << 63;

const BELOW_ALL: u64 = u64::MAX - ((1 << 32) - 1);

const ROWS: &[Row] = &[
    // Passages go before jumps, and jumps before the verdict.
    (PASSIVE, (0, &[], 0), (0, 0), Ended(Done), 0, &[0]),
    (PASSIVE, (0, &[], 0), (1, 0), Ended(JumpLimit), 0, &[0]),
    (PASSIVE, (0, &[], 0), (1, 1), Stopped(PassiveLeft), 0, &[0]),
    // The first transition whose weight, added to those before it, is above the number.
    (
        BRANCHES,
        (0, &[5, 5, 0], 0),
        (1, 1),
        Ended(JumpLimit),
        3,
        &[0, 1],
    ),
    (
        BRANCHES,
        (0, &[5, 5, 1], 0),
        (1, 1),
        Ended(JumpLimit),
        3,
        &[0, 2],
    ),
    (
        BRANCHES,
        (0, &[5, 5, 2], 0),
        (1, 1),
        Ended(JumpLimit),
        3,
        &[0, 2],
    ),
    (
        BRANCHES,
        (0, &[5, 5, 3], 0),
        (1, 1),
        Ended(JumpLimit),
        3,
        &[0, 1],
    ),
    // A time below 2^63 ticks, and one of 2^63.
    (
        SLOW,
        (0, &[BELOW_HALF, BELOW_HALF, 0], 0),
        (1, 1),
        Ended(JumpLimit),
        3,
        &[0, 0],
    ),
    (
        SLOW,
        (0, &[HALF, HALF, 0], 0),
        (1, 1),
        Stopped(TimeOverflow),
        2,
        &[0],
    ),
    (
        SLOW,
        (0, &[BELOW_HALF, BELOW_HALF, 0, 5, 5, 0], 0),
        (1, 2),
        Ended(JumpLimit),
        6,
        &[0, 0, 0],
    ),
    (
        SLOW,
        (0, &[BELOW_HALF, BELOW_HALF, 0, ONE, ONE, 0], 0),
        (1, 2),
        Stopped(TimeOverflow),
        5,
        &[0, 0],
    ),
    // A time of 2^63 - 2^32 ticks, and 2^32 - 1 and two thirds more, or 2^32.
    (
        SLOW_FIRST,
        (
            0,
            &[
                BELOW_HALF, BELOW_HALF, 0, 2, 1, 5, 2, 1, 5, BELOW_ALL, BELOW_ALL, 0,
            ],
            0,
        ),
        (1, 2),
        Ended(JumpLimit),
        12,
        &[0, 1, 1],
    ),
    (
        SLOW_FIRST,
        (
            0,
            &[
                BELOW_HALF, BELOW_HALF, 0, 2, 1, 5, 2, 1, 5, 2, 1, 5, 5, 5, 0,
            ],
            0,
        ),
        (1, 2),
        Stopped(TimeOverflow),
        14,
        &[0, 1],
    ),
    // A draw that is decided by its last number, and one that isn't decided.
    (
        FAST,
        (84, &[9, 8, 7, 7], 0),
        (1, 1),
        Ended(JumpLimit),
        257,
        &[0, 0],
    ),
    (
        FAST,
        (84, &[9, 8, 7, 6], 0),
        (1, 1),
        Stopped(DrawLimit),
        256,
        &[0],
    ),
    (FAST, (85, &[9], 0), (1, 1), Stopped(DrawLimit), 256, &[0]),
    (
        BRANCHES,
        (0, &[5, 5], 63),
        (1, 1),
        Ended(JumpLimit),
        66,
        &[0, 1],
    ),
    (
        BRANCHES,
        (0, &[5, 5], 64),
        (1, 1),
        Stopped(DrawLimit),
        66,
        &[0],
    ),
    // The time goes before the choice.
    (
        SLOW_TWO,
        (2, &[5, 5], 64),
        (1, 1),
        Stopped(TimeOverflow),
        8,
        &[0],
    ),
];

#[test]
fn replications_by_listed_numbers(rt: HostRuntime) -> Result<(), Fail> {
    for row in ROWS {
        assert!(rt; row_holds(rt.alloc(), row)?);
    }
    Ok(())
}

fn row_holds(alloc: Global, row: &Row) -> Result<bool, AllocError> {
    match model_of(alloc, row.0.as_bytes()) {
        Some(model) => goes(alloc, &model, row),
        None => Ok(false),
    }
}

fn goes(alloc: Global, model: &Model, row: &Row) -> Result<bool, AllocError> {
    let (_, drawn, (passages, jumps), wanted, taken, leaves) = row;
    if *jumps > 100 {
        return Ok(false);
    }
    let numbers = numbers_of(alloc, drawn)?;
    let mut from = Listed::make(alloc, numbers.as_slice())?;
    let mut space = NumberSpace::make(alloc, model, 100);
    let order = order_of(1, *passages, *jumps);
    let ended = replicate_over(alloc, &mut space, &mut from, &order);
    Ok(ends_as(&ended, *wanted) && from.place() == *taken && visits(space.terms(), leaves))
}

fn numbers_of(alloc: Global, drawn: &Drawn) -> Result<Vec<u64>, AllocError> {
    let (rounds, numbers, greatest) = drawn;
    let mut list = Vec::new(alloc);
    for _round in 0..*rounds {
        list.extend_from_slice(&[2, 1, 5])?;
    }
    list.extend_from_slice(numbers)?;
    for _number in 0..*greatest {
        list.push(u64::MAX)?;
    }
    Ok(list)
}

/// A space with room for too few states.
#[test]
fn a_full_space(rt: HostRuntime) -> Result<(), Fail> {
    assert!(rt; fills(rt.alloc())?);
    Ok(())
}

fn fills(alloc: Global) -> Result<bool, AllocError> {
    match model_of(alloc, FAST.as_bytes()) {
        Some(model) => Ok(
            is_full_with(alloc, &model, 0)?
                && is_full_with(alloc, &model, 3)?
                && !is_full_with(alloc, &model, 4)?,
        ),
        None => Ok(false),
    }
}

/// Whether three jumps fill a space that has room for so many states.
fn is_full_with(alloc: Global, model: &Model, room: u32) -> Result<bool, AllocError> {
    let mut from = Listed::make(alloc, &[])?;
    let mut space = NumberSpace::make(alloc, model, room);
    let order = order_of(1, 1, 3);
    let ended = replicate_over(alloc, &mut space, &mut from, &order);
    Ok(matches!(ended, Err(Halt::Full)))
}
