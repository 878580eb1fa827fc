//! Replications by the numbers of streams, over both spaces.
//!
//! What is expected comes from a second program, `tests/replications.py`, which has a ChaCha and the chain of each model of its own. A time
//! shows where it goes out of range: the last rows come in pairs, of slow rates with which a replication is just in time and of
//! slightly slower ones with which it isn't.
ghost use Rattle.std.specs.Prelude.{◌≤◌, ◌^◌};

use crate::orders::{Wanted, ends_as, order_of};
use Wanted::{Ended, Stopped};
use number_space::NumberSpace;
use pepa_model::Model;
use plain_space::PlainSpace;
use sim_draws::Stream;
use sim_replication::{Ending, replicate, replicate_over};
use sim_space::Stop;
use small_models::model_of;
use std::alloc::Global;
use std::test::Fail;

/// A text, a seed, the number of a replication and the jumps that are ordered; how it ends, how many numbers it takes and how many
/// jumps.
type Row = (&'static str, u64, u64, u64, Wanted, u64, usize);

const ROWS: &[Row] = &[
    ("P = (a,1).P; P", 1, 1, 1, Ended(Ending::JumpLimit), 18, 1),
    (
        "S = (z,1).S; Q = (y,1).Q; S <z,y> Q",
        1,
        1,
        100_000,
        Ended(Ending::Deadlock),
        0,
        0,
    ),
    (
        "P = (a,infty).P; P",
        1,
        1,
        100_000,
        Stopped(Stop::PassiveLeft),
        0,
        0,
    ),
    (
        "P = (a,1).P; P",
        1,
        2,
        300,
        Ended(Ending::JumpLimit),
        1_575,
        300,
    ),
    (
        "P = (a,5).Q + (b,1/3).R; Q = (c,2).P + (d,1/7).R; R = (e,3/2).R + (f,1/5).P; P",
        1,
        1,
        1,
        Ended(Ending::JumpLimit),
        18,
        1,
    ),
    (
        "P = (a,5).Q + (b,1/3).R; Q = (c,2).P + (d,1/7).R; R = (e,3/2).R + (f,1/5).P; P",
        1,
        1,
        2,
        Ended(Ending::JumpLimit),
        21,
        2,
    ),
    (
        "P = (a,5).Q + (b,1/3).R; Q = (c,2).P + (d,1/7).R; R = (e,3/2).R + (f,1/5).P; P",
        1,
        1,
        3,
        Ended(Ending::JumpLimit),
        32,
        3,
    ),
    (
        "P = (a,5).Q + (b,1/3).R; Q = (c,2).P + (d,1/7).R; R = (e,3/2).R + (f,1/5).P; P",
        1,
        2,
        50,
        Ended(Ending::JumpLimit),
        255,
        50,
    ),
    (
        "P = (a,5).Q + (b,1/3).R; Q = (c,2).P + (d,1/7).R; R = (e,3/2).R + (f,1/5).P; P",
        3,
        77,
        1_000,
        Ended(Ending::JumpLimit),
        5_260,
        1_000,
    ),
    (
        "P = (a,3).P + (b,1/9).Q; Q = (z,1).Q; Y = (y,1).Y; P <y,z> Y",
        1,
        1,
        100_000,
        Ended(Ending::Deadlock),
        35,
        4,
    ),
    (
        "P = (a,3).P + (b,1/9).Q; Q = (z,1).Q; Y = (y,1).Y; P <y,z> Y",
        1,
        2,
        100_000,
        Ended(Ending::Deadlock),
        32,
        9,
    ),
    (
        "P = (a,3).P + (b,1/9).Q; Q = (z,1).Q; Y = (y,1).Y; P <y,z> Y",
        5,
        1_000_000,
        100_000,
        Ended(Ending::Deadlock),
        242,
        45,
    ),
    (
        "P = (a,3).P + (b,1/9).Q; Q = (z,1).Q; Y = (y,1).Y; P <y,z> Y",
        1,
        3,
        2,
        Ended(Ending::JumpLimit),
        6,
        2,
    ),
    (
        "P = (a,2).Q; Q = (b,3).P; S = (a,infty).U; U = (c,1).S; P <a> S",
        1,
        1,
        200,
        Ended(Ending::JumpLimit),
        1_056,
        200,
    ),
    (
        "P = (a,2).Q; Q = (b,3).P; S = (a,infty).U; U = (c,1).S; P <a> S",
        11,
        4,
        500,
        Ended(Ending::JumpLimit),
        2_627,
        500,
    ),
    (
        "P = (a,2).Q; Q = (b,3).P; P || P",
        1,
        1,
        200,
        Ended(Ending::JumpLimit),
        1_056,
        200,
    ),
    (
        "P = (a,2).Q; Q = (b,3).P; P || P",
        9_223_372_036_854_775_808,
        12,
        500,
        Ended(Ending::JumpLimit),
        2_672,
        500,
    ),
    (
        "P = (a,1).Q + (b,2).P; Q = (z,infty).Q; P",
        1,
        1,
        100_000,
        Stopped(Stop::PassiveLeft),
        21,
        2,
    ),
    (
        "P = (a,1).Q + (b,2).P; Q = (z,infty).Q; P",
        1,
        2,
        100_000,
        Stopped(Stop::PassiveLeft),
        12,
        3,
    ),
    (
        "P = (a,1).Q + (b,2).P; Q = (z,infty).Q; P",
        9,
        5,
        100_000,
        Stopped(Stop::PassiveLeft),
        9,
        1,
    ),
    (
        "r = 1/2989559173; P = (a,3*r).Q + (b,4*r).P; Q = (c,5*r).P + (d,2*r).Q + (e,r).P; P",
        1,
        1,
        1,
        Ended(Ending::JumpLimit),
        18,
        1,
    ),
    (
        "r = 1/2989559177; P = (a,3*r).Q + (b,4*r).P; Q = (c,5*r).P + (d,2*r).Q + (e,r).P; P",
        1,
        1,
        1,
        Stopped(Stop::TimeOverflow),
        17,
        0,
    ),
    (
        "r = 1/10552011893; P = (a,3*r).Q + (b,4*r).P; Q = (c,5*r).P + (d,2*r).Q + (e,r).P; P",
        1,
        2,
        4,
        Ended(Ending::JumpLimit),
        15,
        4,
    ),
    (
        "r = 1/10552011899; P = (a,3*r).Q + (b,4*r).P; Q = (c,5*r).P + (d,2*r).Q + (e,r).P; P",
        1,
        2,
        4,
        Stopped(Stop::TimeOverflow),
        14,
        3,
    ),
    (
        "r = 1/1454583241; P = (a,3*r).Q + (b,4*r).P; Q = (c,5*r).P + (d,2*r).Q + (e,r).P; P",
        1,
        3,
        10,
        Ended(Ending::JumpLimit),
        55,
        10,
    ),
    (
        "r = 1/1454583247; P = (a,3*r).Q + (b,4*r).P; Q = (c,5*r).P + (d,2*r).Q + (e,r).P; P",
        1,
        3,
        10,
        Stopped(Stop::TimeOverflow),
        54,
        9,
    ),
    (
        "r = 1/624339241; P = (a,3*r).Q + (b,4*r).P; Q = (c,5*r).P + (d,2*r).Q + (e,r).P; P",
        18_446_744_073_709_551_615,
        1,
        25,
        Ended(Ending::JumpLimit),
        140,
        25,
    ),
    (
        "r = 1/624339247; P = (a,3*r).Q + (b,4*r).P; Q = (c,5*r).P + (d,2*r).Q + (e,r).P; P",
        18_446_744_073_709_551_615,
        1,
        25,
        Stopped(Stop::TimeOverflow),
        139,
        24,
    ),
    (
        "r = 1/287031121; P = (a,3*r).Q + (b,4*r).P; Q = (c,5*r).P + (d,2*r).Q + (e,r).P; P",
        7,
        999_983,
        60,
        Ended(Ending::JumpLimit),
        296,
        60,
    ),
    (
        "r = 1/287031127; P = (a,3*r).Q + (b,4*r).P; Q = (c,5*r).P + (d,2*r).Q + (e,r).P; P",
        7,
        999_983,
        60,
        Stopped(Stop::TimeOverflow),
        295,
        59,
    ),
];

/// The most numbers that may be taken of a stream.
const ROOM: u64 = 1 << 63;

#[test]
fn replications_by_streams(rt: HostRuntime) -> Result<(), Fail> {
    for row in ROWS {
        assert!(rt; row_holds(rt.alloc(), row), "{} {} {}", row.0, row.1, row.2);
    }
    Ok(())
}

fn row_holds(alloc: Global, row: &Row) -> bool {
    match model_of(alloc, row.0.as_bytes()) {
        Some(model) => goes_by_terms(alloc, &model, row) && goes_by_numbers(alloc, &model, row),
        None => false,
    }
}

/// Over terms.
fn goes_by_terms(alloc: Global, model: &Model, row: &Row) -> bool {
    let (_, seed, number, jumps, wanted, _, _) = row;
    if *jumps > 100_000 {
        return false;
    }
    let mut space = PlainSpace::make(model);
    let order = order_of(*seed, 1, *jumps);
    let ended = replicate(alloc, &mut space, &order, *number);
    ends_as(&ended, *wanted)
}

/// Over numbers, where each state that it visits gets the next one.
fn goes_by_numbers(alloc: Global, model: &Model, row: &Row) -> bool {
    let (_, seed, number, jumps, wanted, taken, visited) = row;
    if *jumps > 100_000 || *taken > ROOM {
        return false;
    }
    let mut space = NumberSpace::make(alloc, model, 2000);
    let mut from = Stream::begin(*seed, *number);
    let order = order_of(*seed, 1, *jumps);
    let ended = replicate_over(alloc, &mut space, &mut from, &order);
    ends_as(&ended, *wanted)
        && space.terms().len() == visited.wrapping_add(1)
        && has_taken(&from, *taken)
}

/// Whether so many numbers were taken of a stream.
fn has_taken(from: &Stream, taken: u64) -> bool
    requires { taken ≤ 2 ^ 63 }
{
    from.has_room(ROOM - taken) && !from.has_room(ROOM - taken + 1)
}
