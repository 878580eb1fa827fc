//! The outcomes of orders, by the streams of the seed 1.
//!
//! What is expected is worked out by hand, but for the model with two ends: which of its replications stop comes from a second program,
//! `tests/outcomes.py`, which has a ChaCha of its own.

use Wanted::{Finished, Stopped};
use pepa_model::Model;
use sim_replication::Ending::{Deadlock, JumpLimit};
use sim_replication::{Ending, Order, Outcome, Ran};
use sim_space::Stop;
use sim_space::Stop::PassiveLeft;
use sim_workers::run_alone;
use small_models::model_of;
use std::alloc::{AllocError, Global};
use std::test::Fail;

/// Each replication ends so; or this one is the first that stops, and for this reason.
#[derive(Clone, Copy, Debug, PartialEq, Eq)]
enum Wanted {
    Finished(Ending),
    Stopped(u64, Stop),
}

/// A text, the replications and the jumps that are ordered, and the outcome.
type Row = (&'static str, u64, u64, Wanted);

const ROWS: &[Row] = &[
    (
        "P = (a,1).Stop; Stop = (z,1).Stop; Q = (y,1).Q; P <y,z> Q",
        10,
        1_000_000,
        Finished(Deadlock),
    ),
    ("P = (a,infty).P; P", 10, 1, Stopped(1, PassiveLeft)),
    ("P = (a,1).P; P", 1, 1, Finished(JumpLimit)),
    ("P = (a,1).P; P", 5, 3, Finished(JumpLimit)),
    // The first jump leads to a state with a passive rate, or to one without a transition.
    (
        "P = (a,1).Q + (b,20).R; Q = (c,infty).Q; R = (d,1).R; E = (e,1).E; P <d,e> E",
        3,
        100,
        Finished(Deadlock),
    ),
    (
        "P = (a,1).Q + (b,20).R; Q = (c,infty).Q; R = (d,1).R; E = (e,1).E; P <d,e> E",
        4,
        100,
        Stopped(4, PassiveLeft),
    ),
    (
        "P = (a,1).Q + (b,20).R; Q = (c,infty).Q; R = (d,1).R; E = (e,1).E; P <d,e> E",
        40,
        100,
        Stopped(4, PassiveLeft),
    ),
    (
        "P = (a,1).Q + (b,20).R; Q = (c,infty).Q; R = (d,1).R; E = (e,1).E; P <d,e> E",
        40,
        1,
        Finished(JumpLimit),
    ),
];

#[test]
fn outcomes_of_orders(rt: HostRuntime) -> Result<(), Fail> {
    for row in ROWS {
        assert!(rt;
            row_holds(rt.alloc(), row)?,
            "{} {} {}",
            row.0,
            row.1,
            row.2
        );
    }
    Ok(())
}

fn row_holds(alloc: Global, row: &Row) -> Result<bool, AllocError> {
    match model_of(alloc, row.0.as_bytes()) {
        Some(model) => goes(alloc, &model, row),
        None => Ok(false),
    }
}

fn goes(alloc: Global, model: &Model, row: &Row) -> Result<bool, AllocError> {
    let (_, runs, jumps, wanted) = row;
    let order = Order {
        seed: 1,
        runs: *runs,
        passages: 1,
        jumps: *jumps,
        workers: 1,
        table: 8,
        entries: 8,
        bin: 1,
        bins: 1,
    };
    if !order.is_in_range() {
        return Ok(false);
    }
    let outcome = run_alone(alloc, model, &order)?;
    Ok(is_as(&outcome, *runs, *wanted))
}

fn is_as(outcome: &Outcome, runs: u64, wanted: Wanted) -> bool {
    match outcome {
        Outcome::Finished(rans) => each_ended(rans.as_slice(), runs, wanted),
        Outcome::Stopped { number, stop } => Stopped(*number, *stop) == wanted,
    }
}

/// Whether there are so many, and each ended as is wanted. No passage ends, since no transition sends a signal.
fn each_ended(rans: &[Ran], runs: u64, wanted: Wanted) -> bool {
    if rans.len() as u64 != runs {
        return false;
    }
    for ran in rans {
        if Finished(ran.ending) != wanted || !ran.passages.as_slice().is_empty() {
            return false;
        }
    }
    true
}
