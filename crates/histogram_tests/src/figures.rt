//! The figures of a summary as one list.
ghost use Rattle.std.specs.Prelude.{◌≤◌, ◌↔◌, All, IsTrue, length};
ghost use Rattle.sim_replication.specs.declared.ran.Ran.{Ran};

use pepa_rates::Words64;
use sim_histograms::{Summary, summary};
use sim_replication::{Ending, Order, Ran};
use std::alloc::{AllocError, Global};

/// A time that isn't there. No passage is so long.
pub const NONE: u64 = u64::MAX;

/// Replications with these passages, each with its ending.
pub fn replications(alloc: Global, table: &[(&[u64], Ending)]) -> Result<Vec<Ran>, AllocError> {
    let mut all = Vec::new(alloc);
    for (passages, ending) in table {
        all.push(Ran {
            passages: Words64::from_slice(alloc, passages)?,
            ending: *ending,
        })?;
    }
    Ok(all)
}

/// An order with so many replications and passages, and with bins of so many time units.
pub fn order(runs: u64, passages: u64, bin: u32, bins: u32) -> Order {
    Order {
        seed: 1,
        runs,
        passages,
        jumps: 100_000,
        workers: 1,
        table: 262_144,
        entries: 1_048_576,
        bin,
        bins,
    }
}

/// Whether these are the figures of a summary, in the order of its fields with the bins between the
/// times and the tail; not where the order doesn't fit.
pub fn are_figures(
    alloc: Global,
    ran: &[Ran],
    order: &Order,
    want: &[u64],
) -> Result<bool, AllocError> {
    if !order.is_in_range() || ran.len() as u64 > order.runs || !have_at_most(ran, order.passages) {
        return Ok(false);
    }
    let made = summary(alloc, ran, order)?;
    let list = listed(alloc, &made)?;
    Ok(list.as_slice() == want)
}

fn have_at_most(ran: &[Ran], most: u64) -> bool
    ensures { IsTrue result ↔ All (λ (r : Ran). length r.passages ≤ most) ran.now }
{
    ran.iter().all(|r| r.passages.len() as u64 <= most)
}

fn listed(alloc: Global, made: &Summary) -> Result<Vec<u64>, AllocError> {
    let mut list = Vec::new(alloc);
    for count in [
        made.runs,
        made.done,
        made.deadlocked,
        made.unfinished,
        made.passages,
    ] {
        list.push(count)?;
    }
    for time in [
        made.mean,
        made.least,
        made.median,
        made.p90,
        made.p99,
        made.greatest,
    ] {
        list.push(time.unwrap_or(NONE))?;
    }
    list.extend_from_slice(made.bins.as_slice())?;
    list.push(made.tail)?;
    Ok(list)
}
