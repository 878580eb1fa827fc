//! Making a summary.
ghost use Rattle.std.specs.Prelude.{◌≡◌, ◌<◌, ◌≤◌, ◌^◌, All, IfOk, IsPermutation, length, sum};
ghost use Rattle.std.specs.List.Sorted.{IsNonDecreasing};
ghost use Rattle.sim_replication.specs.Orders.{IsOrderInRange};
ghost use Rattle.sim_histograms.specs.Histograms.{histogram_of};
ghost use Rattle.sim_histograms.specs.Summaries.{HasTimes, IsSummary, count_ended, mean_of, passage_lengths, same_ending};

use crate::histogram::Histogram;
use crate::ranking::quantile;
use crate::summaries::Summary;
use sim_replication::{Ending, Order, Ran};
use std::alloc::{AllocError, Global};

/// Sums up replications of an order. The lengths of all passages are copied once, and sorted; no
/// other list of them is made.
///
/// The error says only that memory ran out.
pub fn summary(alloc: Global, ran: &[Ran], order: &Order) -> Result<Summary, AllocError>
    requires range { IsOrderInRange order.now }
    requires runs { length ran.now ≤ order.now.runs }
    requires passages { All (λ r. length r.passages ≤ order.now.passages) ran.now }
    ensures summary { IfOk result (IsSummary order.now ran.now) }
    ensures times { IfOk result HasTimes }
{
    let sorted = sorted_lengths(alloc, ran)?;
    let lengths = sorted.as_slice();
    let histogram = filled(alloc, order, lengths)?;
    let tail = histogram.tail();
    Ok(Summary {
        runs: ran.len() as u64,
        done: count_ended(ran, Ending::Done),
        deadlocked: count_ended(ran, Ending::Deadlock),
        unfinished: count_ended(ran, Ending::JumpLimit),
        passages: lengths.len() as u64,
        mean: mean(lengths),
        least: lengths.first().copied(),
        median: quantile(lengths, 1, 2),
        p90: quantile(lengths, 9, 10),
        p99: quantile(lengths, 99, 100),
        greatest: lengths.last().copied(),
        bins: histogram.into_counts(),
        tail,
    })
}

/// The lengths of all passages in ascending order.
fn sorted_lengths(alloc: Global, ran: &[Ran]) -> Result<Vec<u64>, AllocError>
    requires { length (passage_lengths ran.now) < 2 ^ 32 }
    ensures same { IfOk result (λ v. IsPermutation (passage_lengths ran.now) v.items) }
    ensures ascending { IfOk result (λ v. IsNonDecreasing v.items) }
    ensures few { IfOk result (λ v. length v.items < 2 ^ 32) }
{
    let mut lengths = Vec::with_capacity(alloc, count_passages(ran))?;
    for replication in ran {
        lengths.extend_from_slice(replication.passages.as_slice())?;
    }
    lengths.sort_unstable();
    Ok(lengths)
}

fn count_passages(ran: &[Ran]) -> usize
    requires { length (passage_lengths ran.now) < 2 ^ 32 }
    ensures { result ≡ length (passage_lengths ran.now) }
{
    let mut count = 0;
    for replication in ran {
        count += replication.passages.len();
    }
    count
}

/// The histogram of an order with passages of these lengths.
fn filled(alloc: Global, order: &Order, lengths: &[u64]) -> Result<Histogram, AllocError>
    requires bin { 1 ≤ order.now.bin }
    requires few { length lengths.now < 2 ^ 32 }
    ensures { IfOk result (λ h. h ≡ histogram_of order.now.bin order.now.bins lengths.now) }
{
    let mut histogram = Histogram::make(alloc, order.bin, order.bins)?;
    for ticks in lengths {
        histogram.add(*ticks);
    }
    Ok(histogram)
}

/// How many replications ended so.
fn count_ended(ran: &[Ran], ending: Ending) -> u64
    ensures { result ≡ count_ended ending ran.now }
{
    let mut count = 0;
    for replication in ran {
        if is_same(replication.ending, ending) {
            count += 1;
        }
    }
    count
}

/// Whether two endings are the same.
fn is_same(a: Ending, b: Ending) -> bool
    ensures { result ≡ same_ending a b }
{
    match a {
        Ending::Done => matches!(b, Ending::Done),
        Ending::Deadlock => matches!(b, Ending::Deadlock),
        Ending::JumpLimit => matches!(b, Ending::JumpLimit),
    }
}

/// The arithmetic mean, rounded down; none of an empty list.
fn mean(lengths: &[u64]) -> Option<u64>
    requires { length lengths.now < 2 ^ 32 }
    ensures { result ≡ mean_of lengths.now }
{
    let count = lengths.len() as u128;
    if count == 0 {
        return None;
    }
    Some((total(lengths) / count) as u64)
}

/// The sum of some lengths.
fn total(lengths: &[u64]) -> u128
    requires { length lengths.now < 2 ^ 32 }
    ensures { result ≡ sum lengths.now }
{
    lengths.iter().map(|length| u128::from(*length)).sum()
}
