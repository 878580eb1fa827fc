//! What the rows order, and whether a replication went as they say.
ghost use Rattle.std.specs.Prelude.{◌≡◌};

use pepa_model::Term;
use sim_replication::{Ending, Order, Ran};
use sim_space::{Halt, Stop};

/// How a replication ends, or why it stops.
#[derive(Clone, Copy, Debug, PartialEq, Eq)]
pub(crate) enum Wanted {
    Ended(Ending),
    Stopped(Stop),
}

/// An order of one replication with this seed and at most so many passages and jumps.
pub(crate) fn order_of(seed: u64, passages: u64, jumps: u64) -> Order
    ensures jumps { result.jumps ≡ jumps }
    ensures seed { result.seed ≡ seed }
{
    Order {
        seed,
        runs: 1,
        passages,
        jumps,
        workers: 1,
        table: 262_144,
        entries: 1_048_576,
        bin: 1,
        bins: 1,
    }
}

/// Whether it ended or stopped as is wanted. No passage ends, since no transition sends a signal.
pub(crate) fn ends_as(ended: &Result<Ran, Halt>, wanted: Wanted) -> bool {
    match ended {
        Ok(ran) => Wanted::Ended(ran.ending) == wanted && ran.passages.as_slice().is_empty(),
        Err(Halt::Stop(stop)) => Wanted::Stopped(*stop) == wanted,
        Err(_) => false,
    }
}

/// Whether these terms are these leaves.
pub(crate) fn visits(terms: &[Term], leaves: &[u32]) -> bool {
    if terms.len() != leaves.len() {
        return false;
    }
    for (term, leaf) in terms.iter().zip(leaves) {
        if !matches!(term, Term::Leaf(number) if number == leaf) {
            return false;
        }
    }
    true
}
