//! The summary of replications.
use pepa_rates::Words64;

/// The summary of replications. Times are in ticks of 2^-32 time unit, and there are none where
/// there are no passages.
#[derive(Debug, Drop)]
pub struct Summary {
    /// How many replications there are.
    pub runs: u64,
    /// How many ended with as many passages as were ordered.
    pub done: u64,
    /// How many ended at a state that has no transition.
    pub deadlocked: u64,
    /// How many ended with as many jumps as were ordered.
    pub unfinished: u64,
    /// How many passages all replications have.
    pub passages: u64,
    /// The mean length of a passage, rounded down.
    pub mean: Option<u64>,
    /// The length of the shortest passage.
    pub least: Option<u64>,
    /// The quantile of the lengths for 1/2.
    pub median: Option<u64>,
    /// The quantile of the lengths for 9/10.
    pub p90: Option<u64>,
    /// The quantile of the lengths for 99/100.
    pub p99: Option<u64>,
    /// The length of the longest passage.
    pub greatest: Option<u64>,
    /// How many passages lie in each bin, the shortest first.
    pub bins: Words64,
    /// How many passages are as long as all bins together, or longer.
    pub tail: u64,
}
