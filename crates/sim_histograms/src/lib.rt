//! Summaries of replications: how they ended, and how long their passages are.
//!
//! A length is a number of ticks of 2^-32 time unit. Quantiles are by rank, and a histogram counts
//! the passages of each bin.
#![tactic(auto)]

mod histogram;
pub mod laws;
mod ranking;
mod summaries;
mod summarizing;

pub use histogram::Histogram;
pub use ranking::quantile;
pub use summaries::Summary;
pub use summarizing::summary;
