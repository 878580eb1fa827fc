//! All replications of an order, one after another.
#![tactic(auto)]

mod alone;
pub mod laws;

pub use alone::run_alone;
