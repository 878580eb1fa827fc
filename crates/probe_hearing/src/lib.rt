//! What a probe's watch makes of one transition of what it watches, by the probe's table.
#![tactic(auto)]

mod hearing;
pub mod laws;
mod valuations;

pub use hearing::{Heard, hear_transition};
pub use valuations::{all_ask_below, valuation};
