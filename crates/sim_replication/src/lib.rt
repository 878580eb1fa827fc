//! Replications of a model, over any space.
//!
//! A replication takes jumps from the model's first state on. A random draw says when the next one comes, another which transition it
//! is, and the signals `start` and `stop` of the transitions begin and end passages.
#![tactic(auto)]

mod clock;
mod jumping;
pub mod laws;
mod order;
mod passages;
mod ran;
mod replication;

pub use order::Order;
pub use passages::Passages;
pub use ran::{Ending, Outcome, Ran};
pub use replication::{replicate, replicate_over};
