//! Numbered nodes and the edges between them: what is reached, the first node that reaches itself, and an order along the edges.
#![tactic(auto)]

mod cycles;
pub mod laws;
mod orders;
mod reach;

pub use cycles::{CycleOrOrder, cycle_or_order};
pub use reach::reached;
