//! The first state of a model: its system, with its compound constants expanded.
//!
//! Models have no probes yet, so none is attached.
#![tactic(auto)]

mod first_state;
mod system_size;

pub use first_state::attach;
pub use system_size::system_leaves;
