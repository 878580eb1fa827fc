//! The table of a probe's positions, which answers events as words do.
#![tactic(auto)]

mod answering;
mod build_fault;
mod building;
mod distinct;
mod exploring;
mod filters;
pub mod laws;
mod signals;
mod table_move;

pub use answering::table_next;
pub use build_fault::BuildFault;
pub use building::build;
pub use table_move::Move;
