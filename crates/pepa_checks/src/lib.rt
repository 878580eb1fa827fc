//! The checks of a file, and its model.
#![tactic(auto)]

mod activities;
mod cause;
mod compounds;
mod counting;
mod expressions;
mod file_check;
pub mod laws;
mod leaf_table;
mod leaves;
mod mixed;
mod model_making;
mod nodes;
mod number_set;
mod over_limit;
mod sequential;
mod sets;
mod shapes;
mod structure;
mod structured_file;
mod summand;
mod system_size;

pub use cause::{CheckCause, CheckEnd};
pub use file_check::check;
