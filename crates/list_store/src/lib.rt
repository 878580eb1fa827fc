//! Lists of entries for numbers: a number has at most one list, which is published once and for good, and no call waits for another.
#![tactic(auto)]

mod publishing;
mod reading;

pub use publishing::publish;
pub use reading::{list_entry, list_len};
