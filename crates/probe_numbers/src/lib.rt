//! Probe expressions with numbers in place of names: their counts, their numbers, and their tables.
#![tactic(auto)]

mod bad_counts;
mod counted;
mod earlier;
mod known;
pub mod laws;
mod names;
mod numbered;
mod pattern_tables;
mod whole;

pub use bad_counts::bad_count;
pub use known::has_known_names;
pub use names::ProbeNames;
pub use numbered::{NumberedProbe, number_probe};
pub use pattern_tables::{TableFault, table_of};
