//! A file with numbers in place of its names, its sets and its rates; or the first fault of its limits on lines, its names, its
//! sets and its rates.
#![tactic(auto)]

mod bad_rates;
pub mod laws;
mod lesser;
mod lines;
mod named;
mod names;
mod naming;
mod numbers;
mod refusal;
mod resolving;
mod sets;
mod source;
mod tables;
mod unknown;
mod values;

pub use lesser::least;
pub use named::{NamedProcess, NumberedFile};
pub use refusal::{ResolveCause, ResolveEnd};
pub use resolving::resolve;
