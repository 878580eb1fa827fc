//! Tests of reports and of lines of faults.
//!
//! They call public functions alone, and have a crate of their own since a crate with tests is proved twice.
#![tactic(auto)]

#[cfg(test)]
mod lines;
#[cfg(test)]
mod reports;
