//! Tests of probe expressions with numbers: their counts, their numbers and their tables.
//!
//! They call public functions alone, and have a crate of their own since a crate with tests is proved twice.
#![tactic(auto)]

#[cfg(test)]
mod expressions;
#[cfg(test)]
mod lists;
#[cfg(test)]
mod written;
