//! Tests of the plain space: what it loads of first states, and where it goes.
//!
//! They call public functions alone, and have a crate of their own since a crate with tests is proved twice.
#![tactic(auto)]

#[cfg(test)]
mod loads;
