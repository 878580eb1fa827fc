//! Tests of what a watch makes of transitions.
//!
//! They call public functions alone, and have a crate of their own since a crate with tests is proved twice.
#![tactic(auto)]

#[cfg(test)]
mod expressions;
#[cfg(test)]
mod transitions;
