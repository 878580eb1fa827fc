//! Tests of streams and of draws.
//!
//! They call public functions alone, and have a crate of their own since a crate with tests is proved twice.
#![tactic(auto)]

#[cfg(test)]
mod both;
#[cfg(test)]
mod lists;
#[cfg(test)]
mod streams;
