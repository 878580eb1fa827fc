//! Tests of lists without targets, in buffers that are kept between calls, and of targets.
//!
//! They call public functions alone, and have a crate of their own since a crate with tests is proved twice.
#![tactic(auto)]

#[cfg(test)]
mod lists;
