//! Tests of replications: how they end, over two spaces, and their passages.
//!
//! They call public functions alone, and have a crate of their own since a crate with tests is proved twice.
#![tactic(auto)]

#[cfg(test)]
mod edges;
#[cfg(test)]
mod heard;
#[cfg(test)]
mod orders;
#[cfg(test)]
mod runs;
