//! Tests of the interner's core, and of the packing of nodes and transitions into its words.
//!
//! They call public functions alone, and have a crate of their own since a crate with tests is proved twice.
#![tactic(auto)]

#[cfg(test)]
mod buckets;
#[cfg(test)]
mod histories;
#[cfg(test)]
mod moves;
#[cfg(test)]
mod naive;
#[cfg(test)]
mod packing;
#[cfg(test)]
mod rows;
#[cfg(test)]
mod walks;
