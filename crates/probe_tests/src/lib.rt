//! Tests of probe expressions, their positions and their tables.
//!
//! They call public functions alone, and have a crate of their own since a crate with tests is proved twice.
#![tactic(auto)]

#[cfg(test)]
mod expressions;
#[cfg(test)]
mod guards;
#[cfg(test)]
mod heard;
#[cfg(test)]
mod position_table;
#[cfg(test)]
mod positions;
#[cfg(test)]
mod tables;
