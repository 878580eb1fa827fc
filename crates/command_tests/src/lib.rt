//! Tests of a whole call: its words, its answers and its lines.
//!
//! They call public functions alone, and have a crate of their own since a crate with tests is proved twice.
#![tactic(auto)]

#[cfg(test)]
mod calls;
#[cfg(test)]
mod commands;
#[cfg(test)]
mod fault_lines;
#[cfg(test)]
mod top_call;
