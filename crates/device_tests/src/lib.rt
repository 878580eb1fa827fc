//! Tests of devices: sources and sinks of bytes in memory and over the standard library's readers and writers.
//!
//! They call public functions alone, and have a crate of their own since a crate with tests is proved twice.
#![tactic(auto)]

#[cfg(test)]
mod devices;
