//! Tests of the crates that read a text: its tokens, its tree, its names and rates, its structure, and its model.
//!
//! They call public functions alone, and have a crate of their own since a crate with tests is proved twice.
#![tactic(auto)]

#[cfg(test)]
mod checks;
#[cfg(test)]
mod lexer;
#[cfg(test)]
mod reader;
#[cfg(test)]
mod resolver;
