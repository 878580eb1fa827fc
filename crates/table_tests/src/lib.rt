//! Tests of the table on atomic words: numbers for keys and lists for numbers, from one thread and from several.
//!
//! They call public functions alone, and have a crate of their own since a crate with tests is proved twice.
#![tactic(auto)]

#[cfg(test)]
mod anything;
#[cfg(test)]
mod counting;
#[cfg(test)]
mod lists;
#[cfg(test)]
mod rows;
#[cfg(test)]
mod shared;
#[cfg(test)]
mod stress;
