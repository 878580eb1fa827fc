//! Tests of rates, of names and terms, of the texts of their parts, and of the printed texts of models.
//!
//! They call public functions alone, and have a crate of their own since a crate with tests is proved twice.
#![tactic(auto)]

#[cfg(test)]
mod models;
#[cfg(test)]
mod printed_texts;
#[cfg(test)]
mod rates;
#[cfg(test)]
mod reading;
#[cfg(test)]
mod texts;
