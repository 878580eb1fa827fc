//! Tests of histograms, quantiles and summaries.
//!
//! They call public functions alone, and have a crate of their own since a crate with tests is proved twice.
#![tactic(auto)]

#[cfg(test)]
mod figures;
#[cfg(test)]
mod histograms;
#[cfg(test)]
mod quantiles;
#[cfg(test)]
mod summaries;
