//! Tests of first states, of apparent rates, and of the weights by which a transition is chosen.
//!
//! They call public functions alone, and have a crate of their own since a crate with tests is proved twice.
#![tactic(auto)]

#[cfg(test)]
mod apparent_rates;
#[cfg(test)]
mod choices;
#[cfg(test)]
mod first_states;
