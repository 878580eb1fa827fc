//! The transitions of a system in some state, and its apparent rates.
//!
//! A term stands for states: its leaves are sequential components, by their numbers, and they cooperate and hide. Hillston's rules
//! say what a state can do (J. Hillston, *A Compositional Approach to Performance Modelling*, 1996, chapter 3): `steps` gives one
//! transition for each derivation, in derivation order, with its exact rate. `load` gives the same list without targets, in buffers
//! that are kept between calls, and `target` the target of one of its entries.
#![tactic(auto)]

mod action_rates;
mod apparent_rate;
mod buffers;
mod combining;
mod entries;
mod hiding;
pub mod laws;
mod leaf_rates;
mod loading;
mod sets;
mod sources;
mod state_rates;
mod targets;
mod terms;
mod transitions;

pub use apparent_rate::apparent;
pub use buffers::Buffers;
pub use combining::combine;
pub use entries::{Derived, Entry, Origin};
pub use hiding::hide;
pub use loading::load;
pub use targets::target;
pub use terms::is_term_of;
pub use transitions::{StepFault, StepsEnd, steps};
