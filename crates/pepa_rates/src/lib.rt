//! Exact rates of activities: positive fractions in lowest terms, active or passive.
#![tactic(auto)]

mod frac;
pub mod laws;
mod rate;
mod share;
mod weighing;
mod weight_list;

pub use frac::{Frac, RateOverflow};
pub use rate::{Rate, RateFault};
pub use weighing::{push_weights, weights};
pub use weight_list::{Scale, WeightFault, Weights, Words64};
