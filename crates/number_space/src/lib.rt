//! A space whose states are numbers: the places of terms in a list that grows.
//!
//! What a number denotes depends on the space, so this meets the trait `Space` in another way than terms do.
#![tactic(auto)]

mod space;

pub use space::NumberSpace;
