//! The plain space of a model: its states are terms, and each list is worked out anew.
//!
//! It is the definition as a program: `load` works out the transitions of a term without their targets, and `go` builds the one
//! target that is entered.
#![tactic(auto)]

mod lists;
mod space;

pub use space::PlainSpace;
