//! The model of a PEPA system, its terms, and the definitions of PEPA.
#![tactic(auto)]

pub mod laws;
mod model;
mod name;
mod term;

pub use model::{MAX_HEIGHT, Model};
pub use name::Name;
pub use term::{
    Activity, ActivityList, ActivityLists, Bodies, Body, Sequential, SequentialList, Shape2, Step,
    StepList, TAU, Term, Words32, Words32List, leaf_count,
};
