//! Whether one of a state's transitions can be chosen: the weights to choose by, or why there are none.
//!
//! A stop names the verdict on a state. Those of the state's parts come from `pepa_steps`; what the rates of all its transitions
//! together are refused for is judged here, of the rates alone.
#![tactic(auto)]

mod choices;
mod space;
mod stop;

pub use choices::{ChoiceEnd, choice_weights};
pub use space::{Halt, Jump, Loaded, Space};
pub use stop::Stop;
