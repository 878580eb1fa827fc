//! The words of a call, read exactly.
#![tactic(auto)]

mod asks;
mod command;
mod events;
mod hyphens;
pub mod laws;
mod numbers;
mod option_words;
mod orders;
mod reading;

pub use command::{Command, WordsFault};
pub use reading::read_words;
