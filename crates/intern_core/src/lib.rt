//! A lock-free interner as a machine over events: what its words, its seats and its history are, and what one step does.
#![tactic(auto)]

mod event;
mod history;
pub mod laws;
mod machine;
mod outcome;
mod places;
mod seat;
mod shape;
mod stepping;
mod turns;

pub use event::{Act, Event, RunCoreFault};
pub use history::{Entry, EntryWords, Key, Reply, Words};
pub use machine::Core;
pub use outcome::{CoreFault, Outcome2, Published};
pub use places::{bucket, place, word_count};
pub use seat::{Phase, Seat, SeatWithOffer};
pub use shape::Shape;
pub use stepping::{core_step, run_core};
pub use turns::{first_phase, left, list_length, offered_word, outcome_of, turned};
