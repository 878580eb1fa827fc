//! Tests of the words of a call.
//!
//! They call public functions alone, and have a crate of their own since a crate with tests is proved
//! twice. The tables are those of `tests/words.py`, which says a second time which command words give.
#![tactic(auto)]

#[cfg(test)]
mod commands;
#[cfg(test)]
mod ends;
#[cfg(test)]
mod events;
#[cfg(test)]
mod forms;
#[cfg(test)]
mod pairs;
#[cfg(test)]
mod reading;
#[cfg(test)]
mod sizes;
