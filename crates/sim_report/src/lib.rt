//! The texts of transitions, of a model's counts, of its probes, of a summary and of faults.
//!
//! A transition is a line `action rate target`; the counts of a model are one line; a fault is one line too, which needs no
//! memory:
//!
//! ```text
//! a 3/2 P <a> Q1
//! ok constants 4 actions 2 probes 0 leaves 2
//! model 1:15 mixed choice
//! ```
#![tactic(auto)]

mod counts;
mod fault;
mod fault_lines;
mod line;
mod probe_ask;
mod probe_lines;
mod report_text;
mod transition_text;

pub use counts::check_text;
pub use fault::{Fault, FaultName};
pub use fault_lines::fault_line;
pub use line::Line;
pub use probe_ask::{Names, ProbeAsk};
pub use probe_lines::probe_text;
pub use report_text::report;
pub use transition_text::steps_text;
