//! The text of a model, in one normal form.
//!
//! Each constant has a line, in the order of the constants, and the system is on the last line:
//!
//! ```text
//! P = (a, 3/2).(b, 2*infty).P;
//! Q = (b, 1).Q + ((a, infty).Q + (c, 2).Q);
//! P <a,b> Q/{c}
//! ```
//!
//! `pepa_text` says how components and systems are written, and where brackets are.
#![tactic(auto)]

pub mod laws;
mod lines;
mod parts;

pub use lines::print_model;
