//! The grammar of probe expressions: from the tokens of a text to the tree of one, or the first token that can't follow.
//!
//! ```text
//! alt      := seq ("|" seq)*                              left first
//! seq      := guarded ("," guarded)*                      left first
//! guarded  := "{" guard "}" guarded | post
//! post     := atom (":" small | "*" | "+" | "?" | NUMBER | "{" NUMBER "," NUMBER "}" | "/" small)*
//! atom     := small | "(" alt ")"
//! guard    := conj ("||" conj)*                           left first
//! conj     := neg ("&&" neg)*                             left first
//! neg      := "!" neg | "(" guard ")" | Capital relation NUMBER
//! relation := "<" | "<=" | ">" | ">=" | "==" | "!="
//! ```
//!
//! An expression is an `alt`. `small` is a name that begins with a small letter; `probe` is one, `tau` and `infty` are not.
#![tactic(auto)]

mod fault;
mod guards;
pub mod laws;
mod parts;
mod reading;
mod suffixes;
mod trees;

pub use fault::ProbeTextFault;
pub use reading::read_probe;
pub use trees::{GuardTree, ProbeRead, ProbeTree};
