//! The file grammar: from the tokens of a text to its tree, or the first token that can't follow.
//!
//! ```text
//! file     := item* process [";"] End
//! item     := small "=" rate ";" | Capital "=" process ";" | "probe" [Capital "::"] alt ";"
//! process  := choice (coop choice)*                       left first
//! coop     := "||" | "<" [word ("," word)*] ">"
//! choice   := hidden ("+" hidden)*                        left first
//! hidden   := prefix ("/" "{" [word ("," word)*] "}")*
//! prefix   := "(" word "," rate ")" "." prefix | Capital | "(" process ")"
//! word     := small | "tau"
//! rate     := [NUMBER "*"] top | sum
//! top      := "infty" | "T"
//! sum      := product (("+" | "-") product)*              left first
//! product  := factor (("*" | "/") factor)*                left first
//! factor   := NUMBER | small | "(" sum ")"
//! ```
//!
//! `alt` is an expression of a probe (`probe_reader`). An item runs from its first token to its `;`, and the last item is the
//! system, which ends with the end of the text. An item has at most 2,048 tokens. A line that begins with the small name
//! `probe` is a probe line where the next token isn't `=`.
#![tactic(auto)]

mod fault;
mod file;
mod items;
pub mod laws;
mod processes;
mod rates;
mod trees;
mod words;

pub use fault::FileFault;
pub use file::read_file;
pub use trees::{
    FileTree, Indices, ProbeLine, ProbeLines, ProcessLine, ProcessLines, ProcessTree, RateLine,
    RateLines, RateTree,
};
