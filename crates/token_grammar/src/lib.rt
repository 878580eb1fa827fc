//! Words for grammars over the tokens of a text.
//!
//! A grammar sees each token as a *terminal*: a name, a number, a sign, the end, or one of the words that the grammar knows.
//! A language is a predicate of lists of terminals. Here stand what such lists and the indices in them need: the terminal of
//! each token, what stands at an index, the first index from which terminals can't be continued to a text of a language, and
//! machines that read terminals one by one. The readers of several grammars use them.
#![tactic(auto)]

mod cursor;
mod terminal;

pub use cursor::{PartEnd, Text};
pub use terminal::{Terminal, bytes_of};
