//! The tokens of a text: names, numbers and signs, each with its place.
//!
//! Outside comments a text has tabs, line feeds, carriage returns, spaces and the printable bytes of ASCII. A comment is `//`
//! up to the end of its line, or `/*` up to the next `*/` behind it, and any byte may stand in it. White space and comments
//! separate tokens, and each token is as long as it can be.
//!
//! ```text
//! name   := letter (letter | digit | "_")*         at most 64 bytes
//! number := digit+ ("." digit+)?                   at most 30 digits, and no letter or "_" at once behind them
//! sign   := "=" ";" "(" ")" "," "." "+" "-" "*" "/" "<" ">" "<=" ">=" "==" "!=" "!" "&&" "||" "|" "{" "}" "[" "]" ":" "::" "?"
//! ```
#![tactic(auto)]

mod kinds;
pub mod laws;
mod lexeme;
mod lexer;
mod signs;

pub use kinds::{Kind, LexFault, Place, Sign, Token, Tokens};
pub use lexer::tokens;
