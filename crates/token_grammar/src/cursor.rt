//! What stands at an index of a text's tokens.

ghost use Rattle.std.specs.Prelude.{◌≡◌, ◌<◌, IsTrue, length};
ghost use Rattle.token_grammar.specs.Terminals.{name_at};
ghost use Rattle.token_grammar.specs.Cursors.{kinds_of, TellsWhether, IsIndexAfter, Expects};
ghost use Rattle.token_grammar.specs.SmallNames.{FindsSmall};

use crate::terminal::{Terminal, bytes_of, is_same, terminal_of};
use fault_ends::End;
use pepa_lexer::Token;

/// Tokens and the text that they are of.
#[derive(Clone, Copy)]
pub struct Text<'t, 'i> {
    pub tokens: &'t [Token],
    pub input: &'i [u8],
}

/// Why a part of a text was not read: the token at this index can't follow, or there is none; or memory ran out.
pub type PartEnd = End<usize>;

impl Text<'_, '_> {
    /// Whether this terminal stands at the index.
    pub fn comes(&self, at: usize, terminal: Terminal) -> bool
        ensures answer { TellsWhether (kinds_of self.now) at terminal result }
        ensures within { IsTrue result → at < length self.now.tokens.now }
    {
        match self.tokens.get(at) {
            Some(token) => is_same(terminal_of(self.input, token), terminal),
            None => false,
        }
    }

    /// The index after this terminal, if it stands at the index.
    pub fn after(&self, at: usize, terminal: Terminal) -> Option<usize>
        ensures { IsIndexAfter (kinds_of self.now) at terminal result }
    {
        if self.comes(at, terminal) {
            Some(at + 1)
        } else {
            None
        }
    }

    /// The index after the small name at the index, if there is one. `probe` is a small name.
    pub fn small(&self, at: usize) -> Option<usize>
        ensures { FindsSmall (kinds_of self.now) at result }
    {
        if let Some(next) = self.after(at, Terminal::Small) {
            return Some(next);
        }
        self.after(at, Terminal::Probe)
    }

    /// The index after this terminal, which has to stand at the index.
    ///
    /// The fault is the index at which it doesn't stand, and memory is never wanted.
    pub fn expect(&self, at: usize, terminal: Terminal) -> Result<usize, PartEnd>
        ensures { Expects (kinds_of self.now) at terminal result }
    {
        match self.after(at, terminal) {
            Some(next) => Ok(next),
            None => Err(End::Fault(at)),
        }
    }
}

impl<'i> Text<'_, 'i> {
    /// The bytes of the token at the index, or none where there is no token.
    pub fn name(&self, at: usize) -> &'i [u8]
        ensures { result.now ≡ name_at self.now.input.now self.now.tokens.now at }
    {
        match sqlite_items::at(self.tokens, at) {
            Some(token) => bytes_of(self.input, token),
            None => &[],
        }
    }
}
