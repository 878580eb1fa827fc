//! Names, words and their sets, in cooperations and hidings.

ghost use Rattle.std.specs.Prelude.{◌≡◌, ◌⊎◌};
ghost use Rattle.token_grammar.specs.Cursors.{kinds_of};
ghost use Rattle.pepa_reader.specs.Reading.{FindsWord, ReadsSet, ReadsCooperation};

use crate::trees::Indices;
use fault_ends::End;
use pepa_lexer::Sign;
use sqlite_items::Items;
use std::alloc::Global;
use token_grammar::{PartEnd, Terminal, Text};

/// The indices of the words of a set, and the index behind the set.
#[derive(Debug, Drop)]
pub(crate) struct WordsRead {
    pub set: Indices,
    pub next: usize,
}

/// The index after the word at the index, if there is one.
pub(crate) fn word(text: &Text, at: usize) -> Option<usize>
    ensures { FindsWord (kinds_of text.now) at result }
{
    if let Some(next) = text.small(at) {
        return Some(next);
    }
    text.after(at, Terminal::Tau)
}

/// The words of a set, from behind the sign that opens it to the one that closes it.
pub(crate) fn words(
    alloc: Global,
    text: &Text,
    at: usize,
    close: Terminal,
) -> Result<WordsRead, PartEnd>
    requires { (close ≡ Terminal.Mark Sign.Greater) ⊎ (close ≡ Terminal.Mark Sign.ClosingBrace) }
    ensures { ReadsSet (kinds_of text.now) at close result }
{
    let mut set = Items::new(alloc);
    if let Some(next) = text.after(at, close) {
        return Ok(WordsRead { set, next });
    }
    let mut start = at;
    loop {
        let Some(behind) = word(text, start) else {
            return Err(End::Fault(start));
        };
        set.push(start)?;
        if let Some(next) = text.after(behind, close) {
            return Ok(WordsRead { set, next });
        }
        start = text.expect(behind, Terminal::Mark(Sign::Comma))?;
    }
}

/// The cooperation at the index, if there is one.
pub(crate) fn cooperation(
    alloc: Global,
    text: &Text,
    at: usize,
) -> Result<Option<WordsRead>, PartEnd>
    ensures { ReadsCooperation (kinds_of text.now) at result }
{
    if let Some(next) = text.after(at, Terminal::Mark(Sign::Or)) {
        let set = Items::new(alloc);
        return Ok(Some(WordsRead { set, next }));
    }
    let Some(inside) = text.after(at, Terminal::Mark(Sign::Less)) else {
        return Ok(None);
    };
    let read = words(alloc, text, inside, Terminal::Mark(Sign::Greater))?;
    Ok(Some(read))
}
