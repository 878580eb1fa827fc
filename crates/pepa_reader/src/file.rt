//! Whole files.

ghost use Rattle.std.specs.Prelude.{◌≡◌, ◌+◌, ◌<◌, ◌≤◌, length, drop, take};
ghost use Rattle.pepa_lexer.specs.TokenLists.{IsTokens};
ghost use Rattle.pepa_reader.specs.FileAnswers.{ReadsFile};
ghost use Rattle.token_grammar.specs.Terminals.{terminals};
ghost use Rattle.pepa_reader.specs.ItemReading.{IsCause, IsEnded, ReadsItemAt};

use crate::fault::FileFault;
use crate::items::{Item, ItemRead, next_item};
use crate::trees::FileTree;
use fault_ends::End;
use pepa_lexer::{Sign, Token};
use sqlite_items::Items;
use std::alloc::Global;
use token_grammar::{PartEnd, Terminal, Text};

/// How many tokens an item has at most.
const MOST_TOKENS: usize = 2048;

/// Why the token at `i`, which is in the item that begins at `start`, was refused.
fn cause(text: &Text, start: usize, i: usize) -> FileFault
    requires behind { start ≤ i }
    requires within { i < length text.now.tokens.now }
    ensures { IsCause text.now.input.now text.now.tokens.now start i result }
{
    let place = text.tokens[i].place;
    let begun = i - start;
    if begun == MOST_TOKENS {
        return FileFault::TooDeep(place);
    }
    if text.comes(i, Terminal::Mark(Sign::OpeningBracket)) {
        return FileFault::Array(place);
    }
    if i > 0
        && text.comes(i, Terminal::Mark(Sign::Star))
        && text.comes(i - 1, Terminal::Mark(Sign::Less))
    {
        return FileFault::Wildcard(place);
    }
    FileFault::Expected(place)
}

/// The item that begins at the index, of which no more than 2,048 tokens are read.
fn item_at(alloc: Global, tokens: &[Token], input: &[u8], at: usize) -> Result<ItemRead, FileFault>
    requires within { at < length tokens.now }
    requires ended { IsEnded (terminals input.now tokens.now) }
    ensures { ReadsItemAt input.now tokens.now at result }
{
    let room = (tokens.len() - at).min(MOST_TOKENS);
    let (few, _) = tokens.split_at(at + room);
    let text = Text { tokens: few, input };
    match next_item(alloc, &text, at) {
        Ok(read) => Ok(read),
        Err(End::Fault(i)) => {
            let whole = Text { tokens, input };
            Err(cause(&whole, at, i))
        }
        Err(End::Memory) => Err(FileFault::Memory),
    }
}

/// Reads the tokens of a text as a file.
///
/// The tree's nodes hold the indices of tokens. `tokens` are those of `input`. A refusal tells the place of the first token
/// with which what stands before it can't be continued to a file; `TooDeep` tells the 2,049th token of an item, and goes
/// before the others there. `Memory` says only that memory ran out.
pub fn read_file(alloc: Global, tokens: &[Token], input: &[u8]) -> Result<FileTree, FileFault>
    requires { IsTokens input.now tokens.now }
    ensures { ReadsFile input.now tokens.now result }
{
    let mut rates = Items::new(alloc);
    let mut processes = Items::new(alloc);
    let mut probes = Items::new(alloc);
    let mut at = 0;
    loop {
        let ItemRead { item, next } = item_at(alloc, tokens, input, at)?;
        at = next;
        match item {
            Item::Rate(line) => rates.push(line)?,
            Item::Process(line) => processes.push(line)?,
            Item::Probe(line) => probes.push(line)?,
            Item::System(system) => {
                return Ok(FileTree {
                    rates,
                    processes,
                    probes,
                    system,
                });
            }
        }
    }
}
