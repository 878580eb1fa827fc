//! Names of events, joined by commas.
ghost use Rattle.std.specs.Prelude.{◌≡◌, ◌↔◌, ◌==◌, IsTrue, IfOk, MatchResult, List, ℕ, map};
ghost use Rattle.std.specs.List.{list_all, slice_split};
ghost use Rattle.pepa_lexer.specs.Bytes.{is_word_byte};
ghost use Rattle.pepa_model.specs.Spelling.{IsActionName};
ghost use Rattle.call_words.specs.OptionTable.{AreEventNames};

use crate::command::WordsFault;
use pepa_model::Name;
use sim_report::Names;
use sqlite_items::Items;
use std::alloc::{AllocError, Global};

// The names of action types that a text joins by commas, or `Usage` where a part is no such name.
pub(crate) fn event_names(alloc: Global, text: &str) -> Result<Names, WordsFault>
    ensures { MatchResult result (AreEventNames text.now)
        (λ fault. fault ≡ WordsFault.Usage
        → (names : List (List ℕ)) → ¬ AreEventNames text.now names) }
{
    let parts = parts(alloc, text)?;
    let mut names = Items::new(alloc);
    for part in parts.as_slice() {
        let name = part.as_bytes();
        if !is_action_name(name) {
            return Err(WordsFault::Usage);
        }
        names.push(Name::make(alloc, name)?)?;
    }
    Ok(names)
}

// The parts of a text between its commas.
fn parts(alloc: Global, text: &str) -> Result<Vec<&str>, AllocError>
    ensures { IfOk result (λ parts. map (λ part. part.now) parts.items
        ≡ slice_split (λ byte. byte == 44) text.now) }
{
    text.split(',').collect(alloc)
}

// Whether the text is the name of an action type.
fn is_action_name(name: &[u8]) -> bool
    ensures { IsTrue result ↔ IsActionName name.now }
{
    if !matches!(name, [b'a'..=b'z', ..]) || name.len() > 64 {
        return false;
    }
    if name == b"infty".as_slice() || name == b"tau".as_slice() {
        return false;
    }
    has_word_bytes(name)
}

// Whether each byte is a letter, a digit or `_`.
fn has_word_bytes(text: &[u8]) -> bool
    ensures { result ≡ list_all is_word_byte text.now }
{
    text.iter().all(|byte| is_word_byte(*byte))
}

fn is_word_byte(byte: u8) -> bool
    ensures { result ≡ is_word_byte byte }
{
    matches!(byte, b'A'..=b'Z' | b'a'..=b'z' | b'0'..=b'9' | b'_')
}
