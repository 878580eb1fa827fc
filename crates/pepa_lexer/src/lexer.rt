//! All tokens of a text.

ghost use Rattle.std.specs.Prelude.{◌≡◌, ℕ, ◌+◌, ◌<◌, ◌≤◌, ◌^◌, List, ◌++◌, length};
ghost use Rattle.pepa_lexer.specs.TokenLists.{place_after};
ghost use Rattle.pepa_lexer.specs.Faults.{AnswersTokens};

use crate::kinds::{Kind, LexFault, Place, Token, Tokens};
use crate::lexeme::lexeme;
use sqlite_items::Items;
use std::alloc::Global;

/// The place behind these bytes, which begin at this place.
fn place_behind(place: Place, bytes: &[u8]) -> Place
    requires line { place.line + length bytes.now < 2 ^ 32 }
    requires column { place.column + length bytes.now < 2 ^ 32 }
    ensures { (front : List ℕ) → place ≡ place_after front → result ≡ place_after (front ++ bytes.now) }
{
    let mut line = place.line;
    let mut column = place.column;
    for byte in bytes {
        if *byte == b'\n' {
            line += 1;
            column = 1;
        } else {
            column += 1;
        }
    }
    Place { line, column }
}

/// The tokens of a text of at most 2^20 bytes, in order, or its first fault.
///
/// The last token is the end, behind the last byte. `Memory` says only that memory ran out.
pub fn tokens(alloc: Global, input: &[u8]) -> Result<Tokens, LexFault>
    requires { length input.now ≤ 2 ^ 20 }
    ensures { AnswersTokens input.now result }
{
    let mut list = Items::new(alloc);
    let mut place = Place { line: 1, column: 1 };
    let mut from = 0;
    let mut rest = input;
    while !rest.is_empty() {
        let scanned = lexeme(rest, place)?;
        let to = from + scanned.len;
        if let Some(kind) = scanned.kind {
            list.push(Token {
                kind,
                place,
                from,
                to,
            })?;
        }
        let (bytes, behind) = rest.split_at(scanned.len);
        place = place_behind(place, bytes);
        from = to;
        rest = behind;
    }
    list.push(Token {
        kind: Kind::End,
        place,
        from,
        to: from,
    })?;
    Ok(list)
}
