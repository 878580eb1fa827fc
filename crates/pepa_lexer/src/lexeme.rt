//! The first lexeme of a text.

ghost use Rattle.std.specs.Prelude.{◌≡◌, ℕ, ◌+◌, ◌-◌, ◌<◌, ◌≤◌, ◌^◌, ◌==◌, not, true, false, List, length, if◌then◌else◌, MatchOption};
ghost use Rattle.std.specs.List.{list_all, prefix_len};
ghost use Rattle.std.specs.Str.Parse.{digits_value_after};
ghost use Rattle.pepa_lexer.specs.Bytes.{is_digit, is_capital, is_letter, is_word_byte, is_space, is_line_feed, begins};
ghost use Rattle.pepa_lexer.specs.Lexemes.{IsOpen};
ghost use Rattle.pepa_lexer.specs.Scans.{Scans, IsBlockBody};

use crate::kinds::{Kind, LexFault, Place, Sign};
use crate::signs::sign_in_front;

/// How many bytes a name has at most.
const LONGEST_NAME: usize = 64;

/// How many digits a number has at most.
const MOST_DIGITS: usize = 30;

/// A lexeme: its kind, if it is a token, and how many bytes it has.
#[derive(Clone, Copy, Debug)]
pub(crate) struct Scanned {
    pub kind: Option<Kind>,
    pub len: usize,
}

fn is_digit(byte: u8) -> bool
    ensures { result ≡ is_digit byte }
{
    byte.is_ascii_digit()
}

fn is_word_byte(byte: u8) -> bool
    ensures { result ≡ is_word_byte byte }
{
    matches!(byte, b'A'..=b'Z' | b'a'..=b'z' | b'0'..=b'9' | b'_')
}

fn begins_with(text: &[u8], byte: u8) -> bool
    ensures { result ≡ begins (λ first. first == byte) text.now }
{
    matches!(text, [first, ..] if *first == byte)
}

fn begins_with_space(text: &[u8]) -> bool
    ensures { result ≡ begins is_space text.now }
{
    matches!(text, [b'\t' | b'\n' | b'\r' | b' ', ..])
}

fn begins_with_capital(text: &[u8]) -> bool
    ensures { result ≡ begins is_capital text.now }
{
    matches!(text, [b'A'..=b'Z', ..])
}

fn begins_with_letter(text: &[u8]) -> bool
    ensures { result ≡ begins is_letter text.now }
{
    matches!(text, [b'A'..=b'Z' | b'a'..=b'z', ..])
}

fn begins_with_digit(text: &[u8]) -> bool
    ensures { result ≡ begins is_digit text.now }
{
    matches!(text, [first, ..] if is_digit(*first))
}

fn begins_with_word_byte(text: &[u8]) -> bool
    ensures { result ≡ begins is_word_byte text.now }
{
    matches!(text, [first, ..] if is_word_byte(*first))
}

/// How many word bytes stand in front.
fn word_len(text: &[u8]) -> usize
    ensures value { result ≡ prefix_len is_word_byte text.now }
    ensures within { result ≤ length text.now }
{
    text.iter().take_while(|byte| is_word_byte(**byte)).count()
}

/// How many digits stand in front.
fn digits_len(text: &[u8]) -> usize
    ensures value { result ≡ prefix_len is_digit text.now }
    ensures within { result ≤ length text.now }
{
    text.iter().take_while(|byte| is_digit(**byte)).count()
}

/// How many bytes stand before the first line feed.
fn line_len(text: &[u8]) -> usize
    ensures value { result ≡ prefix_len (λ byte. not (is_line_feed byte)) text.now }
    ensures within { result ≤ length text.now }
{
    text.iter().take_while(|byte| **byte != b'\n').count()
}

/// How many bytes stand before the first `*/`.
fn block_len(text: &[u8]) -> Option<usize>
    ensures { MatchOption result (IsOpen text.now) (IsBlockBody text.now) }
{
    let mut behind_star = false;
    for (at, byte) in text.iter().enumerate() {
        if behind_star && *byte == b'/' {
            return Some(at - 1);
        }
        behind_star = *byte == b'*';
    }
    None
}

/// The number that the digits write behind those of `start`.
fn value_behind(start: u128, digits: &[u8]) -> u128
    requires digits { list_all is_digit digits.now ≡ true }
    requires few { length digits.now ≤ 30 }
    requires small { start < 10 ^ (30 - length digits.now) }
    ensures value { result ≡ digits_value_after 10 start digits.now }
    ensures below { (n : ℕ) → start < 10 ^ n → result < 10 ^ (n + length digits.now) }
{
    let mut value = start;
    for digit in digits {
        value = value * 10 + u128::from(*digit - b'0');
    }
    value
}

/// The name in front of a text.
fn name(text: &[u8], place: Place) -> Result<Scanned, LexFault>
    requires { begins is_letter text.now ≡ true }
    ensures { Scans text.now place result }
{
    let len = word_len(text);
    if len > LONGEST_NAME {
        return Err(LexFault::LongName(place));
    }
    let kind = if begins_with_capital(text) {
        Kind::Capital
    } else {
        Kind::Small
    };
    let kind = Some(kind);
    Ok(Scanned { kind, len })
}

/// The number in front of a text.
fn number(text: &[u8], place: Place) -> Result<Scanned, LexFault>
    requires { begins is_digit text.now ≡ true }
    ensures { Scans text.now place result }
{
    let (digits, rest) = text.split_at(digits_len(text));
    if digits.len() > MOST_DIGITS || begins_with_word_byte(rest) {
        return Err(LexFault::BadNumber(place));
    }
    let whole = value_behind(0, digits);
    if !begins_with(rest, b'.') {
        let kind = Some(Kind::Number {
            digits: whole,
            scale: 0,
        });
        return Ok(Scanned {
            kind,
            len: digits.len(),
        });
    }
    let (_, rest) = rest.split_at(1);
    let (behind, rest) = rest.split_at(digits_len(rest));
    if behind.is_empty()
        || digits.len() + behind.len() > MOST_DIGITS
        || begins_with_word_byte(rest)
    {
        return Err(LexFault::BadNumber(place));
    }
    let kind = Some(Kind::Number {
        digits: value_behind(whole, behind),
        scale: behind.len() as u32,
    });
    Ok(Scanned {
        kind,
        len: digits.len() + 1 + behind.len(),
    })
}

/// The comment or the sign `/` in front of a text.
fn slash(text: &[u8], place: Place) -> Result<Scanned, LexFault>
    requires { begins (λ first. first == 47) text.now ≡ true }
    ensures { Scans text.now place result }
{
    let (_, behind) = text.split_at(1);
    if begins_with(behind, b'/') {
        let (_, body) = behind.split_at(1);
        return Ok(Scanned {
            kind: None,
            len: 2 + line_len(body),
        });
    }
    if begins_with(behind, b'*') {
        let (_, body) = behind.split_at(1);
        return match block_len(body) {
            Some(len) => Ok(Scanned {
                kind: None,
                len: len + 4,
            }),
            None => Err(LexFault::OpenComment(place)),
        };
    }
    let kind = Some(Kind::Sign(Sign::Slash));
    Ok(Scanned { kind, len: 1 })
}

/// The lexeme in front of a text, which begins at this place.
pub(crate) fn lexeme(text: &[u8], place: Place) -> Result<Scanned, LexFault>
    requires { 0 < length text.now }
    ensures { Scans text.now place result }
{
    if begins_with_space(text) {
        return Ok(Scanned { kind: None, len: 1 });
    }
    if begins_with_letter(text) {
        return name(text, place);
    }
    if begins_with_digit(text) {
        return number(text, place);
    }
    if begins_with(text, b'/') {
        return slash(text, place);
    }
    match sign_in_front(text) {
        Some((sign, len)) => Ok(Scanned {
            kind: Some(Kind::Sign(sign)),
            len,
        }),
        None => Err(LexFault::BadByte(place)),
    }
}
