//! Suffixes: labels, repeats and resets after a part of an expression.

ghost use Rattle.token_grammar.specs.Cursors.{kinds_of};
ghost use Rattle.probe_reader.specs.ProbeReading.{ExpectsSmall, FindsShortSuffix, ReadsRange, ReadsSuffix};

use fault_ends::End;
use pepa_lexer::Sign;
use token_grammar::{PartEnd, Terminal, Text};

/// A suffix, with the indices of its names and numbers.
#[derive(Clone, Copy, Debug)]
pub(crate) enum WrittenSuffix {
    Label(usize),
    Star,
    Plus,
    Maybe,
    Times(usize),
    Between(usize, usize),
    Reset(usize),
}

/// A suffix, and the index after it.
#[derive(Clone, Copy, Debug)]
pub(crate) struct SuffixRead {
    pub suffix: WrittenSuffix,
    pub next: usize,
}

/// The index after the small name, which has to be at the index.
fn name(text: &Text, at: usize) -> Result<usize, PartEnd>
    ensures { ExpectsSmall (kinds_of text.now) at result }
{
    match text.small(at) {
        Some(next) => Ok(next),
        None => Err(End::Fault(at)),
    }
}

/// The suffix of one token at the index, if there is one.
fn short_suffix(text: &Text, at: usize) -> Option<SuffixRead>
    ensures { FindsShortSuffix (kinds_of text.now) at result }
{
    if let Some(next) = text.after(at, Terminal::Mark(Sign::Star)) {
        let suffix = WrittenSuffix::Star;
        return Some(SuffixRead { suffix, next });
    }
    if let Some(next) = text.after(at, Terminal::Mark(Sign::Plus)) {
        let suffix = WrittenSuffix::Plus;
        return Some(SuffixRead { suffix, next });
    }
    if let Some(next) = text.after(at, Terminal::Mark(Sign::Question)) {
        let suffix = WrittenSuffix::Maybe;
        return Some(SuffixRead { suffix, next });
    }
    let next = text.after(at, Terminal::Number)?;
    let suffix = WrittenSuffix::Times(at);
    Some(SuffixRead { suffix, next })
}

/// The two numbers of a repeat, whose opening brace is before the index, up to its closing brace.
fn range(text: &Text, at: usize) -> Result<SuffixRead, PartEnd>
    ensures { ReadsRange (kinds_of text.now) at result }
{
    let comma = text.expect(at, Terminal::Number)?;
    let most = text.expect(comma, Terminal::Mark(Sign::Comma))?;
    let brace = text.expect(most, Terminal::Number)?;
    let next = text.expect(brace, Terminal::Mark(Sign::ClosingBrace))?;
    let suffix = WrittenSuffix::Between(at, most);
    Ok(SuffixRead { suffix, next })
}

/// The suffix at the index, if there is one.
pub(crate) fn suffix(text: &Text, at: usize) -> Result<Option<SuffixRead>, PartEnd>
    ensures { ReadsSuffix (kinds_of text.now) at result }
{
    if let Some(read) = short_suffix(text, at) {
        return Ok(Some(read));
    }
    if let Some(label) = text.after(at, Terminal::Mark(Sign::Colon)) {
        let next = name(text, label)?;
        let suffix = WrittenSuffix::Label(label);
        return Ok(Some(SuffixRead { suffix, next }));
    }
    if let Some(letter) = text.after(at, Terminal::Mark(Sign::Slash)) {
        let next = name(text, letter)?;
        let suffix = WrittenSuffix::Reset(letter);
        return Ok(Some(SuffixRead { suffix, next }));
    }
    if let Some(least) = text.after(at, Terminal::Mark(Sign::OpeningBrace)) {
        let read = range(text, least)?;
        return Ok(Some(read));
    }
    Ok(None)
}
