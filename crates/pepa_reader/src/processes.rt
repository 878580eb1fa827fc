//! Processes: activities, constants, hidings, choices and cooperations.

ghost use Rattle.std.specs.Prelude.{IfOk};
ghost use Rattle.token_grammar.specs.Cursors.{kinds_of};
ghost use Rattle.pepa_reader.specs.Reading.{BeginsActivity, IsPerforming, IsHidingOf, IsChoiceRead, IsCooperating, ReadsActivity, ReadsPrefix, ReadsHidden, ReadsChoice, ReadsProcess};

use crate::rates::{RateRead, rate};
use crate::trees::{Indices, ProcessTree, RateTree};
use crate::words::{WordsRead, cooperation, word, words};
use pepa_lexer::Sign;
use std::alloc::{AllocError, Global};
use token_grammar::{PartEnd, Terminal, Text};

/// The rate of an activity, and the index behind its point.
#[derive(Debug, Drop)]
pub(crate) struct ActivityRead {
    pub rate: RateTree,
    pub next: usize,
}

/// A process, and the index behind it.
#[derive(Debug, Drop)]
pub(crate) struct ProcessRead {
    pub tree: ProcessTree,
    pub next: usize,
}

/// The activity whose `(` stands at the index and whose word stands before `comma`, up to its point.
fn activity(alloc: Global, text: &Text, at: usize, comma: usize) -> Result<ActivityRead, PartEnd>
    requires { BeginsActivity (kinds_of text.now) at comma }
    ensures { ReadsActivity (kinds_of text.now) at result }
{
    let start = text.expect(comma, Terminal::Mark(Sign::Comma))?;
    let RateRead { tree: rate, next } = rate(alloc, text, start)?;
    let dot = text.expect(next, Terminal::Mark(Sign::Closing))?;
    let next = text.expect(dot, Terminal::Mark(Sign::Dot))?;
    Ok(ActivityRead { rate, next })
}

/// An activity and what follows it, a constant, or a process in brackets.
#[cycle(process)]
fn prefix(alloc: Global, text: &Text, at: usize) -> Result<ProcessRead, PartEnd>
    ensures { ReadsPrefix (kinds_of text.now) at result }
{
    if let Some(next) = text.after(at, Terminal::Capital) {
        let tree = ProcessTree::Constant(at);
        return Ok(ProcessRead { tree, next });
    }
    let inside = text.expect(at, Terminal::Mark(Sign::Opening))?;
    if let Some(comma) = word(text, inside) {
        let activity = activity(alloc, text, at, comma)?;
        let rest = prefix(alloc, text, activity.next)?;
        let read = performing(alloc, at, activity.rate, rest)?;
        return Ok(read);
    }
    let ProcessRead { tree, next } = process(alloc, text, inside)?;
    let next = text.expect(next, Terminal::Mark(Sign::Closing))?;
    Ok(ProcessRead { tree, next })
}

/// A prefix with hidings behind it.
#[cycle(process)]
fn hidden(alloc: Global, text: &Text, at: usize) -> Result<ProcessRead, PartEnd>
    ensures { ReadsHidden (kinds_of text.now) at result }
{
    let mut read = prefix(alloc, text, at)?;
    while let Some(brace) = text.after(read.next, Terminal::Mark(Sign::Slash)) {
        let inside = text.expect(brace, Terminal::Mark(Sign::OpeningBrace))?;
        let words = words(alloc, text, inside, Terminal::Mark(Sign::ClosingBrace))?;
        read = hiding(alloc, read, words)?;
    }
    Ok(read)
}

/// Components with `+` between them, left first.
#[cycle(process)]
fn choice(alloc: Global, text: &Text, at: usize) -> Result<ProcessRead, PartEnd>
    ensures { ReadsChoice (kinds_of text.now) at result }
{
    let mut read = hidden(alloc, text, at)?;
    while let Some(behind) = text.after(read.next, Terminal::Mark(Sign::Plus)) {
        let right = hidden(alloc, text, behind)?;
        read = chosen(alloc, read, right)?;
    }
    Ok(read)
}

/// Choices with cooperations between them, left first.
#[cycle(process)]
pub(crate) fn process(alloc: Global, text: &Text, at: usize) -> Result<ProcessRead, PartEnd>
    ensures { ReadsProcess (kinds_of text.now) at result }
{
    let mut read = choice(alloc, text, at)?;
    while let Some(words) = cooperation(alloc, text, read.next)? {
        let right = choice(alloc, text, words.next)?;
        read = cooperating(alloc, read, words.set, right)?;
    }
    Ok(read)
}

/// An activity, whose `(` stands at the index, and what follows it.
fn performing(
    alloc: Global,
    at: usize,
    rate: RateTree,
    rest: ProcessRead,
) -> Result<ProcessRead, AllocError>
    ensures { IfOk result (λ read. IsPerforming at rate rest read) }
{
    let tree = ProcessTree::Prefix {
        at,
        rate,
        next: Box::new(alloc, rest.tree)?,
    };
    let next = rest.next;
    Ok(ProcessRead { tree, next })
}

/// A process with the words of a hiding behind it.
fn hiding(alloc: Global, inner: ProcessRead, words: WordsRead) -> Result<ProcessRead, AllocError>
    ensures { IfOk result (λ read. IsHidingOf inner words read) }
{
    let tree = ProcessTree::Hide {
        inner: Box::new(alloc, inner.tree)?,
        set: words.set,
    };
    let next = words.next;
    Ok(ProcessRead { tree, next })
}

/// The choice between two processes.
fn chosen(alloc: Global, left: ProcessRead, right: ProcessRead) -> Result<ProcessRead, AllocError>
    ensures { IfOk result (λ read. IsChoiceRead left right read) }
{
    let tree = ProcessTree::Choice(Box::new(alloc, left.tree)?, Box::new(alloc, right.tree)?);
    let next = right.next;
    Ok(ProcessRead { tree, next })
}

/// The cooperation of two processes, whose sign stands at once behind the left one.
fn cooperating(
    alloc: Global,
    left: ProcessRead,
    set: Indices,
    right: ProcessRead,
) -> Result<ProcessRead, AllocError>
    ensures { IfOk result (λ read. IsCooperating left set right read) }
{
    let tree = ProcessTree::Coop {
        at: left.next,
        left: Box::new(alloc, left.tree)?,
        right: Box::new(alloc, right.tree)?,
        set,
    };
    let next = right.next;
    Ok(ProcessRead { tree, next })
}
