//! The items of a file: rate lines, process lines, probe lines and the system.

ghost use Rattle.std.specs.Prelude.{drop};
ghost use Rattle.token_grammar.specs.Cursors.{kinds_of, Begins, IsAt};
ghost use Rattle.token_grammar.specs.SmallNames.{SmallName, NoSmall};
ghost use Rattle.pepa_reader.specs.ItemReading.{IsRateHead, IsLineHead, NoLineHead, FindsLineHead, ReadsTarget, ReadsExpression, ReadsEnding, ReadsItem};

use crate::processes::{ProcessRead, process};
use crate::rates::{RateRead, rate};
use crate::trees::{ProbeLine, ProcessLine, ProcessTree, RateLine};
use fault_ends::End;
use pepa_lexer::Sign;
use probe_reader::{ProbeRead, ProbeTextFault, read_probe};
use std::alloc::Global;
use token_grammar::{PartEnd, Terminal, Text};

/// An item of a file.
#[derive(Debug, Drop)]
pub(crate) enum Item {
    Rate(RateLine),
    Process(ProcessLine),
    Probe(ProbeLine),
    System(ProcessTree),
}

/// An item, and the index behind it.
#[derive(Debug, Drop)]
pub(crate) struct ItemRead {
    pub item: Item,
    pub next: usize,
}

/// The target of a probe line, if it has one, and the index after it.
#[derive(Clone, Copy, Debug)]
pub(crate) struct TargetRead {
    pub target: Option<usize>,
    pub next: usize,
}

/// The rate line whose name is at the index, and which goes on after its `=`.
fn rate_line(alloc: Global, text: &Text, at: usize, start: usize) -> Result<ItemRead, PartEnd>
    requires { (name : SmallName) × IsRateHead (kinds_of text.now) at start name }
    ensures { ReadsItem (kinds_of text.now) at result }
{
    let RateRead { tree: rate, next } = rate(alloc, text, start)?;
    let next = text.expect(next, Terminal::Mark(Sign::Semicolon))?;
    let item = Item::Rate(RateLine { at, rate });
    Ok(ItemRead { item, next })
}

/// The rate line whose name is at the index and isn't `probe`.
fn named_line(alloc: Global, text: &Text, at: usize, equals: usize) -> Result<ItemRead, PartEnd>
    requires { IsAt (kinds_of text.now) at equals Terminal.Small }
    ensures { ReadsItem (kinds_of text.now) at result }
{
    let start = text.expect(equals, Terminal::Mark(Sign::Equals))?;
    rate_line(alloc, text, at, start)
}

/// The target of a probe line at the index, if there is one.
fn target(text: &Text, at: usize) -> Result<TargetRead, PartEnd>
    ensures { ReadsTarget (kinds_of text.now) at result }
{
    let Some(colons) = text.after(at, Terminal::Capital) else {
        return Ok(TargetRead {
            target: None,
            next: at,
        });
    };
    let next = text.expect(colons, Terminal::Mark(Sign::DoubleColon))?;
    Ok(TargetRead {
        target: Some(at),
        next,
    })
}

/// The expression of a probe that begins at the index.
fn expression(alloc: Global, text: &Text, at: usize) -> Result<ProbeRead, PartEnd>
    ensures { ReadsExpression (kinds_of text.now) at result }
{
    match read_probe(alloc, text.tokens, text.input, at, text.tokens.len()) {
        Ok(read) => Ok(read),
        Err(ProbeTextFault::Expected(i)) => Err(End::Fault(i)),
        Err(ProbeTextFault::Memory) => Err(End::Memory),
    }
}

/// The probe line whose `probe` is at the index, and which goes on at `start`.
fn probe_line(alloc: Global, text: &Text, at: usize, start: usize) -> Result<ItemRead, PartEnd>
    requires probe { IsAt (kinds_of text.now) at start Terminal.Probe }
    requires line { ¬ Begins (drop start (kinds_of text.now)) (Terminal.Mark Sign.Equals) }
    ensures { ReadsItem (kinds_of text.now) at result }
{
    let TargetRead { target, next } = target(text, start)?;
    let ProbeRead { tree: expr, next } = expression(alloc, text, next)?;
    let next = text.expect(next, Terminal::Mark(Sign::Semicolon))?;
    let item = Item::Probe(ProbeLine { at, target, expr });
    Ok(ItemRead { item, next })
}

/// The line whose `probe` is at the index: a rate line where a `=` is after it, else a probe line.
fn probing_line(alloc: Global, text: &Text, at: usize, behind: usize) -> Result<ItemRead, PartEnd>
    requires { IsAt (kinds_of text.now) at behind Terminal.Probe }
    ensures { ReadsItem (kinds_of text.now) at result }
{
    match text.after(behind, Terminal::Mark(Sign::Equals)) {
        Some(start) => rate_line(alloc, text, at, start),
        None => probe_line(alloc, text, at, behind),
    }
}

/// The index behind a constant and a `=`, if they stand at the index.
fn line_head(text: &Text, at: usize) -> Option<usize>
    ensures { FindsLineHead (kinds_of text.now) at result }
{
    let equals = text.after(at, Terminal::Capital)?;
    text.after(equals, Terminal::Mark(Sign::Equals))
}

/// The process line whose name stands at the index, and the index behind its `=`.
fn process_line(alloc: Global, text: &Text, at: usize, start: usize) -> Result<ItemRead, PartEnd>
    requires { IsLineHead (kinds_of text.now) at start }
    ensures { ReadsItem (kinds_of text.now) at result }
{
    let ProcessRead { tree: body, next } = process(alloc, text, start)?;
    let next = text.expect(next, Terminal::Mark(Sign::Semicolon))?;
    let item = Item::Process(ProcessLine { at, body });
    Ok(ItemRead { item, next })
}

/// The index behind the end of the text, which stands at the index, or behind a `;` there.
fn ending(text: &Text, at: usize) -> Result<usize, PartEnd>
    ensures { ReadsEnding (kinds_of text.now) at result }
{
    if let Some(next) = text.after(at, Terminal::End) {
        return Ok(next);
    }
    let end = text.expect(at, Terminal::Mark(Sign::Semicolon))?;
    text.expect(end, Terminal::End)
}

/// The system, with the end of the text.
fn system(alloc: Global, text: &Text, at: usize) -> Result<ItemRead, PartEnd>
    requires small { NoSmall (drop at (kinds_of text.now)) }
    requires line { NoLineHead (drop at (kinds_of text.now)) }
    ensures { ReadsItem (kinds_of text.now) at result }
{
    let ProcessRead { tree, next } = process(alloc, text, at)?;
    let next = ending(text, next)?;
    let item = Item::System(tree);
    Ok(ItemRead { item, next })
}

/// The item that begins at the index.
pub(crate) fn next_item(alloc: Global, text: &Text, at: usize) -> Result<ItemRead, PartEnd>
    ensures { ReadsItem (kinds_of text.now) at result }
{
    if let Some(behind) = text.after(at, Terminal::Probe) {
        return probing_line(alloc, text, at, behind);
    }
    if let Some(equals) = text.after(at, Terminal::Small) {
        return named_line(alloc, text, at, equals);
    }
    if let Some(start) = line_head(text, at) {
        return process_line(alloc, text, at, start);
    }
    system(alloc, text, at)
}
