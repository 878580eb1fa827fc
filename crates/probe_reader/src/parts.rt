//! The parts of an expression: letters, brackets, parts with suffixes and with guards, sequences and alternatives.

ghost use Rattle.std.specs.Prelude.{IfOk};
ghost use Rattle.token_grammar.specs.Cursors.{kinds_of};
ghost use Rattle.probe_reader.specs.ProbeReading.{ReadsAtom, ReadsPostfixed, ReadsGuardedPart, ReadsSequence, ReadsAlternatives, IsSuffixed, IsGuardedBy, IsThen, IsOr};

use crate::guards::{GuardRead, guard};
use crate::suffixes::{SuffixRead, WrittenSuffix, suffix};
use crate::trees::{ProbeRead, ProbeTree};
use pepa_lexer::Sign;
use std::alloc::{AllocError, Global};
use token_grammar::{PartEnd, Terminal, Text};

/// A letter, or alternatives in brackets.
#[cycle(alternatives)]
fn atom(alloc: Global, text: &Text, at: usize) -> Result<ProbeRead, PartEnd>
    ensures { ReadsAtom (kinds_of text.now) at result }
{
    if let Some(next) = text.small(at) {
        let tree = ProbeTree::One(at);
        return Ok(ProbeRead { tree, next });
    }
    let inside = text.expect(at, Terminal::Mark(Sign::Opening))?;
    let ProbeRead { tree, next } = alternatives(alloc, text, inside)?;
    let next = text.expect(next, Terminal::Mark(Sign::Closing))?;
    Ok(ProbeRead { tree, next })
}

/// An atom with suffixes after it.
#[cycle(alternatives)]
fn postfixed(alloc: Global, text: &Text, at: usize) -> Result<ProbeRead, PartEnd>
    ensures { ReadsPostfixed (kinds_of text.now) at result }
{
    let mut read = atom(alloc, text, at)?;
    while let Some(suffix) = suffix(text, read.next)? {
        read = suffixed(alloc, read, suffix)?;
    }
    Ok(read)
}

/// A part with guards before it.
#[cycle(alternatives)]
fn guarded(alloc: Global, text: &Text, at: usize) -> Result<ProbeRead, PartEnd>
    ensures { ReadsGuardedPart (kinds_of text.now) at result }
{
    let Some(inside) = text.after(at, Terminal::Mark(Sign::OpeningBrace)) else {
        return postfixed(alloc, text, at);
    };
    let condition = guard(alloc, text, inside)?;
    let behind = text.expect(condition.next, Terminal::Mark(Sign::ClosingBrace))?;
    let inner = guarded(alloc, text, behind)?;
    let read = guarded_by(alloc, condition, inner)?;
    Ok(read)
}

/// Parts with `,` between them, left first.
#[cycle(alternatives)]
fn sequence(alloc: Global, text: &Text, at: usize) -> Result<ProbeRead, PartEnd>
    ensures { ReadsSequence (kinds_of text.now) at result }
{
    let mut read = guarded(alloc, text, at)?;
    while let Some(behind) = text.after(read.next, Terminal::Mark(Sign::Comma)) {
        let right = guarded(alloc, text, behind)?;
        read = then(alloc, read, right)?;
    }
    Ok(read)
}

/// Sequences with `|` between them, left first.
#[cycle(alternatives)]
pub(crate) fn alternatives(alloc: Global, text: &Text, at: usize) -> Result<ProbeRead, PartEnd>
    ensures { ReadsAlternatives (kinds_of text.now) at result }
{
    let mut read = sequence(alloc, text, at)?;
    while let Some(behind) = text.after(read.next, Terminal::Mark(Sign::Bar)) {
        let right = sequence(alloc, text, behind)?;
        read = or(alloc, read, right)?;
    }
    Ok(read)
}

/// An expression with a suffix after it.
fn suffixed(alloc: Global, inner: ProbeRead, read: SuffixRead) -> Result<ProbeRead, AllocError>
    ensures { IfOk result (λ all. IsSuffixed inner read all) }
{
    let part = Box::new(alloc, inner.tree)?;
    let tree = match read.suffix {
        WrittenSuffix::Label(name) => ProbeTree::Label(part, name),
        WrittenSuffix::Star => ProbeTree::Star(part),
        WrittenSuffix::Plus => ProbeTree::Plus(part),
        WrittenSuffix::Maybe => ProbeTree::Maybe(part),
        WrittenSuffix::Times(number) => ProbeTree::Times(part, number),
        WrittenSuffix::Between(least, most) => ProbeTree::Between(part, least, most),
        WrittenSuffix::Reset(name) => ProbeTree::Reset(part, name),
    };
    let next = read.next;
    Ok(ProbeRead { tree, next })
}

/// An expression with a guard before it.
fn guarded_by(
    alloc: Global,
    condition: GuardRead,
    inner: ProbeRead,
) -> Result<ProbeRead, AllocError>
    ensures { IfOk result (λ read. IsGuardedBy condition inner read) }
{
    let tree = ProbeTree::Guarded(condition.tree, Box::new(alloc, inner.tree)?);
    let next = inner.next;
    Ok(ProbeRead { tree, next })
}

/// Two expressions, one after the other.
fn then(alloc: Global, left: ProbeRead, right: ProbeRead) -> Result<ProbeRead, AllocError>
    ensures { IfOk result (λ read. IsThen left right read) }
{
    let tree = ProbeTree::Then(Box::new(alloc, left.tree)?, Box::new(alloc, right.tree)?);
    let next = right.next;
    Ok(ProbeRead { tree, next })
}

/// Two expressions, of which one is heard.
fn or(alloc: Global, left: ProbeRead, right: ProbeRead) -> Result<ProbeRead, AllocError>
    ensures { IfOk result (λ read. IsOr left right read) }
{
    let tree = ProbeTree::Or(Box::new(alloc, left.tree)?, Box::new(alloc, right.tree)?);
    let next = right.next;
    Ok(ProbeRead { tree, next })
}
