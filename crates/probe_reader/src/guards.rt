//! Guards: comparisons of counts, `!`, `&&` and `||`.

ghost use Rattle.std.specs.Prelude.{IfOk};
ghost use Rattle.token_grammar.specs.Cursors.{kinds_of};
ghost use Rattle.probe_reader.specs.ProbeReading.{ExpectsRelation, ReadsNegation, ReadsConjunction, ReadsGuard, IsNegated, IsBoth, IsEither};

use crate::trees::GuardTree;
use fault_ends::End;
use pepa_lexer::Sign;
use std::alloc::{AllocError, Global};
use token_grammar::{PartEnd, Terminal, Text};

/// A guard, and the index after it.
#[derive(Debug, Drop)]
pub(crate) struct GuardRead {
    pub tree: GuardTree,
    pub next: usize,
}

/// The index after the relation, which has to be at the index.
fn relation(text: &Text, at: usize) -> Result<usize, PartEnd>
    ensures { ExpectsRelation (kinds_of text.now) at result }
{
    if let Some(next) = text.after(at, Terminal::Mark(Sign::Less)) {
        return Ok(next);
    }
    if let Some(next) = text.after(at, Terminal::Mark(Sign::LessOrEqual)) {
        return Ok(next);
    }
    if let Some(next) = text.after(at, Terminal::Mark(Sign::Greater)) {
        return Ok(next);
    }
    if let Some(next) = text.after(at, Terminal::Mark(Sign::GreaterOrEqual)) {
        return Ok(next);
    }
    if let Some(next) = text.after(at, Terminal::Mark(Sign::EqualTo)) {
        return Ok(next);
    }
    match text.after(at, Terminal::Mark(Sign::NotEqualTo)) {
        Some(next) => Ok(next),
        None => Err(End::Fault(at)),
    }
}

/// A comparison, a guard in brackets, or one of them after `!`.
#[cycle(guard)]
fn negation(alloc: Global, text: &Text, at: usize) -> Result<GuardRead, PartEnd>
    ensures { ReadsNegation (kinds_of text.now) at result }
{
    if let Some(inside) = text.after(at, Terminal::Mark(Sign::Not)) {
        let inner = negation(alloc, text, inside)?;
        let read = negated(alloc, inner)?;
        return Ok(read);
    }
    if let Some(inside) = text.after(at, Terminal::Mark(Sign::Opening)) {
        let GuardRead { tree, next } = guard(alloc, text, inside)?;
        let next = text.expect(next, Terminal::Mark(Sign::Closing))?;
        return Ok(GuardRead { tree, next });
    }
    let sign = text.expect(at, Terminal::Capital)?;
    let number = relation(text, sign)?;
    let next = text.expect(number, Terminal::Number)?;
    let tree = GuardTree::Count {
        which: at,
        relation: sign,
        number,
    };
    Ok(GuardRead { tree, next })
}

/// Negations with `&&` between them, left first.
#[cycle(guard)]
fn conjunction(alloc: Global, text: &Text, at: usize) -> Result<GuardRead, PartEnd>
    ensures { ReadsConjunction (kinds_of text.now) at result }
{
    let mut read = negation(alloc, text, at)?;
    while let Some(behind) = text.after(read.next, Terminal::Mark(Sign::And)) {
        let right = negation(alloc, text, behind)?;
        read = both(alloc, read, right)?;
    }
    Ok(read)
}

/// Conjunctions with `||` between them, left first.
#[cycle(guard)]
pub(crate) fn guard(alloc: Global, text: &Text, at: usize) -> Result<GuardRead, PartEnd>
    ensures { ReadsGuard (kinds_of text.now) at result }
{
    let mut read = conjunction(alloc, text, at)?;
    while let Some(behind) = text.after(read.next, Terminal::Mark(Sign::Or)) {
        let right = conjunction(alloc, text, behind)?;
        read = either(alloc, read, right)?;
    }
    Ok(read)
}

/// A guard after a `!`.
fn negated(alloc: Global, inner: GuardRead) -> Result<GuardRead, AllocError>
    ensures { IfOk result (λ read. IsNegated inner read) }
{
    let tree = GuardTree::Not(Box::new(alloc, inner.tree)?);
    let next = inner.next;
    Ok(GuardRead { tree, next })
}

/// Two guards that both have to hold.
fn both(alloc: Global, left: GuardRead, right: GuardRead) -> Result<GuardRead, AllocError>
    ensures { IfOk result (λ read. IsBoth left right read) }
{
    let tree = GuardTree::Both(Box::new(alloc, left.tree)?, Box::new(alloc, right.tree)?);
    let next = right.next;
    Ok(GuardRead { tree, next })
}

/// Two guards of which one has to hold.
fn either(alloc: Global, left: GuardRead, right: GuardRead) -> Result<GuardRead, AllocError>
    ensures { IfOk result (λ read. IsEither left right read) }
{
    let tree = GuardTree::Either(Box::new(alloc, left.tree)?, Box::new(alloc, right.tree)?);
    let next = right.next;
    Ok(GuardRead { tree, next })
}
