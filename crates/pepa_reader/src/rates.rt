//! Rates: sums and products of numbers and names, and passive rates.

ghost use Rattle.std.specs.Prelude.{◌≡◌, IfOk};
ghost use Rattle.pepa_reader.specs.Trees.{rate_node_of, BracketOf};
ghost use Rattle.token_grammar.specs.Cursors.{kinds_of};
ghost use Rattle.pepa_reader.specs.Reading.{FindsSumSign, FindsProductSign, FindsWeighted, IsOperation, ReadsFactor, ReadsProduct, ReadsSum, ReadsRate};

use crate::trees::RateTree;
use pepa_lexer::Sign;
use std::alloc::{AllocError, Global};
use token_grammar::{PartEnd, Terminal, Text};

/// A rate, and the index behind it.
#[derive(Debug, Drop)]
pub(crate) struct RateRead {
    pub tree: RateTree,
    pub next: usize,
}

/// The index behind the `+` or `-` at the index, if there is one.
fn sum_sign(text: &Text, at: usize) -> Option<usize>
    ensures { FindsSumSign (kinds_of text.now) at result }
{
    if let Some(next) = text.after(at, Terminal::Mark(Sign::Plus)) {
        return Some(next);
    }
    text.after(at, Terminal::Mark(Sign::Minus))
}

/// The index behind the `*` or `/` at the index, if there is one.
fn product_sign(text: &Text, at: usize) -> Option<usize>
    ensures { FindsProductSign (kinds_of text.now) at result }
{
    if let Some(next) = text.after(at, Terminal::Mark(Sign::Star)) {
        return Some(next);
    }
    text.after(at, Terminal::Mark(Sign::Slash))
}

/// A number, a name, or a sum in brackets.
#[cycle(rate)]
fn factor(alloc: Global, text: &Text, at: usize) -> Result<RateRead, PartEnd>
    ensures { ReadsFactor (kinds_of text.now) at result }
{
    if let Some(next) = text.after(at, Terminal::Number) {
        let tree = RateTree::Number(at);
        return Ok(RateRead { tree, next });
    }
    if let Some(next) = text.small(at) {
        let tree = RateTree::Name(at);
        return Ok(RateRead { tree, next });
    }
    let inside = text.expect(at, Terminal::Mark(Sign::Opening))?;
    let inner = sum(alloc, text, inside)?;
    let next = text.expect(inner.next, Terminal::Mark(Sign::Closing))?;
    let tree = bracketed(alloc, inner.tree)?;
    Ok(RateRead { tree, next })
}

/// Factors with `*` and `/` between them, left first.
#[cycle(rate)]
fn product(alloc: Global, text: &Text, at: usize) -> Result<RateRead, PartEnd>
    ensures { ReadsProduct (kinds_of text.now) at result }
{
    let mut read = factor(alloc, text, at)?;
    while let Some(behind) = product_sign(text, read.next) {
        let right = factor(alloc, text, behind)?;
        read = joined(alloc, read, right)?;
    }
    Ok(read)
}

/// Products with `+` and `-` between them, left first.
#[cycle(rate)]
fn sum(alloc: Global, text: &Text, at: usize) -> Result<RateRead, PartEnd>
    ensures { ReadsSum (kinds_of text.now) at result }
{
    let mut read = product(alloc, text, at)?;
    while let Some(behind) = sum_sign(text, read.next) {
        let right = product(alloc, text, behind)?;
        read = joined(alloc, read, right)?;
    }
    Ok(read)
}

/// A passive rate with a weight, if one stands at the index: the index behind it.
fn weighted(text: &Text, at: usize) -> Option<usize>
    ensures { FindsWeighted (kinds_of text.now) at result }
{
    let star = text.after(at, Terminal::Number)?;
    let top = text.after(star, Terminal::Mark(Sign::Star))?;
    text.after(top, Terminal::Top)
}

/// A whole rate.
pub(crate) fn rate(alloc: Global, text: &Text, at: usize) -> Result<RateRead, PartEnd>
    ensures { ReadsRate (kinds_of text.now) at result }
{
    if let Some(next) = text.after(at, Terminal::Top) {
        let tree = RateTree::Top { weight: None, at };
        return Ok(RateRead { tree, next });
    }
    if let Some(next) = weighted(text, at) {
        let tree = RateTree::Top {
            weight: Some(at),
            at: at + 2,
        };
        return Ok(RateRead { tree, next });
    }
    sum(alloc, text, at)
}

/// A rate in brackets.
fn bracketed(alloc: Global, inner: RateTree) -> Result<RateTree, AllocError>
    ensures { IfOk result (λ tree. rate_node_of tree ≡ BracketOf (rate_node_of inner)) }
{
    Ok(RateTree::Bracket(Box::new(alloc, inner)?))
}

/// Two rates and the operator between them, which stands at once behind the left one.
fn joined(alloc: Global, left: RateRead, right: RateRead) -> Result<RateRead, AllocError>
    ensures { IfOk result (λ read. IsOperation left right read) }
{
    let tree = RateTree::Op {
        at: left.next,
        left: Box::new(alloc, left.tree)?,
        right: Box::new(alloc, right.tree)?,
    };
    Ok(RateRead {
        tree,
        next: right.next,
    })
}
