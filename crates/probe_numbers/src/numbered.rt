//! Probe expressions with numbers in place of names.
ghost use Rattle.std.specs.Prelude.{◌≡◌, ℕ, nat_eq, IfOk};
ghost use Rattle.std.specs.List.{IsDistinct};
ghost use Rattle.probe_words.specs.Twins.{condition_of, pattern_of};
ghost use Rattle.probe_reader.specs.ProbeTrees.{guard_node_of, probe_node_of};
ghost use Rattle.probe_numbers.specs.BadCounts.{BadCountAt};
ghost use Rattle.probe_numbers.specs.NumberedProbes.{label_number, letter_at, relation_at, condition_in, pattern_with, HasGoodGuardCounts, HasGoodCounts, HasKnownNames, IsNumberedProbe};

use crate::counted::{add_of_probe, place_of};
use crate::names::ProbeNames;
use crate::whole::{GUARD_LIMIT, REPEAT_LIMIT, count};
use pepa_lexer::{Kind, Sign, Token};
use probe_reader::{GuardTree, ProbeTree};
use probe_words::{Expr, Guard, Letter, Relation, Words32};
use std::alloc::{AllocError, Global};

/// A probe expression with numbers.
#[derive(Debug, Drop)]
pub struct NumberedProbe {
    /// The expression. Its guards count by the place of a constant in `counted`.
    pub expr: Expr,
    /// The numbers of the constants that its guards count, each once, in the order of their first places.
    pub counted: Words32,
}

/// The number of the label that the name at the index denotes.
fn label<N: ProbeNames>(names: &N, at: usize) -> u32
    ensures { result ≡ label_number (N.meanings names.now) at }
{
    names.label(at).unwrap_or(0)
}

/// The action that the name at the index denotes, or else the label.
fn letter<N: ProbeNames>(names: &N, at: usize) -> Letter
    ensures { result ≡ letter_at (N.meanings names.now) at }
{
    match names.action(at) {
        Some(action) => Letter::Action(action),
        None => Letter::Signal(label(names, at)),
    }
}

/// The relation of the sign at the index.
fn relation(tokens: &[Token], at: usize) -> Relation
    ensures { result ≡ relation_at tokens.now at }
{
    let Some(token) = sqlite_items::at(tokens, at) else {
        return Relation::Unequal;
    };
    match token.kind {
        Kind::Sign(Sign::Less) => Relation::Less,
        Kind::Sign(Sign::LessOrEqual) => Relation::AtMost,
        Kind::Sign(Sign::Greater) => Relation::More,
        Kind::Sign(Sign::GreaterOrEqual) => Relation::AtLeast,
        Kind::Sign(Sign::EqualTo) => Relation::Equal,
        _ => Relation::Unequal,
    }
}

/// The guard with numbers.
fn guard<N: ProbeNames>(
    alloc: Global,
    tokens: &[Token],
    names: &N,
    counted: &[u32],
    tree: &GuardTree,
) -> Result<Guard, AllocError>
    requires once { IsDistinct nat_eq counted.now }
    requires counts { HasGoodGuardCounts tokens.now (guard_node_of tree.now) }
    ensures { IfOk result (λ guard. condition_of guard
        ≡ condition_in tokens.now (N.meanings names.now) counted.now (guard_node_of tree.now)) }
{
    match tree {
        GuardTree::Count {
            which: constant,
            relation: sign,
            number,
        } => Ok(Guard::Count {
            which: place_of(counted, names.constant(*constant).unwrap_or(0)),
            relation: relation(tokens, *sign),
            number: count(tokens, *number, GUARD_LIMIT),
        }),
        GuardTree::Both(left, right) => {
            let left = Box::new(alloc, guard(alloc, tokens, names, counted, left)?)?;
            let right = Box::new(alloc, guard(alloc, tokens, names, counted, right)?)?;
            Ok(Guard::Both(left, right))
        }
        GuardTree::Either(left, right) => {
            let left = Box::new(alloc, guard(alloc, tokens, names, counted, left)?)?;
            let right = Box::new(alloc, guard(alloc, tokens, names, counted, right)?)?;
            Ok(Guard::Either(left, right))
        }
        GuardTree::Not(inner) => {
            let inner = Box::new(alloc, guard(alloc, tokens, names, counted, inner)?)?;
            Ok(Guard::Not(inner))
        }
    }
}

/// The expression with numbers.
fn expression<N: ProbeNames>(
    alloc: Global,
    tokens: &[Token],
    names: &N,
    counted: &[u32],
    tree: &ProbeTree,
) -> Result<Expr, AllocError>
    requires once { IsDistinct nat_eq counted.now }
    requires counts { HasGoodCounts tokens.now (probe_node_of tree.now) }
    ensures { IfOk result (λ expr. pattern_of expr
        ≡ pattern_with tokens.now (N.meanings names.now) counted.now (probe_node_of tree.now)) }
{
    match tree {
        ProbeTree::One(at) => Ok(Expr::One(letter(names, *at))),
        ProbeTree::Then(left, right) => {
            let left = Box::new(alloc, expression(alloc, tokens, names, counted, left)?)?;
            let right = Box::new(alloc, expression(alloc, tokens, names, counted, right)?)?;
            Ok(Expr::Then(left, right))
        }
        ProbeTree::Or(left, right) => {
            let left = Box::new(alloc, expression(alloc, tokens, names, counted, left)?)?;
            let right = Box::new(alloc, expression(alloc, tokens, names, counted, right)?)?;
            Ok(Expr::Or(left, right))
        }
        ProbeTree::Label(inner, name) => {
            let inner = Box::new(alloc, expression(alloc, tokens, names, counted, inner)?)?;
            Ok(Expr::Label(inner, label(names, *name)))
        }
        ProbeTree::Star(inner) => {
            let inner = Box::new(alloc, expression(alloc, tokens, names, counted, inner)?)?;
            Ok(Expr::Star(inner))
        }
        ProbeTree::Plus(inner) => {
            let inner = Box::new(alloc, expression(alloc, tokens, names, counted, inner)?)?;
            Ok(Expr::Plus(inner))
        }
        ProbeTree::Maybe(inner) => {
            let inner = Box::new(alloc, expression(alloc, tokens, names, counted, inner)?)?;
            Ok(Expr::Maybe(inner))
        }
        ProbeTree::Times(inner, number) => {
            let inner = Box::new(alloc, expression(alloc, tokens, names, counted, inner)?)?;
            Ok(Expr::Times(inner, count(tokens, *number, REPEAT_LIMIT)))
        }
        ProbeTree::Between(inner, least, most) => {
            let inner = Box::new(alloc, expression(alloc, tokens, names, counted, inner)?)?;
            let least = count(tokens, *least, REPEAT_LIMIT);
            let most = count(tokens, *most, REPEAT_LIMIT);
            Ok(Expr::Between(inner, least, most))
        }
        ProbeTree::Reset(inner, at) => {
            let inner = Box::new(alloc, expression(alloc, tokens, names, counted, inner)?)?;
            Ok(Expr::Reset(inner, letter(names, *at)))
        }
        ProbeTree::Guarded(condition, inner) => {
            let condition = guard(alloc, tokens, names, counted, condition)?;
            let inner = Box::new(alloc, expression(alloc, tokens, names, counted, inner)?)?;
            Ok(Expr::Guarded(condition, inner))
        }
    }
}

/// The expression of a probe line with numbers, and the constants that its guards count.
///
/// A letter is the action of its name, where there is one, and else the label. The caller sees to it that the line has no bad count
/// and that each name is known: a letter is an action or a label, a label has a number below 64, and a constant has a number.
pub fn number_probe<N: ProbeNames>(
    alloc: Global,
    tokens: &[Token],
    names: &N,
    tree: &ProbeTree,
) -> Result<NumberedProbe, AllocError>
    requires counts { (i : ℕ) → ¬ BadCountAt tokens.now (probe_node_of tree.now) i }
    requires names { HasKnownNames (N.meanings names.now) (probe_node_of tree.now) }
    ensures { IfOk result (λ probe.
        IsNumberedProbe tokens.now (N.meanings names.now) (probe_node_of tree.now) probe) }
{
    let mut counted = Words32::new(alloc);
    add_of_probe(&mut counted, names, tree)?;
    let expr = expression(alloc, tokens, names, counted.as_slice(), tree)?;
    Ok(NumberedProbe { expr, counted })
}
