//! Probe expressions of one or two letters, and their tables.

use probe_automata::{BuildFault, build};
use probe_words::{Expr, Guard, Letter, ProbeTable, Relation, positions};
use std::alloc::{AllocError, Global};
use std::process::Abort;

/// Label 0, which each expression sends at its first letter.
pub const START: u32 = 0;

/// Label 1, which each expression sends at its second letter.
pub const STOP: u32 = 1;

/// A form of expressions.
#[derive(Clone, Copy, Debug)]
pub enum Form {
    /// `letter:start`
    One(Letter),
    /// `first:start, second:stop`
    Pair(Letter, Letter),
    /// `{n > 1} letter:start`, where n is the count 0
    Guarded(Letter),
}

/// `letter:label`
fn labelled(alloc: Global, letter: Letter, label: u32) -> Result<Expr, AllocError> {
    Ok(Expr::Label(Box::new(alloc, Expr::One(letter))?, label))
}

fn pair(alloc: Global, first: Letter, second: Letter) -> Result<Expr, AllocError> {
    let left = Box::new(alloc, labelled(alloc, first, START)?)?;
    let right = Box::new(alloc, labelled(alloc, second, STOP)?)?;
    Ok(Expr::Then(left, right))
}

fn guarded(alloc: Global, letter: Letter) -> Result<Expr, AllocError> {
    let guard = Guard::Count {
        which: 0,
        relation: Relation::More,
        number: 1,
    };
    let inner = Box::new(alloc, labelled(alloc, letter, START)?)?;
    Ok(Expr::Guarded(guard, inner))
}

/// The expression of this form.
fn expression(alloc: Global, form: Form) -> Result<Expr, AllocError> {
    match form {
        Form::One(letter) => labelled(alloc, letter, START),
        Form::Pair(first, second) => pair(alloc, first, second),
        Form::Guarded(letter) => guarded(alloc, letter),
    }
}

/// The table of an expression, or why there is none; want of memory too where there are too many positions.
fn table_of(rt: &impl Abort, alloc: Global, expr: &Expr) -> Result<ProbeTable, BuildFault> {
    assert!(rt; expr.is_proper());
    match positions(alloc, expr) {
        Ok(found) => build(alloc, &found),
        Err(_) => Err(BuildFault::Memory),
    }
}

/// The table of the expression of this form.
pub fn table_for(rt: &impl Abort, alloc: Global, form: Form) -> Result<ProbeTable, BuildFault> {
    let expr = expression(alloc, form)?;
    table_of(rt, alloc, &expr)
}
