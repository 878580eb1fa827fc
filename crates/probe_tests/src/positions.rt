//! Positions of expressions: the table that the second program writes, and expressions worked out by hand.

use crate::expressions::{read, write_positions};
use crate::position_table::{EDGES, FORMS};
use probe_words::{Expr, Positions, PositionsFault, positions};
use std::alloc::{AllocError, Global};
use std::process::Abort;
use std::test::Fail;

/// What the table has for these positions, or for having none.
fn answer_text(
    alloc: Global,
    answer: &Result<Positions, PositionsFault>,
) -> Result<String, AllocError> {
    let mut text = String::new(alloc);
    match answer {
        Ok(found) => write_positions(&mut text, found)?,
        Err(PositionsFault::TooManyPositions) => text.push_str("too many")?,
        Err(PositionsFault::Memory) => text.push_str("no memory")?,
    }
    Ok(text)
}

/// The positions of an expression, as text.
fn positions_text(rt: &impl Abort, alloc: Global, expr: &Expr) -> Result<String, AllocError> {
    assert!(rt; expr.is_proper());
    let answer = positions(alloc, expr);
    answer_text(alloc, &answer)
}

/// Compares each line of a table: an expression, ` = `, and its positions.
fn has_positions(rt: &impl Abort, alloc: Global, table: &str) -> Result<(), Fail> {
    for line in table.lines() {
        let (text, want) = line.split_once(" = ").unwrap_or(("", ""));
        let expr = read(alloc, text)?;
        assert!(rt; expr.is_some(), "{line}");
        if let Some(expr) = expr {
            let found = positions_text(rt, alloc, &expr)?;
            assert_eq!(rt; found.as_str(), want, "{text}");
        }
    }
    Ok(())
}

// Each form over each other one.
#[test]
fn each_form_over_each_other(rt: HostRuntime) -> Result<(), Fail> {
    assert_eq!(rt; FORMS.lines().count(), 156);
    has_positions(&rt, rt.alloc(), FORMS)
}

// Guards, labels and repeats at their ends, and sizes of 62, 63 and more.
#[test]
fn edges(rt: HostRuntime) -> Result<(), Fail> {
    assert_eq!(rt; EDGES.lines().count(), 44);
    has_positions(&rt, rt.alloc(), EDGES)
}
