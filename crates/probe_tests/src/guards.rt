//! Guards, and copies of guards, expressions and probes.

use crate::expressions::{read, write_positions};
use probe_words::{
    Expr, Guard, Guards, Letters, PositionsFault, Probe, ProbeTable, Relation, Words16, Words32,
    Words64, positions,
};
use std::alloc::{AllocError, Global};
use std::process::Abort;
use std::test::Fail;

fn count(which: u32, relation: Relation, number: u32) -> Guard {
    Guard::Count {
        which,
        relation,
        number,
    }
}

fn holds(rt: &impl Abort, guard: &Guard, counts: &[u32]) -> bool {
    assert!(rt; guard.asks_below(counts.len()));
    guard.holds(counts)
}

// Each relation with a count below the number, at it, and above it.
#[test]
fn relations(rt: HostRuntime) {
    for (relation, want) in [
        (Relation::Less, [true, false, false]),
        (Relation::AtMost, [true, true, false]),
        (Relation::More, [false, false, true]),
        (Relation::AtLeast, [false, true, true]),
        (Relation::Equal, [false, true, false]),
        (Relation::Unequal, [true, false, true]),
    ] {
        let guard = count(1, relation, 7);
        let found = [
            holds(&rt, &guard, &[7, 6]),
            holds(&rt, &guard, &[9, 7]),
            holds(&rt, &guard, &[7, 8]),
        ];
        assert_eq!(rt; found, want, "{relation:?}");
    }
}

/// `P > 1 && !(Q > 1)`, or with `||` in place of `&&`.
fn joined(alloc: Global, both: bool) -> Result<Guard, AllocError> {
    let left = Box::new(alloc, count(0, Relation::More, 1))?;
    let inner = Box::new(alloc, count(1, Relation::More, 1))?;
    let right = Box::new(alloc, Guard::Not(inner))?;
    Ok(if both {
        Guard::Both(left, right)
    } else {
        Guard::Either(left, right)
    })
}

#[test]
fn joined_guards(rt: HostRuntime) -> Result<(), Fail> {
    let both = joined(rt.alloc(), true)?;
    let either = joined(rt.alloc(), false)?;
    for (counts, wants_both, wants_either) in [
        ([1, 1], false, true),
        ([1, 2], false, false),
        ([2, 1], true, true),
        ([2, 2], false, true),
    ] {
        assert_eq!(rt; holds(&rt, &both, &counts), wants_both);
        assert_eq!(rt; holds(&rt, &either, &counts), wants_either);
    }
    assert!(rt; !both.asks_below(1));
    assert!(rt; !both.is_same(&either));
    let copy = both.copy(rt.alloc())?;
    assert!(rt; both.is_same(&copy));
    Ok(())
}

/// The positions of an expression, as text; none where it isn't proper or there are too many.
fn text_of(alloc: Global, expr: &Expr) -> Result<String, AllocError> {
    let mut text = String::new(alloc);
    if expr.is_proper() {
        match positions(alloc, expr) {
            Ok(found) => write_positions(&mut text, &found)?,
            Err(PositionsFault::TooManyPositions) => {}
            Err(PositionsFault::Memory) => {}
        }
    }
    Ok(text)
}

#[test]
fn a_copy_of_an_expression(rt: HostRuntime) -> Result<(), Fail> {
    let text = "a1 g0 a2 :1 , s3 | * + ? #2 {1-2 /s1";
    let expr = read(rt.alloc(), text)?;
    assert!(rt; expr.is_some());
    if let Some(expr) = expr {
        let found = text_of(rt.alloc(), &expr)?;
        let copy = expr.copy(rt.alloc())?;
        assert!(rt; !found.is_empty());
        assert_eq!(rt; text_of(rt.alloc(), &copy)?.as_str(), found.as_str());
    }
    Ok(())
}

// A count of 64, a first count above the second, and a label of 64.
#[test]
fn expressions_that_are_not_proper(rt: HostRuntime) -> Result<(), Fail> {
    for text in ["a1 #64", "a1 {2-1", "a1 {1-64", "a1 :64", "a1 :64 a2 ,"] {
        let is_proper = match read(rt.alloc(), text)? {
            Some(expr) => expr.is_proper(),
            None => true,
        };
        assert!(rt; !is_proper, "{text}");
    }
    Ok(())
}

/// A probe that hears nothing: its table has the start alone.
fn deaf_probe(alloc: Global, expr: Expr) -> Result<Probe, AllocError> {
    let mut signals = Words64::new(alloc);
    signals.push(0)?;
    let table = ProbeTable {
        states: 1,
        letters: Letters::new(alloc),
        guards: Guards::new(alloc),
        moves: Words16::new(alloc),
        signals,
    };
    Ok(Probe {
        target: Some(3),
        copy: 1,
        expr,
        counted: Words32::new(alloc),
        table,
    })
}

#[test]
fn a_copy_of_a_probe(rt: HostRuntime) -> Result<(), Fail> {
    if let Some(expr) = read(rt.alloc(), "a1 {0-0")? {
        let probe = deaf_probe(rt.alloc(), expr)?;
        let copy = probe.copy(rt.alloc())?;
        assert_eq!(rt; copy.target, Some(3));
        assert_eq!(rt; copy.table.signals.len(), 1);
    }
    Ok(())
}
