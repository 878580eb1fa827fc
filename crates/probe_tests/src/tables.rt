//! Tables of probes: what they answer to lists of events.

use crate::expressions::{letter, read};
use crate::heard::{table_1, table_2, table_3, table_4};
use probe_automata::{BuildFault, Move, build, table_next};
use probe_words::{Expr, Guards, Letter, ProbeTable, positions};
use std::alloc::{AllocError, Global};
use std::fmt::Write;
use std::process::Abort;
use std::test::Fail;

/// The table of an expression, or why there is none; want of memory too where there are too many positions.
fn table_of(rt: &impl Abort, alloc: Global, expr: &Expr) -> Result<ProbeTable, BuildFault> {
    assert!(rt; expr.is_proper());
    match positions(alloc, expr) {
        Ok(found) => build(alloc, &found),
        Err(_) => Err(BuildFault::Memory),
    }
}

/// The table of an expression in the short notation.
fn table_for(rt: &impl Abort, alloc: Global, text: &str) -> Result<ProbeTable, BuildFault> {
    match read(alloc, text)? {
        Some(expr) => table_of(rt, alloc, &expr),
        None => Err(BuildFault::Memory),
    }
}

/// How many states the table has; 0 where there is none.
fn states_of(table: &Result<ProbeTable, BuildFault>) -> u32 {
    match table {
        Ok(table) => table.states,
        Err(_) => 0,
    }
}

/// The valuation of the guards for these counts.
fn valuation(rt: &impl Abort, guards: &Guards, counts: &[u32]) -> u32 {
    assert!(rt; guards.len() <= 4);
    let mut bits = 0u32;
    for (at, guard) in guards.as_slice().iter().enumerate() {
        assert!(rt; guard.asks_below(counts.len()));
        if guard.holds(counts) {
            bits |= 1u32 << at;
        }
    }
    bits
}

/// The table's answer to one event.
fn answer(rt: &impl Abort, table: &ProbeTable, state: u32, letter: Letter, counts: &[u32]) -> Move {
    let valuation = valuation(rt, &table.guards, counts);
    assert!(rt; state < table.states);
    assert!(rt; table.guards.len() <= 4 && valuation < 1u32 << table.guards.len());
    table_next(table, state, &letter, valuation)
}

/// A digit as a number.
fn digit(digits: &[u8], at: usize) -> u32 {
    match digits.get(at) {
        Some(digit) => u32::from(digit.wrapping_sub(b'0')),
        None => 0,
    }
}

/// The answers to events, such as `a1:12` (the counts are 1 and 2): `-`, or `+` and the labels.
fn write_answers(
    rt: &impl Abort,
    out: &mut String,
    table: &ProbeTable,
    events: &str,
) -> Result<(), AllocError> {
    let mut state = 0;
    for event in events.split(" ") {
        let (name, counts) = event.split_once(":").unwrap_or((event, "11"));
        let counts = counts.as_bytes();
        let counts = [digit(counts, 0), digit(counts, 1)];
        let found = answer(rt, table, state, letter(name), &counts);
        let signals = found.signals;
        if !out.is_empty() {
            out.push_str(" ")?;
        }
        if found.heard {
            write!(out, "+{signals}")?;
        } else {
            out.push_str("-")?;
        }
        state = found.state;
    }
    Ok(())
}

/// The answers of an expression's table to events, as text.
fn answers_of(
    rt: &impl Abort,
    alloc: Global,
    expr: &str,
    events: &str,
) -> Result<String, AllocError> {
    let mut out = String::new(alloc);
    let table = table_for(rt, alloc, expr);
    match &table {
        Ok(table) => write_answers(rt, &mut out, table, events)?,
        Err(BuildFault::TooManyGuards) => out.push_str("too many guards")?,
        Err(BuildFault::TooManyStates) => out.push_str("too many states")?,
        Err(BuildFault::Memory) => out.push_str("no memory")?,
    }
    Ok(out)
}

/// Compares the cases of a table: an expression, ` = `, events, ` = `, and their answers.
fn are_heard(rt: &impl Abort, alloc: Global, table: &str) -> Result<(), Fail> {
    for line in table.lines() {
        for case in line.split(" ; ") {
            let (expr, rest) = case.split_once(" = ").unwrap_or(("", ""));
            let (events, want) = rest.split_once(" = ").unwrap_or(("", ""));
            let found = answers_of(rt, alloc, expr, events)?;
            assert_eq!(rt; found.as_str(), want, "{expr} on {events}");
        }
    }
    Ok(())
}

// Thousands of expressions against the second program.
#[test]
fn what_is_heard_1(rt: HostRuntime) -> Result<(), Fail> {
    are_heard(&rt, rt.alloc(), table_1::HEARD)
}

#[test]
fn what_is_heard_2(rt: HostRuntime) -> Result<(), Fail> {
    are_heard(&rt, rt.alloc(), table_2::HEARD)
}

#[test]
fn what_is_heard_3(rt: HostRuntime) -> Result<(), Fail> {
    are_heard(&rt, rt.alloc(), table_3::HEARD)
}

#[test]
fn what_is_heard_4(rt: HostRuntime) -> Result<(), Fail> {
    are_heard(&rt, rt.alloc(), table_4::HEARD)
}

// A pair of letters that is begun and ended; a letter, or two of which the second ends, where the expression begins anew.
#[test]
fn pairs(rt: HostRuntime) -> Result<(), Fail> {
    are_heard(
        &rt,
        rt.alloc(),
        "a1 :0 a2 :1 , = a1:11 a3:11 a1:11 a2:11 = +1 - - +2
a1 a1 a2 :1 , | = a1:11 a1:11 a2:11 a2:11 = +0 +0 +2 -",
    )
}

// 1,024 states: three machines that keep which of the last letters were the first of two, and a chain.
const LARGEST: &str =
    "a1 a2 | * a1 , a1 a2 | #8 , a1 , s1 s2 | * s1 , s1 s2 | #6 , s1 , | a3 a4 | * a3 , a3 a4 | #4 , a3 , | a5 #15 |";

// The start, and the sets that are reached; of four guarded letters any but none at once.
#[test]
fn numbers_of_states(rt: HostRuntime) {
    for (text, want) in [
        ("a1 :0 a2 :1 ,", 3),
        ("a1 a1 a2 :1 , |", 3),
        ("a1 {0-0", 1),
        ("a1 #63", 64),
        ("a1 g0 a1 g1 | a1 g2 | a1 g3 |", 16),
        (LARGEST, 1024),
    ] {
        let table = table_for(&rt, rt.alloc(), text);
        assert_eq!(rt; states_of(&table), want, "{text}");
    }
}

// Equal guards once, five distinct ones, and 1,025 states.
#[test]
fn limits_of_tables(rt: HostRuntime) -> Result<(), Fail> {
    for (text, events, want) in [
        ("a1 g0 g1 g0 g1", "a1:22 a1:12", "+0 -"),
        ("a1 g0 g1 g2 g3 g4", "a1", "too many guards"),
        ("a1 a2 | * a1 , a1 a2 | #8 ,", "a1 a2", "+0 +0"),
        ("a1 a2 | * a1 , a1 a2 | #9 ,", "a1 a2", "too many states"),
    ] {
        let found = answers_of(&rt, rt.alloc(), text, events)?;
        assert_eq!(rt; found.as_str(), want, "{text}");
    }
    Ok(())
}
