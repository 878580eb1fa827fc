//! Texts of expressions: their bad counts, their expressions with numbers, and how large their tables are.

use crate::lists::names_of;
use crate::written::write_expr;
use pepa_lexer::{Token, tokens};
use probe_numbers::{TableFault, bad_count, has_known_names, number_probe, table_of};
use probe_reader::{ProbeTree, read_probe};
use probe_words::Expr;
use std::alloc::Global;
use std::fmt::Write;
use std::process::Abort;
use std::test::Fail;

// The states of an expression's table, or why it has none.
fn write_size(rt: &impl Abort, alloc: Global, out: &mut String, expr: &Expr) -> Result<(), Fail> {
    assert!(rt; expr.is_proper());
    match table_of(alloc, expr) {
        Ok(table) => write!(out, "{} states", table.states)?,
        Err(TableFault::TooLarge) => write!(out, "probe too large")?,
        Err(TableFault::Memory) => write!(out, "no memory")?,
    }
    Ok(())
}

// The index of a bad count; or the expression with numbers and the counted constants, and the size of its table where that is asked.
fn write_answer(
    rt: &impl Abort,
    alloc: Global,
    out: &mut String,
    tokens: &[Token],
    bytes: &[u8],
    tree: &ProbeTree,
    sized: bool,
) -> Result<(), Fail> {
    if let Some(index) = bad_count(tokens, tree) {
        write!(out, "bad {index}")?;
        return Ok(());
    }
    let names = names_of(alloc, tokens, bytes)?;
    assert!(rt; has_known_names(&names, tree));
    let probe = number_probe(alloc, tokens, &names, tree)?;
    if sized {
        return write_size(rt, alloc, out, &probe.expr);
    }
    write_expr(out, &probe.expr)?;
    for constant in probe.counted.as_slice() {
        write!(out, " {constant}")?;
    }
    Ok(())
}

fn answer(rt: &impl Abort, alloc: Global, text: &str, sized: bool) -> Result<String, Fail> {
    let bytes = text.as_bytes();
    assert!(rt; bytes.len() <= 1 << 20);
    let list = tokens(alloc, bytes)?;
    let limit = list.as_slice().len().saturating_sub(1);
    let mut out = String::new(alloc);
    match read_probe(alloc, list.as_slice(), bytes, 0, limit) {
        Ok(read) => write_answer(
            rt,
            alloc,
            &mut out,
            list.as_slice(),
            bytes,
            &read.tree,
            sized,
        )?,
        Err(_) => write!(out, "no expression")?,
    }
    Ok(out)
}

fn has_answers(
    rt: &impl Abort,
    alloc: Global,
    table: &[(&str, &str)],
    sized: bool,
) -> Result<(), Fail> {
    for (text, want) in table {
        let found = answer(rt, alloc, text, sized)?;
        assert_eq!(rt; found.as_str(), *want, "{text}");
    }
    Ok(())
}

#[test]
fn numbered(rt: HostRuntime) -> Result<(), Fail> {
    let table = [
        // A name that is an action and a label is the action.
        ("a", "A1"),
        ("l", "S2"),
        ("start, b | stop", "(| (, S0 A2) S1)"),
        ("a:a", "(: A1 3)"),
        ("b:stop*", "(* (: A2 1))"),
        ("c+?", "(? (+ A3))"),
        ("a 2.0", "(# A1 2)"),
        ("a 0{0.0,63.00}", "({ (# A1 0) 0 63)"),
        ("b/a", "(/ A2 A1)"),
        ("b/l", "(/ A2 S2)"),
        ("{P > 1.0} a", "(g [0 > 1] A1) 7"),
        (
            "{P < 0 && Q <= 1 || !R >= 65535} a",
            "(g (o (& [0 < 0] [1 <= 1]) (! [2 >= 65535])) A1) 7 3 9",
        ),
        (
            "{Q == 1 || P != 2 || Q == 3} a",
            "(g (o (o [0 == 1] [1 != 2]) [0 == 3]) A1) 3 7",
        ),
        (
            "{P > 1} a, {Q > 1} b, {P > 2} c",
            "(, (, (g [0 > 1] A1) (g [1 > 1] A2)) (g [0 > 2] A3)) 7 3",
        ),
        (
            "{R > 1} ({Q > 1} a | {P > 1} b)",
            "(g [0 > 1] (| (g [1 > 1] A1) (g [2 > 1] A2))) 9 3 7",
        ),
    ];
    has_answers(&rt, rt.alloc(), &table, false)
}

#[test]
fn bad_counts(rt: HostRuntime) -> Result<(), Fail> {
    let table = [
        ("a 63", "(# A1 63)"),
        ("a 64", "bad 1"),
        ("a 1.5", "bad 1"),
        ("a{1,2}", "({ A1 1 2)"),
        ("a{2,2}", "({ A1 2 2)"),
        ("a{2,1}", "bad 4"),
        ("a{64,1}", "bad 2"),
        ("a{1,64}", "bad 4"),
        ("a{0.5,0}", "bad 2"),
        ("{P > 65535} a", "(g [0 > 65535] A1) 7"),
        ("{P > 65536} a", "bad 3"),
        ("{P > 0.10} a", "bad 3"),
        ("{!(P > 1 && Q == 0.5)} a", "bad 9"),
        ("{P > 1 || Q > 70000} a 64", "bad 7"),
        ("a 64, {P > 1.5} b", "bad 1"),
        ("(a 2, b 1.5) 64", "bad 5"),
        ("((a:l*)+?/b) 64", "bad 12"),
        ("a 0000000000000000000000000064", "bad 1"),
        ("a 63.0000000000000000000000001", "bad 1"),
    ];
    has_answers(&rt, rt.alloc(), &table, false)
}

#[test]
fn sizes(rt: HostRuntime) -> Result<(), Fail> {
    let table = [
        ("a", "2 states"),
        ("a 63", "64 states"),
        ("a 63, a", "probe too large"),
        ("a{0,0} 63 63 63 63", "1 states"),
        ("{P>1}a|{P>2}a|{P>3}a|{P>4}a|{P>5}a", "probe too large"),
        ("(a|b)*, a, (a|b) 11", "probe too large"),
    ];
    has_answers(&rt, rt.alloc(), &table, true)
}
