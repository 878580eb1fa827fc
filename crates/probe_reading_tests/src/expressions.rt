//! Probe expressions: what can follow, their trees, and that no token after the limit is looked at.

use crate::tables::{FOLLOWING, FRONTS, KINDS, TREES};
use crate::written::write_tree;
use pepa_lexer::tokens;
use probe_reader::{ProbeTextFault, read_probe};
use std::alloc::Global;
use std::fmt::Write;
use std::process::Abort;
use std::test::Fail;

// How many tokens can go on from `at` up to `less` tokens before the end of the text, and the tree of these, as the tables write it.
fn answer(
    rt: &impl Abort,
    alloc: Global,
    text: &str,
    at: usize,
    less: usize,
) -> Result<String, Fail> {
    let bytes = text.as_bytes();
    assert!(rt; bytes.len() <= 1 << 20);
    let list = tokens(alloc, bytes)?;
    let limit = list.as_slice().len().saturating_sub(less);
    let mut out = String::new(alloc);
    match read_probe(alloc, list.as_slice(), bytes, at, limit) {
        Ok(read) => {
            write!(out, "{} ", read.next.saturating_sub(at))?;
            write_tree(&mut out, &read.tree)?;
        }
        Err(ProbeTextFault::Expected(next)) => write!(out, "{} none", next.saturating_sub(at))?,
        Err(ProbeTextFault::Memory) => write!(out, "no memory")?,
    }
    Ok(out)
}

// Compares each line of a table: a text, ` => `, and how much of it is read as what; with the end of the text before the limit
// and after it.
fn has_answers(rt: &impl Abort, alloc: Global, table: &str) -> Result<(), Fail> {
    for line in table.lines() {
        let (text, want) = line.split_once(" => ").unwrap_or((line, ""));
        for less in 0..2 {
            let found = answer(rt, alloc, text, 0, less)?;
            assert_eq!(rt; found.as_str(), want, "{text}");
        }
    }
    Ok(())
}

#[test]
fn trees(rt: HostRuntime) -> Result<(), Fail> {
    assert_eq!(rt; TREES.lines().count(), 48);
    has_answers(&rt, rt.alloc(), TREES)
}

#[test]
fn fronts_of_a_long_expression(rt: HostRuntime) -> Result<(), Fail> {
    assert_eq!(rt; FRONTS.lines().count(), 35);
    has_answers(&rt, rt.alloc(), FRONTS)
}

// Each token after each front: where it can follow, one token more goes on.
#[test]
fn what_can_follow(rt: HostRuntime) -> Result<(), Fail> {
    let alloc = rt.alloc();
    assert_eq!(rt; FOLLOWING.lines().count(), 53);
    for line in FOLLOWING.lines() {
        let (front, followers) = line.split_once(" => ").unwrap_or((line, ""));
        let bytes = front.as_bytes();
        assert!(rt; bytes.len() <= 1 << 20);
        let count = tokens(alloc, bytes)?.as_slice().len();
        for kind in KINDS.split(" ") {
            let text = format!(in alloc; "{front} {kind}")?;
            let mut next = count.saturating_sub(1);
            for follower in followers.split(" ") {
                if follower == kind {
                    next = count;
                }
            }
            let want = format!(in alloc; "{next} ")?;
            let found = answer(&rt, alloc, text.as_str(), 0, 0)?;
            assert!(rt;
                found.as_bytes().starts_with(want.as_bytes()),
                "{text}: {found}"
            );
        }
    }
    Ok(())
}

// What is before `at` and from the limit on doesn't count.
#[test]
fn between_two_indices(rt: HostRuntime) -> Result<(), Fail> {
    let table = [
        ("; ( a , b", 2, 1, "3 (, 2 4)"),
        ("; ( a , b", 2, 2, "2 none"),
        ("; ( a , b", 2, 3, "1 2"),
        ("; ( a , b", 1, 1, "4 none"),
        ("a * *", 0, 2, "2 (* 0)"),
        ("a { 1 , 2 }", 0, 2, "5 none"),
        ("a : l", 0, 2, "2 none"),
        ("a : l", 0, 3, "1 0"),
        ("a", 0, 2, "0 none"),
    ];
    for (text, at, less, want) in table {
        let found = answer(&rt, rt.alloc(), text, at, less)?;
        assert_eq!(rt; found.as_str(), want, "{text} {at} {less}");
    }
    Ok(())
}
