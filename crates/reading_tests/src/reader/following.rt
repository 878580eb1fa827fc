//! What can follow at each place of the grammar: every token behind many fronts.

use super::{at, column_behind, fault_of};
use pepa_lexer::Place;
use pepa_reader::FileFault;
use std::alloc::Global;
use std::process::Abort;
use std::test::Fail;

// Each kind of token; the empty one is the end of the text.
const TOKENS: &[&str] = &[
    "a", "probe", "tau", "P", "infty", "T", "1", "2.5", "=", ";", "(", ")", ",", ".", "+", "-",
    "*", "/", "<", ">", "<=", ">=", "==", "!=", "!", "&&", "||", "|", "{", "}", "[", "]", ":",
    "::", "?", "",
];

// What may stand at the start of an item, of a prefix, behind a `(` of a process, at the start of a rate or behind the `*` of
// its first number, at the start of a factor, and as a word.
const ITEM: &[&str] = &["a", "probe", "P", "("];

const PREFIX: &[&str] = &["P", "("];

const INSIDE: &[&str] = &["a", "probe", "tau", "P", "("];

const RATE: &[&str] = &["a", "probe", "infty", "T", "1", "2.5", "("];

const FACTOR: &[&str] = &["a", "probe", "1", "2.5", "("];

const WORD: &[&str] = &["a", "probe", "tau"];

// What may stand behind a factor and behind a prefix: in a line, in brackets, and in a system.
const FACTOR_IN_LINE: &[&str] = &["+", "-", "*", "/", ";"];

const FACTOR_IN_BRACKETS: &[&str] = &["+", "-", "*", "/", ")"];

const PREFIX_IN_LINE: &[&str] = &["+", "/", "||", "<", ";"];

const PREFIX_IN_BRACKETS: &[&str] = &["+", "/", "||", "<", ")"];

const PREFIX_IN_SYSTEM: &[&str] = &["+", "/", "||", "<", ";", ""];

// The refusal of a token behind a front with which a file can begin.
fn refusal(front: &str, token: &str, place: Place) -> FileFault {
    if token == "[" {
        return FileFault::Array(place);
    }
    if token == "*" && front.as_bytes().last() == Some(&b'<') {
        return FileFault::Wildcard(place);
    }
    FileFault::Expected(place)
}

// Whether a token at the place isn't refused, and nothing else is up to the end of the text.
fn goes_on(found: Option<FileFault>, place: Place, end: Place) -> bool {
    match found {
        None => true,
        Some(FileFault::Expected(there)) => there == end && there != place,
        _ => false,
    }
}

// Each token behind the front, with white space between them, is refused unless it is one of these.
fn goes_on_with(
    rt: &impl Abort,
    alloc: Global,
    front: &str,
    followers: &[&str],
) -> Result<(), Fail> {
    for token in TOKENS {
        let text = format!(in alloc; "{front} {token}")?;
        let place = at(1, column_behind(front.len())?.saturating_add(1));
        let end = at(1, column_behind(text.len())?);
        let found = fault_of(rt, alloc, text.as_bytes())?;
        if followers.contains(token) {
            assert!(rt; goes_on(found, place, end), "{text}: {found:?}");
        } else {
            assert_eq!(rt; found, Some(refusal(front, token, place)), "{text}");
        }
    }
    Ok(())
}

#[test]
fn what_can_follow_in_lines(rt: HostRuntime) -> Result<(), Fail> {
    let table = [
        ("", ITEM),
        ("r = 1;", ITEM),
        ("P = Q;", ITEM),
        ("r", ["="].as_slice()),
        ("r =", RATE),
        ("r = infty", [";"].as_slice()),
        ("r = 1", FACTOR_IN_LINE),
        ("r = 1 *", RATE),
        ("r = 1 * T", [";"].as_slice()),
        ("r = 1 * 2", FACTOR_IN_LINE),
        ("r = 1 * 2 *", FACTOR),
        ("r = 1 + 2 *", FACTOR),
        ("r = 1 /", FACTOR),
        ("r = 1 +", FACTOR),
        ("r = 1 -", FACTOR),
        ("r = s", FACTOR_IN_LINE),
        ("r = s *", FACTOR),
        ("r = (", FACTOR),
        ("r = (1", FACTOR_IN_BRACKETS),
        ("r = (1 *", FACTOR),
        ("r = (1 * s", FACTOR_IN_BRACKETS),
        ("r = (1)", FACTOR_IN_LINE),
        ("r = ((1)", FACTOR_IN_BRACKETS),
        ("r = (1) *", FACTOR),
        ("P =", PREFIX),
        ("P = Q", PREFIX_IN_LINE),
        ("P = Q +", PREFIX),
        ("P = Q + Q", PREFIX_IN_LINE),
        ("P = Q ||", PREFIX),
        ("P = Q || Q", PREFIX_IN_LINE),
        ("P = Q <", ["a", "probe", "tau", ">"].as_slice()),
        ("P = Q <a", [",", ">"].as_slice()),
        ("P = Q <a,", WORD),
        ("P = Q <a,tau", [",", ">"].as_slice()),
        ("P = Q <>", PREFIX),
        ("P = Q <a,tau>", PREFIX),
        ("P = Q <a> Q", PREFIX_IN_LINE),
        ("P = Q /", ["{"].as_slice()),
        ("P = Q / {", ["a", "probe", "tau", "}"].as_slice()),
        ("P = Q / {a", [",", "}"].as_slice()),
        ("P = Q / {a,", WORD),
        ("P = Q / {}", PREFIX_IN_LINE),
        ("P = Q / {a,tau}", PREFIX_IN_LINE),
    ];
    for (front, followers) in table {
        goes_on_with(&rt, rt.alloc(), front, followers)?;
    }
    Ok(())
}

#[test]
fn what_can_follow_in_prefixes_and_systems(rt: HostRuntime) -> Result<(), Fail> {
    let table = [
        ("P = (", INSIDE),
        ("P = (a", [","].as_slice()),
        ("P = (tau", [","].as_slice()),
        ("P = (probe", [","].as_slice()),
        ("P = (a,", RATE),
        ("P = (a, infty", [")"].as_slice()),
        ("P = (a, 2", FACTOR_IN_BRACKETS),
        ("P = (a, 2 *", RATE),
        ("P = (a, 2 * infty", [")"].as_slice()),
        ("P = (a, r", FACTOR_IN_BRACKETS),
        ("P = (a, r *", FACTOR),
        ("P = (a, (", FACTOR),
        ("P = (a, (2 *", FACTOR),
        ("P = (a, (r)", FACTOR_IN_BRACKETS),
        ("P = (a, r)", ["."].as_slice()),
        ("P = (a, r).", PREFIX),
        ("P = (a, r).(", INSIDE),
        ("P = (a, r).Q", PREFIX_IN_LINE),
        ("P = (Q", PREFIX_IN_BRACKETS),
        ("P = (Q +", PREFIX),
        ("P = (Q <a>", PREFIX),
        ("P = (Q)", PREFIX_IN_LINE),
        ("P = ((Q)", PREFIX_IN_BRACKETS),
        ("P = ((a, r).Q", PREFIX_IN_BRACKETS),
        ("P", ["=", "+", "/", "||", "<", ";", ""].as_slice()),
        ("r = 1; P", ["=", "+", "/", "||", "<", ";", ""].as_slice()),
        ("(", INSIDE),
        ("(a", [","].as_slice()),
        ("(a, r).", PREFIX),
        ("(a, r).P", PREFIX_IN_SYSTEM),
        ("(P", PREFIX_IN_BRACKETS),
        ("(P)", PREFIX_IN_SYSTEM),
        ("P +", PREFIX),
        ("P + Q", PREFIX_IN_SYSTEM),
        ("P ||", PREFIX),
        ("P || Q", PREFIX_IN_SYSTEM),
        ("P <", ["a", "probe", "tau", ">"].as_slice()),
        ("P <a> Q", PREFIX_IN_SYSTEM),
        ("P /", ["{"].as_slice()),
        ("P / {a}", PREFIX_IN_SYSTEM),
        ("P;", [""].as_slice()),
        ("P + Q;", [""].as_slice()),
    ];
    for (front, followers) in table {
        goes_on_with(&rt, rt.alloc(), front, followers)?;
    }
    Ok(())
}

// `probe` begins a probe line wherever another token than `=` follows it.
#[test]
fn what_can_follow_in_probe_lines(rt: HostRuntime) -> Result<(), Fail> {
    let behind_probe = ["a", "probe", "P", "(", "{", "="].as_slice();
    let behind_letter = ["1", "2.5", ";", ",", "+", "*", "/", "|", "{", ":", "?"].as_slice();
    let table = [
        ("probe", behind_probe),
        ("r = 1; probe", behind_probe),
        ("P = Q; probe", behind_probe),
        ("probe P", ["::"].as_slice()),
        ("probe P ::", ["a", "probe", "(", "{"].as_slice()),
        ("probe a", behind_letter),
        ("probe P :: probe", behind_letter),
        ("probe (a)", behind_letter),
        ("probe {P <", ["1", "2.5"].as_slice()),
        ("probe a;", ITEM),
    ];
    for (front, followers) in table {
        goes_on_with(&rt, rt.alloc(), front, followers)?;
    }
    Ok(())
}
