//! Texts and their files' trees, or the first token that can't follow.

use pepa_lexer::{Place, tokens};
use pepa_reader::{FileFault, FileTree, Indices, ProcessTree, RateTree, read_file};
use std::alloc::{AllocError, Global};
use std::fmt::Write;
use std::process::Abort;
use std::test::Fail;

mod following;

fn at(line: u32, column: u32) -> Place {
    Place { line, column }
}

fn expected(line: u32, column: u32) -> FileFault {
    FileFault::Expected(at(line, column))
}

fn array(line: u32, column: u32) -> FileFault {
    FileFault::Array(at(line, column))
}

fn wildcard(line: u32, column: u32) -> FileFault {
    FileFault::Wildcard(at(line, column))
}

fn column_behind(bytes: usize) -> Result<u32, Fail> {
    Ok(u32::try_from(bytes)?.saturating_add(1))
}

fn read(rt: &impl Abort, alloc: Global, text: &[u8]) -> Result<Result<FileTree, FileFault>, Fail> {
    assert!(rt; text.len() <= 1 << 20);
    let list = tokens(alloc, text)?;
    Ok(read_file(alloc, list.as_slice(), text))
}

fn fault_of(rt: &impl Abort, alloc: Global, text: &[u8]) -> Result<Option<FileFault>, Fail> {
    Ok(read(rt, alloc, text)?.err())
}

// A tree as a line. `n2`: the number at 2; `r2`: the rate name at 2; `t2`: the `infty` or `T` at 2; `w2t4`: the same with
// its weight; `(n2 3 r4)`: the operator at 3 between two rates; `[n2]`: a bracket.
fn write_rate(out: &mut String, tree: &RateTree) -> Result<(), AllocError> {
    match tree {
        RateTree::Number(at) => write!(out, "n{at}"),
        RateTree::Name(at) => write!(out, "r{at}"),
        RateTree::Top { weight: None, at } => write!(out, "t{at}"),
        RateTree::Top {
            weight: Some(weight),
            at,
        } => write!(out, "w{weight}t{at}"),
        RateTree::Op { at, left, right } => {
            write!(out, "(")?;
            write_rate(out, left)?;
            write!(out, " {at} ")?;
            write_rate(out, right)?;
            write!(out, ")")
        }
        RateTree::Bracket(inner) => {
            write!(out, "[")?;
            write_rate(out, inner)?;
            write!(out, "]")
        }
    }
}

fn write_set(out: &mut String, set: &Indices) -> Result<(), AllocError> {
    write!(out, "{{")?;
    for index in set.as_slice() {
        write!(out, "{index},")?;
    }
    write!(out, "}}")
}

// `6`: the constant at 6; `2:n5.6`: the activity whose `(` stands at 2, with its rate, and what follows it; `(0+2)`: a choice;
// `(0 1{2,} 4)`: the cooperation whose sign stands at 1, and its set; `(0/{3,})`: a hiding.
fn write_process(out: &mut String, tree: &ProcessTree) -> Result<(), AllocError> {
    match tree {
        ProcessTree::Constant(at) => write!(out, "{at}"),
        ProcessTree::Prefix { at, rate, next } => {
            write!(out, "{at}:")?;
            write_rate(out, rate)?;
            write!(out, ".")?;
            write_process(out, next)
        }
        ProcessTree::Choice(left, right) => {
            write!(out, "(")?;
            write_process(out, left)?;
            write!(out, "+")?;
            write_process(out, right)?;
            write!(out, ")")
        }
        ProcessTree::Coop {
            at,
            left,
            right,
            set,
        } => {
            write!(out, "(")?;
            write_process(out, left)?;
            write!(out, " {at}")?;
            write_set(out, set)?;
            write!(out, " ")?;
            write_process(out, right)?;
            write!(out, ")")
        }
        ProcessTree::Hide { inner, set } => {
            write!(out, "(")?;
            write_process(out, inner)?;
            write!(out, "/")?;
            write_set(out, set)?;
            write!(out, ")")
        }
    }
}

// The rate lines, each as its index and its rate, the process lines likewise, and the system.
fn line_of(alloc: Global, tree: &FileTree) -> Result<String, AllocError> {
    let mut out = String::new(alloc);
    for line in tree.rates.as_slice() {
        let at = line.at;
        write!(out, "{at}=")?;
        write_rate(&mut out, &line.rate)?;
        write!(out, ";")?;
    }
    for line in tree.processes.as_slice() {
        let at = line.at;
        write!(out, "{at}=")?;
        write_process(&mut out, &line.body)?;
        write!(out, ";")?;
    }
    write_process(&mut out, &tree.system)?;
    Ok(out)
}

#[test]
fn trees(rt: HostRuntime) -> Result<(), Fail> {
    let table = [
        ("P", "0"),
        ("P;", "0"),
        ("(((P)))", "3"),
        ("P || Q || R", "((0 1{} 2) 3{} 4)"),
        ("P || (Q || R)", "(0 1{} (3 4{} 5))"),
        ("P + Q + R", "((0+2)+4)"),
        ("P<>P", "(0 1{} 3)"),
        ("P + (Q + R)", "(0+(3+5))"),
        ("P + Q <a> R + S", "((0+2) 3{4,} (6+8))"),
        ("P <a, tau, probe> Q <> R", "((0 1{2,4,6,} 8) 9{} 11)"),
        ("P <b,a> Q || R <a> S", "(((0 1{2,4,} 6) 7{} 8) 9{10,} 12)"),
        ("P/{a, tau}/{b}/{}", "(((0/{3,5,})/{9,})/{})"),
        ("P + Q/{a}", "(0+(2/{5,}))"),
        ("(P + Q)/{a} || R", "(((1+3)/{7,}) 9{} 10)"),
        ("(a, 1).P/{b}", "(0:n3.6/{9,})"),
        ("(a, r*s).(tau, infty).P", "0:(r3 4 r5).8:t11.14"),
        ("(a, 2*T).(P || Q) + R", "(0:w3t5.(9 10{} 11)+14)"),
        ("((probe, (r)).P);", "1:[r5].9"),
        ("P = (a, 2).P; P", "0=2:n5.8;10"),
        ("P = Q + R; Q = P; Q <a> P;", "0=(2+4);6=8;(10 11{12,} 14)"),
        (
            "Q = P; r = infty; P = Q/{}; s = 2*infty; Q;",
            "4=t6;15=w17t19;0=2;8=(10/{});21",
        ),
        ("r = 1; P", "0=n2;4"),
        ("r = s; P", "0=r2;4"),
        ("r = T; P", "0=t2;4"),
        ("r = infty; P", "0=t2;4"),
        ("r = 2*infty; P", "0=w2t4;6"),
        ("probe = 1; P", "0=n2;4"),
        ("probe = probe; P", "0=r2;4"),
        ("r = 1 + 2 + 3; P", "0=((n2 3 n4) 5 n6);8"),
        ("r = 1 - 2 - 3; P", "0=((n2 3 n4) 5 n6);8"),
        ("r = 1 / 2 / 3; P", "0=((n2 3 n4) 5 n6);8"),
        ("r = 1 * 2 / s; P", "0=((n2 3 n4) 5 r6);8"),
        ("r = 1 - s * 2; P", "0=(n2 3 (r4 5 n6));8"),
        (
            "r = 1 + 2 - s * 3 / t; P",
            "0=((n2 3 n4) 5 ((r6 7 n8) 9 r10));12",
        ),
        (
            "r = 1 - (2 - s) * ((t)); P",
            "0=(n2 3 ([(n5 6 r7)] 9 [[r12]]));16",
        ),
        // Comments and white space have no indices.
        ("/* 1 */ r\t=\n(1) // 2\n; P", "0=[n3];6"),
    ];
    for (text, want) in table {
        let tree = read(&rt, rt.alloc(), text.as_bytes())??;
        let line = line_of(rt.alloc(), &tree)?;
        assert_eq!(rt; line.as_str(), want, "{text}");
    }
    Ok(())
}

#[test]
fn models_are_read(rt: HostRuntime) -> Result<(), Fail> {
    let table = [
        "P = (a, 2).P + (a, 2).P; P",
        "P = (a,2).P; Q = (a,3).Q1 + (a,1).Q2; Q1 = (b,1).Q; Q2 = (b,1).Q; P <a> Q",
        "P = (a,6).P; Q = (a,infty).Q + (a,2*infty).Q; P <a> Q",
        "P = (a,infty).P; P",
        "P = (a,2).P; P/{a}",
        "P = (a,2).P; Q = (a,3).Q; P/{a} <a> Q",
        "P = (a,1).P; Q = (a,infty).Q; P || Q",
        "P = (a,1).P + (a,infty).P; P",
        "P = (a, 4398046511103).P + (a, 1).P; P",
        "A = A + (a,1).A; A",
        "P = (a,1).P1; P1 = (b,1).P; P || P",
        "r = 3/2; P = (a, r).(b, 2*infty).P; Q = (b,1).Q + ((a,infty).Q + (c,2).Q); P <a,b> Q/{c}",
        "P = (a,2).P; Q = (a,infty).Q; (P || P) <a> Q",
    ];
    for text in table {
        assert_eq!(rt; fault_of(&rt, rt.alloc(), text.as_bytes())?, None, "{text}");
    }
    Ok(())
}

#[test]
fn faults(rt: HostRuntime) -> Result<(), Fail> {
    let table = [
        ("", expected(1, 1)),
        (" \n", expected(2, 1)),
        ("// a", expected(1, 5)),
        ("r = 1;\n", expected(2, 1)),
        ("P = (a", expected(1, 7)),
        ("P probe", expected(1, 3)),
        ("r = 1;\n P = (a,1).Q P", expected(2, 14)),
        ("P = (a, (infty)).P; P", expected(1, 10)),
        ("P = (a, r*infty).P; P", expected(1, 11)),
        ("P = (a, infty*2).P; P", expected(1, 14)),
        ("P = (a, 2*3*infty).P; P", expected(1, 13)),
        ("P = (a, 2+infty).P; P", expected(1, 11)),
        ("P = (infty, 1).P; P", expected(1, 6)),
        ("P = (a, 1).T; P", expected(1, 12)),
        ("T = (a, 1).P; P", expected(1, 1)),
        ("tau = 1; P", expected(1, 1)),
        ("P = Q / {T}; P", expected(1, 10)),
        ("P <a> Q; P", expected(1, 10)),
        ("P[3]", array(1, 2)),
        ("P\n/**/ [3]", array(2, 6)),
        ("[", array(1, 1)),
        ("P <[", array(1, 4)),
        ("P = (a, r[1]).P; P", array(1, 10)),
        ("P <*> P", wildcard(1, 4)),
        ("P < * > P", wildcard(1, 5)),
        ("P = Q <\n/* a */ *> Q; P", wildcard(2, 9)),
        ("P * P", expected(1, 3)),
        ("*", expected(1, 1)),
        ("P <a*> P", expected(1, 5)),
        ("P <a,*> P", expected(1, 6)),
        ("P/{*}", expected(1, 4)),
        ("P <= P", expected(1, 3)),
        ("probe a;", expected(1, 9)),
        ("probe", expected(1, 6)),
        ("probe;", expected(1, 6)),
        ("probe [", array(1, 7)),
        ("probe probe = 1;", expected(1, 13)),
        ("P = (a,1).P; probe P :: a;", expected(1, 27)),
        ("r = 1;\n\tprobe P; P[3]", expected(2, 9)),
        // The least place goes first.
        ("P = Q[3]; probe P; P", array(1, 6)),
        ("P = (; probe P; P", expected(1, 6)),
        // `probe` begins no line here.
        ("P; probe a;", expected(1, 4)),
        ("probe = a", expected(1, 10)),
        ("probe = ;", expected(1, 9)),
        ("prob a;", expected(1, 6)),
        ("probes a;", expected(1, 8)),
        ("Probe a;", expected(1, 7)),
    ];
    for (text, fault) in table {
        assert_eq!(rt;
            fault_of(&rt, rt.alloc(), text.as_bytes())?,
            Some(fault),
            "{text}"
        );
    }
    Ok(())
}

// The fronts that are files end behind a constant, where no line is open, or behind one blank more: the `P` at byte 10, which
// stands behind the 9 bytes of `r = 3/2; `; the `Q` at byte 37, behind 27 bytes of `P = (a, r).(b, 2*infty).P; `; the `P` at
// byte 76, behind 39 bytes of `Q = .. ; `; and the `Q` at byte 84, behind 8 bytes of `P <a,b> `, where `/` follows at once.
// All others lack something at their end.
#[test]
fn fronts_of_a_file(rt: HostRuntime) -> Result<(), Fail> {
    let text =
        b"r = 3/2; P = (a, r).(b, 2*infty).P; Q = (b,1).Q + ((a,infty).Q + (c,2).Q); P <a,b> Q/{c}";
    let files = [10, 11, 37, 38, 76, 77, 84, 88];
    assert_eq!(rt; text.len(), 88);
    for end in 0..=text.len() {
        let found = fault_of(&rt, rt.alloc(), &text[..end])?;
        let want = if files.contains(&end) {
            None
        } else {
            Some(FileFault::Expected(at(1, column_behind(end)?)))
        };
        assert_eq!(rt; found, want, "{end}");
    }
    Ok(())
}

fn push_times(text: &mut Vec<u8>, piece: &str, count: usize) -> Result<(), AllocError> {
    for _ in 0..count {
        text.extend_from_slice(piece.as_bytes())?;
    }
    Ok(())
}

// The front, the opening as often as told, the inner part, the closing as often, and the back.
fn nested(
    alloc: Global,
    front: &str,
    parts: (&str, &str, &str),
    count: usize,
    back: &str,
) -> Result<Vec<u8>, AllocError> {
    let (opening, inner, closing) = parts;
    let mut text = Vec::new(alloc);
    push_times(&mut text, front, 1)?;
    push_times(&mut text, opening, count)?;
    push_times(&mut text, inner, 1)?;
    push_times(&mut text, closing, count)?;
    push_times(&mut text, back, 1)?;
    Ok(text)
}

// An item is counted from its first token to its `;` or the end. The tokens before the places told have one byte each, so that
// a column is the number of its token.
#[test]
fn limits(rt: HostRuntime) -> Result<(), Fail> {
    let too_deep = Some(FileFault::TooDeep(at(1, 2049)));
    let too_deep_behind = Some(FileFault::TooDeep(at(1, 2053)));
    let table = [
        // Process lines: 3 + 2,044 + 1 tokens, 6 + 2,042 + 1, 6 + 2,040 + 2, 6 + 2,042 + 2, 2 + 2,040 + 2, and
        // more.
        ("P=Q", "+Q", 1022, ";P", None),
        ("P=Q/{}", "+Q", 1021, ";P", too_deep),
        ("P=Q/{a", ",a", 1020, "};P", None),
        ("P=Q/{a", ",a", 1021, "};P", too_deep),
        ("P=", "(a,1).", 340, "Q;P", None),
        ("P=Q", "+Q", 5000, ";P", too_deep),
        // Rate lines: 3 + 2,044 + 1 tokens, and 3 + 2,046 before the `;`.
        ("r=1", "-1", 1022, ";P", None),
        ("r=1", "-1", 1023, ";P", too_deep),
        // Systems: 1 + 2,046 tokens and the end, 4 + 2,044 and the end, and the same with a `;`.
        ("P", "+P", 1023, "", None),
        ("P/{}", "+P", 1022, "", too_deep),
        ("P/{}", "+P", 1021, ";", None),
        ("P", "+P", 1023, ";", too_deep),
        // Each item is counted from its own start.
        ("", "P=Q;", 1000, "P", None),
        ("r=1;P=Q", "+Q", 1022, ";P", None),
        ("r=1;P=Q/{}", "+Q", 1021, ";P", too_deep_behind),
        ("r=1;P", "+P", 1023, "", None),
        // At the 2,049th token `TooDeep` goes before the others.
        ("r=1", "-1", 1022, "-[", too_deep),
        ("P", "+P", 1023, "<*", too_deep),
        ("P", "+P", 1023, ";P", too_deep),
        ("r=1", "-1", 1022, "-", too_deep),
        // A fault before it goes first.
        ("r=1", "-1", 1022, "[", Some(array(1, 2048))),
        ("r=1", "-1", 1022, "", Some(expected(1, 2048))),
        ("P/{}", "+P", 1021, ";P", Some(expected(1, 2048))),
        ("P=Q++", "Q+", 3000, "", Some(expected(1, 5))),
        ("P<", "*", 3000, "", Some(wildcard(1, 3))),
        ("probe", " P", 3000, "", Some(expected(1, 9))),
    ];
    for (front, piece, count, back, want) in table {
        let text = nested(rt.alloc(), front, (piece, "", ""), count, back)?;
        let found = fault_of(&rt, rt.alloc(), &text)?;
        assert_eq!(rt; found, want, "{front} {piece} {count} {back}");
    }
    Ok(())
}

// As deep as an item may be: 2 + 1,022 + 1 + 1,022 + 1 tokens, and 1,023 + 1 + 1,023 and the end; then one token more than it
// may have, and as deep as the reader goes before it refuses.
#[test]
fn deepest_brackets(rt: HostRuntime) -> Result<(), Fail> {
    let too_deep = Some(FileFault::TooDeep(at(1, 2049)));
    let table = [
        ("r=", "1", 1022, ";P", None),
        ("P=", "Q", 1022, ";P", None),
        ("", "P", 1023, "", None),
        ("r=", "1", 1023, ";P", too_deep),
        ("P=", "Q", 1023, ";P", too_deep),
        ("", "P", 1023, ";", too_deep),
        ("r=", "1", 100_000, ";P", too_deep),
        ("P=", "Q", 100_000, ";P", too_deep),
        ("", "P", 100_000, ";", too_deep),
    ];
    for (front, inner, count, back, want) in table {
        let text = nested(rt.alloc(), front, ("(", inner, ")"), count, back)?;
        let found = fault_of(&rt, rt.alloc(), &text)?;
        assert_eq!(rt; found, want, "{front} {inner} {count} {back}");
    }
    Ok(())
}
