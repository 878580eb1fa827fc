//! Probe lines in files: their trees, their refusals, and how long and how deep they may be.

use crate::written::write_tree;
use pepa_lexer::{Place, tokens};
use pepa_reader::{FileFault, FileTree, read_file};
use std::alloc::Global;
use std::fmt::Write;
use std::process::Abort;
use std::test::Fail;

fn read(rt: &impl Abort, alloc: Global, text: &[u8]) -> Result<Result<FileTree, FileFault>, Fail> {
    assert!(rt; text.len() <= 1 << 20);
    let list = tokens(alloc, text)?;
    Ok(read_file(alloc, list.as_slice(), text))
}

fn at(line: u32, column: u32) -> Place {
    Place { line, column }
}

fn expected(line: u32, column: u32) -> Option<FileFault> {
    Some(FileFault::Expected(at(line, column)))
}

// A file's probe lines: `2 on 3: 5;`, or `2: 3;` for the whole system.
fn probes(alloc: Global, tree: &FileTree) -> Result<String, Fail> {
    let mut out = String::new(alloc);
    for line in tree.probes.as_slice() {
        write!(out, "{}", line.at)?;
        if let Some(target) = line.target {
            write!(out, " on {target}")?;
        }
        write!(out, ": ")?;
        write_tree(&mut out, &line.expr)?;
        write!(out, ";")?;
    }
    Ok(out)
}

#[test]
fn trees(rt: HostRuntime) -> Result<(), Fail> {
    let table = [
        ("probe a; P", "0: 1;"),
        ("probe P :: a; P", "0 on 1: 3;"),
        ("probe probe; P", "0: 1;"),
        ("probe = 1; P", ""),
        (
            "probe = 1; probe a:start, b:stop; P",
            "4: (, (: 5 7) (: 9 11));",
        ),
        (
            "probe a | b; P = Q; probe P :: c*; r = 1; P",
            "0: (| 1 3);9 on 10: (* 12);",
        ),
        (
            "probe P :: ({P > 1 && !(Q == 2)} a:start, (b | c) 3){1,2}/d*, e?; P",
            "0 on 1: (, (* (/ ({ (, (g (& [5 6 7] (! [11 12 13])) (: 16 18)) (# (| 21 23) 25)) 28 30) 33)) (? 36));",
        ),
        ("probe{P>1}a:start;P", "0: (g [2 3 4] (: 6 8));"),
    ];
    for (text, want) in table {
        let tree = read(&rt, rt.alloc(), text.as_bytes())?;
        let found = match &tree {
            Ok(tree) => probes(rt.alloc(), tree)?,
            Err(fault) => format!(in rt.alloc(); "{fault:?}")?,
        };
        assert_eq!(rt; found.as_str(), want, "{text}");
    }
    Ok(())
}

#[test]
fn refusals(rt: HostRuntime) -> Result<(), Fail> {
    let table = [
        ("probe", expected(1, 6)),
        ("probe;", expected(1, 6)),
        ("probe a", expected(1, 8)),
        ("probe a;", expected(1, 9)),
        ("probe a P", expected(1, 9)),
        ("probe P", expected(1, 8)),
        ("probe P;", expected(1, 8)),
        ("probe P : a; P", expected(1, 9)),
        ("probe P = Q; P", expected(1, 9)),
        ("probe P ::; P", expected(1, 11)),
        ("probe P :: Q; P", expected(1, 12)),
        ("probe P :: = 1; P", expected(1, 12)),
        ("probe :: a; P", expected(1, 7)),
        ("probe tau; P", expected(1, 7)),
        ("probe infty; P", expected(1, 7)),
        ("probe T :: a; P", expected(1, 7)),
        ("probe a:tau; P", expected(1, 9)),
        ("probe a/{b}; P", expected(1, 9)),
        ("probe a = 1; P", expected(1, 9)),
        ("probe {P > r} a; P", expected(1, 12)),
        ("probe {P > 1}; P", expected(1, 14)),
        ("probe {P > 1}{1,2} a; P", expected(1, 15)),
        ("P; probe a;", expected(1, 4)),
        ("probe a; probe", expected(1, 15)),
        ("probe a[1]; P", Some(FileFault::Array(at(1, 8)))),
        ("probe [", Some(FileFault::Array(at(1, 7)))),
        ("probe {P <* 1} a; P", Some(FileFault::Wildcard(at(1, 11)))),
        ("probe {P <\n* 1} a; P", Some(FileFault::Wildcard(at(2, 1)))),
        ("probe <*", expected(1, 7)),
        ("r = 1;\nprobe P :: (a; P", expected(2, 14)),
    ];
    for (text, want) in table {
        let found = read(&rt, rt.alloc(), text.as_bytes())?.err();
        assert_eq!(rt; found, want, "{text}");
    }
    Ok(())
}

// Each proper front of a probe line that ends with a whole token can go on: it is refused at the end of the text.
#[test]
fn fronts_of_a_line(rt: HostRuntime) -> Result<(), Fail> {
    let line =
        "probe P :: ( { P > 1 && ! ( Q == 2 ) } a : start , ( b | c ) 3 ) { 1 , 2 } / d * , e ?";
    let mut text = String::new(rt.alloc());
    assert_eq!(rt; line.split(" ").count(), 38);
    for token in line.split(" ") {
        write!(text, "{token}")?;
        let end = u32::try_from(text.len())?.saturating_add(1);
        let found = read(&rt, rt.alloc(), text.as_bytes())?.err();
        assert_eq!(rt; found, expected(1, end), "{text}");
        write!(text, " ")?;
    }
    Ok(())
}

// A text: a front, a piece as often as it is said, a middle, another piece as often, and a back.
fn repeated(alloc: Global, parts: [&str; 5], count: usize) -> Result<String, Fail> {
    let [front, before, middle, behind, back] = parts;
    let mut text = String::new(alloc);
    text.push_str(front)?;
    for _ in 0..count {
        text.push_str(before)?;
    }
    text.push_str(middle)?;
    for _ in 0..count {
        text.push_str(behind)?;
    }
    text.push_str(back)?;
    Ok(text)
}

// 2,048 tokens in a probe line and 2,049, and as deep as brackets, guards, `!` and guards before guards may nest. The column of a
// refusal is that of the 2,049th token, as each front is written without white space but after `probe`.
#[test]
fn longest_and_deepest(rt: HostRuntime) -> Result<(), Fail> {
    let deep = Some(FileFault::TooDeep(at(1, 2054)));
    let array = Some(FileFault::Array(at(1, 2053)));
    let table = [
        // `probe a`, the pieces, and `;`
        (["probe a", ",a", "", "", ";P"], 1022, None, "sequence"),
        (
            ["probe a", ",a", "*", "", ";P"],
            1022,
            None,
            "sequence of 2,048",
        ),
        (
            ["probe a", ",a", "**", "", ";P"],
            1022,
            deep,
            "sequence of 2,049",
        ),
        (["probe a", "|a", "*", "", ";P"], 1022, None, "alternatives"),
        (
            ["probe a", "|a", "**", "", ";P"],
            1022,
            deep,
            "alternatives of 2,049",
        ),
        (["probe ", "(", "a", ")", ";P"], 1022, None, "brackets"),
        (
            ["probe ", "(", "a", ")", "*;P"],
            1022,
            None,
            "brackets of 2,048",
        ),
        (
            ["probe ", "(", "a", ")", "**;P"],
            1022,
            deep,
            "brackets of 2,049",
        ),
        (
            ["probe ", "(", "a", ")", ";P"],
            100_000,
            deep,
            "open brackets",
        ),
        (["probe {", "(", "P>1", ")", "}a;P"], 1019, None, "guards"),
        (
            ["probe {", "(", "P>1", ")", "}a*;P"],
            1019,
            None,
            "guards and more",
        ),
        (
            ["probe {", "(", "P>1", ")", "}a**;P"],
            1019,
            None,
            "guards of 2,048",
        ),
        (
            ["probe {", "(", "P>1", ")", "}a***;P"],
            1019,
            deep,
            "guards of 2,049",
        ),
        (
            ["probe {", "!", "P>1", "", "}a;P"],
            2040,
            None,
            "negations of 2,048",
        ),
        (
            ["probe {", "!", "P>1", "", "}a*;P"],
            2040,
            deep,
            "negations of 2,049",
        ),
        (
            ["probe ", "{P>1}", "a", "", ";P"],
            409,
            None,
            "guards before guards",
        ),
        (
            ["probe {P>1", "&&P>1", "", "", "}a;P"],
            500,
            None,
            "a long guard",
        ),
        // A fault before the 2,049th token goes first, and at it the length does.
        (
            ["probe a", ",a", "**", "", "["],
            1022,
            deep,
            "a bracket at the limit",
        ),
        (
            ["probe a", ",a", "*", "", "["],
            1022,
            array,
            "a bracket before the limit",
        ),
        (
            ["probe a", ",a", "**", "", ""],
            1022,
            deep,
            "the end at the limit",
        ),
        (
            ["probe a", ",a", "*", "", ""],
            1022,
            expected(1, 2053),
            "the end before the limit",
        ),
    ];
    for (parts, count, want, name) in table {
        let text = repeated(rt.alloc(), parts, count)?;
        let found = read(&rt, rt.alloc(), text.as_bytes())?.err();
        assert_eq!(rt; found, want, "{name}");
    }
    Ok(())
}
