//! Each limit at its last value and one past it.

use super::{end_of, model_of, refused, without_mark};
use pepa_checks::CheckCause;
use pepa_model::Model;
use std::alloc::{AllocError, Global};
use std::fmt::Write;
use std::process::Abort;
use std::test::Fail;

/// Whether a text passes a limit of a model, which is told at the first token of its last line.
fn is_too_long(rt: &impl Abort, alloc: Global, text: &str) -> Result<bool, Fail> {
    let end = end_of(rt, alloc, text.as_bytes());
    let line = u32::try_from(text.lines().count())?;
    if end.is_some() {
        assert_eq!(rt; end, Some(refused(CheckCause::TooMany, line, 1)));
    }
    Ok(end.is_some())
}

/// So many words, each the letter and its number, with commas between.
fn push_words(out: &mut String, letter: &str, count: usize) -> Result<(), AllocError> {
    let mut separator = "";
    for number in 0..count {
        write!(out, "{separator}{letter}{number}")?;
        separator = ",";
    }
    Ok(())
}

// `a` and 1,000 others are in the lines, and the system has further ones. `tau` doesn't count, and a second place of one
// doesn't, either.
#[test]
fn action_types(rt: HostRuntime) -> Result<(), Fail> {
    for (letter, count, is_long) in [("c", 23, false), ("c", 24, true), ("b", 1000, false)] {
        let mut text = String::new(rt.alloc());
        write!(text, "P = (a,1).P + (tau,1).P;\nS = P/{{")?;
        push_words(&mut text, "b", 1000)?;
        write!(text, "}};\nP/{{")?;
        push_words(&mut text, letter, count)?;
        write!(text, "}}")?;
        assert_eq!(rt;
            is_too_long(&rt, rt.alloc(), &text)?,
            is_long,
            "{letter} {count}"
        );
    }
    Ok(())
}

/// Hidings of the sets of the word `b` of this number and one of 32 words `c`.
fn push_hidings(out: &mut String, number: usize) -> Result<(), AllocError> {
    for other in 0..32 {
        write!(out, "/{{b{number},c{other}}}")?;
    }
    Ok(())
}

// The lines have 32 times 32 sets.
#[test]
fn sets(rt: HostRuntime) -> Result<(), Fail> {
    let table = [
        ("P/{b0,c0}", false),
        ("P/{c31,b0,c31}", false),
        ("P/{b0}", true),
        ("P/{}", true),
        ("P||P", true),
        ("P/{b0,b1}", true),
        ("P<b0,c0,c1>P", true),
    ];
    for (system, is_long) in table {
        let mut text = String::new(rt.alloc());
        write!(text, "P = (a,1).P;\n")?;
        for number in 0..32 {
            write!(text, "S{number} = P")?;
            push_hidings(&mut text, number)?;
            write!(text, ";\n")?;
        }
        write!(text, "{system}")?;
        assert_eq!(rt; is_too_long(&rt, rt.alloc(), &text)?, is_long, "{system}");
    }
    Ok(())
}

/// A line of a constant that performs so many activities and then is itself again: as many leaves.
fn push_row(out: &mut String, number: usize, count: usize) -> Result<(), AllocError> {
    write!(out, "P{number}=")?;
    for _activity in 0..count {
        write!(out, "(a,1).")?;
    }
    write!(out, "P{number};\n")
}

/// 1,023 lines of 64 leaves, a line of so many, and the system.
fn text_of_leaves(alloc: Global, last: usize) -> Result<String, AllocError> {
    let mut text = String::new(alloc);
    for number in 0..1023 {
        push_row(&mut text, number, 64)?;
    }
    push_row(&mut text, 1023, last)?;
    write!(text, "P7")?;
    Ok(text)
}

// 1,023 times 64 is 65,472.
#[test]
fn most_leaves(rt: HostRuntime) -> Result<(), Fail> {
    let text = text_of_leaves(rt.alloc(), 63)?;
    let leaves = match model_of(&rt, rt.alloc(), text.as_bytes()) {
        Ok(model) => model.leaves.len(),
        Err(_) => 0,
    };
    assert_eq!(rt; leaves, 65_535);
    Ok(())
}

#[test]
fn one_leaf_too_many(rt: HostRuntime) -> Result<(), Fail> {
    let text = text_of_leaves(rt.alloc(), 64)?;
    assert!(rt; is_too_long(&rt, rt.alloc(), &text)?);
    Ok(())
}

/// Lines of so many constants, each a choice between the one above and itself. They have 1, 2, 4 and so on activities.
fn push_doublings(out: &mut String, count: usize) -> Result<(), AllocError> {
    write!(out, "P0=(a,1).P0;\n")?;
    for number in 1..count {
        let below = number - 1;
        write!(out, "P{number}=P{below}+P{below};\n")?;
    }
    Ok(())
}

fn activities_in(model: &Model) -> usize {
    let lists = &model.activities;
    let mut count: usize = 0;
    for list in lists.as_slice() {
        count = count.saturating_add(list.len());
    }
    count
}

// Sixteen constants have 1 + 2 + .. + 32,768 activities, 65,535.
#[test]
fn most_activities(rt: HostRuntime) -> Result<(), Fail> {
    let mut text = String::new(rt.alloc());
    push_doublings(&mut text, 16)?;
    write!(text, "P15")?;
    let count = match model_of(&rt, rt.alloc(), text.as_bytes()) {
        Ok(model) => activities_in(&model),
        Err(_) => 0,
    };
    assert_eq!(rt; count, 65_535);
    Ok(())
}

// Fifteen constants have 32,767 activities. What stands in the line or the system behind them has 32,768 and some more.
#[test]
fn activities(rt: HostRuntime) -> Result<(), Fail> {
    let table = [
        (15, "P14+P14", false),
        (15, "P14+P14 || P0", false),
        (15, "P14+P14+P0", true),
        (15, "P0+P14+P14", true),
        (15, "P14+P14 || (b,1).P0", true),
        (16, "P0", false),
        (16, "P0 || P0/{a}", false),
        (16, "P0+P0", true),
        (16, "(b,1).P0", true),
        (17, "P0", true),
    ];
    for (count, system, is_long) in table {
        let mut text = String::new(rt.alloc());
        push_doublings(&mut text, count)?;
        write!(text, "{system}")?;
        assert_eq!(rt;
            is_too_long(&rt, rt.alloc(), &text)?,
            is_long,
            "{count} {system}"
        );
    }
    Ok(())
}

// Far more than any number of the machine counts: 2^63 - 1, 2^64 - 1 and 2^200 - 1 activities.
#[test]
fn far_too_many_activities(rt: HostRuntime) -> Result<(), Fail> {
    for count in [32, 33, 63, 64, 65, 200, 1024] {
        let mut text = String::new(rt.alloc());
        push_doublings(&mut text, count)?;
        write!(text, "P0")?;
        assert!(rt; is_too_long(&rt, rt.alloc(), &text)?, "{count}");
    }
    Ok(())
}

/// A constant, and lines of so many compound constants, each the one above beside itself. They have 2, 4, 8 and so on leaves.
fn push_compounds(out: &mut String, count: usize) -> Result<(), AllocError> {
    write!(out, "P=(a,1).P;\nC0=P||P;\n")?;
    for number in 1..count {
        let below = number - 1;
        write!(out, "C{number}=C{below}||C{below};\n")?;
    }
    Ok(())
}

// `C6` has 128 leaves, and `C7` has 256. A constant that the system doesn't come to has any number.
#[test]
fn leaves_by_compound_constants(rt: HostRuntime) -> Result<(), Fail> {
    let table = [
        (7, "C6||C5||C4||C3||C2||C1||C0||P", false),
        (7, "C6||C5||C4||C3||C2||C1||C0||C0", true),
        (7, "C6<a>C6", true),
        (7, "C6/{a}", false),
        (8, "C6", false),
        (8, "C7", true),
        (8, "C7/{a}", true),
        (20, "P", false),
        (20, "C19", true),
        (20, "P||C19", true),
        (200, "C6||P", false),
    ];
    for (count, system, is_long) in table {
        let mut text = String::new(rt.alloc());
        push_compounds(&mut text, count)?;
        write!(text, "{system}")?;
        assert_eq!(rt;
            is_too_long(&rt, rt.alloc(), &text)?,
            is_long,
            "{count} {system}"
        );
    }
    Ok(())
}

// Far more than any number of the machine counts: 2^32, 2^64, 2^200 leaves.
#[test]
fn far_too_many_leaves(rt: HostRuntime) -> Result<(), Fail> {
    for count in [31, 32, 33, 63, 64, 65, 128, 200, 1000] {
        let mut text = String::new(rt.alloc());
        push_compounds(&mut text, count)?;
        let last = count - 1;
        write!(text, "C{last}")?;
        assert!(rt; is_too_long(&rt, rt.alloc(), &text)?, "{count}");
    }
    Ok(())
}

/// A constant so many times, with `||` between.
fn push_operands(out: &mut String, name: &str, count: usize) -> Result<(), AllocError> {
    write!(out, "{name}")?;
    for _operand in 1..count {
        write!(out, "||{name}")?;
    }
    Ok(())
}

// `H` has a hundred leaves.
#[test]
fn leaves_by_operands(rt: HostRuntime) -> Result<(), Fail> {
    let table = [
        (2, 55, false),
        (2, 56, true),
        (1, 155, false),
        (1, 156, true),
        (3, 1, true),
        (300, 1, true),
        (1, 900, true),
    ];
    for (hundreds, singles, is_long) in table {
        let mut text = String::new(rt.alloc());
        write!(text, "P=(a,1).P;\nH=")?;
        push_operands(&mut text, "P", 100)?;
        write!(text, ";\n")?;
        push_operands(&mut text, "H", hundreds)?;
        write!(text, "||")?;
        push_operands(&mut text, "P", singles)?;
        assert_eq!(rt;
            is_too_long(&rt, rt.alloc(), &text)?,
            is_long,
            "{hundreds} {singles}"
        );
    }
    Ok(())
}

// Where a limit is told: at the system's first constant or the `(` of its first activity, brackets left out.
#[test]
fn place_of_a_limit(rt: HostRuntime) -> Result<(), Fail> {
    let table = [
        "@C7",
        "(((@C7)));",
        "(@C7||P)/{a}",
        "((@P+P)||C7)/{a}",
        "((@(a,1).P+P)||C7)",
        "@(a,1).(a,1).P||C7",
        "(@P||(a,1).P)||C7",
        "@C7/{a}/{a}",
    ];
    for system in table {
        let (plain, place) = without_mark(rt.alloc(), system)?;
        let mut text = String::new(rt.alloc());
        push_compounds(&mut text, 8)?;
        let line = u32::try_from(text.lines().count())?.saturating_add(1);
        write!(text, "{plain}")?;
        let found = end_of(&rt, rt.alloc(), text.as_bytes());
        let column = place.map(|place| place.column).unwrap_or(0);
        assert_eq!(rt;
            found,
            Some(refused(CheckCause::TooMany, line, column)),
            "{system}"
        );
    }
    Ok(())
}
