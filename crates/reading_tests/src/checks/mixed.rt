//! Leaves with an active and a passive activity of one type, and what goes before them.

use super::{end_of, is_judged, refused};
use pepa_checks::CheckCause;
use std::alloc::{AllocError, Global};
use std::fmt::Write;
use std::process::Abort;
use std::test::Fail;

fn are_judged(rt: &impl Abort, alloc: Global, texts: &[&str]) -> Result<(), Fail> {
    for text in texts {
        is_judged(rt, alloc, CheckCause::MixedChoice, text)?;
    }
    Ok(())
}

#[test]
fn unmixed(rt: HostRuntime) -> Result<(), Fail> {
    let texts = [
        "P = (a,1).P + (a,2).P; P",
        "P = (a,T).P + (a,2*infty).P; P",
        "P = (a,1).P + (b,T).P; P",
        "P = (a,1).(a,T).P; P",
        "P = (tau,1).P + (a,T).P; P",
        "P = (a,1).P; Q = (a,T).Q; P <a> Q",
        "P = (a,1).P; Q = (b,1).P + (a,T).Q; P || Q || (b,T).Q",
        // What a cooperation joins is no choice.
        "P = (a,1).P; S = P || (a,T).P; S/{a}",
    ];
    are_judged(&rt, rt.alloc(), &texts)
}

// Within one leaf: the first activity that has an earlier one of its type and the other kind.
#[test]
fn first_activity(rt: HostRuntime) -> Result<(), Fail> {
    let texts = [
        "P = (a,1).P + @(a,infty).P; P",
        "P = (a,infty).P + @(a,1).P; P",
        "P = (tau,1).P + @(tau,T).P; P",
        "P = (a,1).P + @(a,T).P + (a,T).P; P",
        "P = (a,1).P + (a,2).P + @(a,T).P + (a,1).P; P",
        "P = (a,T).P + (b,1).P + (b,2).P + @(a,1).P + (b,T).P; P",
        "P = (a,1).P + (b,T).P + @(b,1).P + (a,T).P; P",
        "P = (a,1).P + ((b,1).P + @(a,T).P); P",
        "P = ((((a,1).P)) + (@(a,T).P)); P",
    ];
    are_judged(&rt, rt.alloc(), &texts)
}

// Activities that come by a constant stand in its line.
#[test]
fn by_constants(rt: HostRuntime) -> Result<(), Fail> {
    let texts = [
        "P = (a,1).P; Q = @(a,T).Q; P + Q",
        "P = @(a,1).P; Q = (a,T).Q; Q + P",
        "P = (a,1).P + Q; Q = @(a,T).Q; P",
        "P = Q + @(a,1).P; Q = (a,T).Q; P",
        "P = R; R = @(a,1).R; Q = (a,T).Q; Q + P",
        "P = (a,1).P; P + P + @(a,T).P",
        "P = (a,1).P; Q = (b,1).P + @(a,T).Q; (P + (c,1).Q) || (P + Q)",
        "P = (a,1).P; Q = P + @(a,T).Q; R = Q + P; R",
    ];
    are_judged(&rt, rt.alloc(), &texts)
}

// The first leaf by number: sequential constants go before the others, and a leaf before what follows its activities.
#[test]
fn first_leaf(rt: HostRuntime) -> Result<(), Fail> {
    let texts = [
        "P = (b,1).P; Q = (a,1).Q + @(a,T).Q; R = (a,1).R + (a,T).R; P",
        "P = (c,1).((a,1).P + @(a,T).P); P",
        "P = (c,1).((a,1).P + (a,T).P); Q = (a,1).Q + @(a,T).Q; P",
        "S = P || (a,1).P + (a,T).P; P = (b,1).P + @(b,T).P; S",
        "S = P || (a,1).P + @(a,T).P; P = (b,1).P; S || (b,1).P + (b,T).P",
        "P = (a,1).P; (a,1).P + @(a,T).P",
        "P = (a,1).P; P || (b,1).P + @(b,T).P",
        "P = (a,1).P; (P || (b,1).P + @(b,T).P)/{b} || (c,1).P + (c,T).P",
        "P = (a,1).P; S = P || (a,1).P + @(a,T).P; P",
        "P = (a,1).(b,1).((c,1).P + @(c,T).P); P",
        "P = (a,1).((b,1).P + @(b,T).P) + (a,1).((c,1).P + (c,T).P); P",
        "P = (a,1).((b,1).((c,1).P + (c,T).P) + @(b,T).P); P",
    ];
    are_judged(&rt, rt.alloc(), &texts)
}

// Where the leaf's expression is first written.
#[test]
fn first_writing(rt: HostRuntime) -> Result<(), Fail> {
    let texts = [
        "P = (b,1).((a,1).P + @(a,T).P); Q = (c,1).((a,1).P + (a,T).P); Q",
        "P = (b,1).((a,1).P + @(a,2*T).P) + (c,1).((a,1.0).P + (a,2.0*infty).P); P",
        "P = (b,1).P; ((a,1).P + @(a,T).P) || ((a,1).P + (a,T).P)",
        "P = (b,1).P; S = (a,1).P + @(a,T).P || P; ((a,1).P + (a,T).P) || S",
    ];
    are_judged(&rt, rt.alloc(), &texts)
}

#[test]
fn lines_and_columns(rt: HostRuntime) {
    let table = [
        ("P =\n (a,1).P\n + (a,T).P; P", 3, 4),
        ("P = (a,1).P;\n\n\tQ = (a, T).P; /*\n*/ P + Q", 3, 6),
    ];
    for (text, line, column) in table {
        let want = refused(CheckCause::MixedChoice, line, column);
        assert_eq!(rt;
            end_of(&rt, rt.alloc(), text.as_bytes()),
            Some(want),
            "{text}"
        );
    }
}

/// A constant with a mixed activity, a constant without, and compound constants of 2, 4 and so on up to 256 leaves, `C7`.
fn push_front(out: &mut String) -> Result<(), AllocError> {
    write!(out, "M=(a,1).M+(a,T).M;P=(a,1).P;C0=P||P;")?;
    for below in 0..7_u32 {
        let number = below + 1;
        write!(out, "C{number}=C{below}||C{below};")?;
    }
    Ok(())
}

// A file has faults of several kinds: the kind that stands first in the list of `check` is told. `C7` passes a limit and `M`
// is mixed.
#[test]
fn kinds_in_order(rt: HostRuntime) -> Result<(), Fail> {
    let table = [
        (
            CheckCause::Unsupported,
            "P=P;@probe a;probe Z::{Y>1}b;(a,0).X/{tau}||C7",
        ),
        (CheckCause::Twice, "@P=(b,1).P;C7"),
        (CheckCause::UnknownName, "C7||@X"),
        (CheckCause::TauInSet, "C7/{@tau}"),
        (CheckCause::BadRate, "(a,@0).P||C7"),
        (CheckCause::NotSequential, "@C7+P"),
        (CheckCause::ModelCycle, "@A=A||P;C7"),
        (CheckCause::Unguarded, "@A=A;C7"),
        (CheckCause::TooMany, "@C7"),
    ];
    for (cause, text) in table {
        let mut whole = String::new(rt.alloc());
        push_front(&mut whole)?;
        write!(whole, "{text}")?;
        is_judged(&rt, rt.alloc(), cause, &whole)?;
    }
    Ok(())
}

// The same kinds before a mixed activity alone.
#[test]
fn mixed_is_last(rt: HostRuntime) -> Result<(), Fail> {
    let table = [
        (CheckCause::Twice, "M = (a,1).M+(a,T).M; @M = (a,1).M; M"),
        (CheckCause::UnknownName, "M = (a,1).M + (a,T).@N; M"),
        (CheckCause::TauInSet, "M = (a,1).M + (a,T).M; M <@tau> M"),
        (CheckCause::BadRate, "M = (a,1).M + (a,T).M + (b,@0).M; M"),
        (
            CheckCause::NotSequential,
            "M = (a,1).M+(a,T).M; P = (b,1).(@M||M); M",
        ),
        (
            CheckCause::ModelCycle,
            "M = (a,1).M + (a,T).M; @A = A/{}; M",
        ),
        (CheckCause::Unguarded, "@M = (a,1).M + (a,T).M + M; M"),
        (CheckCause::MixedChoice, "M = (a,1).M + @(a,T).M; M"),
    ];
    for (cause, text) in table {
        is_judged(&rt, rt.alloc(), cause, text)?;
    }
    Ok(())
}
