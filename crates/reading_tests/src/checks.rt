//! Files from their bytes to their models, or to the first thing that is wrong with them.

mod limits;
mod mixed;
mod models;
mod structure;

use pepa_checks::{CheckCause, CheckEnd, check};
use pepa_lexer::{LexFault, Place, tokens};
use pepa_model::{Model, Shape2};
use pepa_reader::{FileFault, read_file};
use std::alloc::Global;
use std::process::Abort;
use std::test::Fail;

/// Where the way of a text ends that has no model.
#[derive(Clone, Copy, Debug, PartialEq, Eq)]
enum End {
    Lexed(LexFault),
    Read(FileFault),
    Checked(CheckEnd),
}

fn model_of(rt: &impl Abort, alloc: Global, text: &[u8]) -> Result<Model, End> {
    assert!(rt; text.len() <= 1 << 20);
    let list = match tokens(alloc, text) {
        Ok(list) => list,
        Err(fault) => return Err(End::Lexed(fault)),
    };
    let tree = match read_file(alloc, list.as_slice(), text) {
        Ok(tree) => tree,
        Err(fault) => return Err(End::Read(fault)),
    };
    match check(alloc, &tree, list.as_slice(), text) {
        Ok(model) => Ok(model),
        Err(end) => Err(End::Checked(end)),
    }
}

fn end_of(rt: &impl Abort, alloc: Global, text: &[u8]) -> Option<End> {
    model_of(rt, alloc, text).err()
}

fn refused(cause: CheckCause, line: u32, column: u32) -> End {
    let place = Place { line, column };
    End::Checked(CheckEnd::Refused { cause, place })
}

/// The place of the mark, `@`, in a text that has one, and the text without it.
fn without_mark(alloc: Global, text: &str) -> Result<(String, Option<Place>), Fail> {
    let Some((front, back)) = text.split_once('@') else {
        return Ok((format!(in alloc; "{text}")?, None));
    };
    let column = u32::try_from(front.len())?.saturating_add(1);
    let plain = format!(in alloc; "{front}{back}")?;
    Ok((plain, Some(Place { line: 1, column })))
}

/// A text of one line is refused where its mark stands, and has a model where it has none.
fn is_judged(rt: &impl Abort, alloc: Global, cause: CheckCause, text: &str) -> Result<(), Fail> {
    let (plain, place) = without_mark(alloc, text)?;
    let want = place.map(|place| End::Checked(CheckEnd::Refused { cause, place }));
    assert_eq!(rt; end_of(rt, alloc, plain.as_bytes()), want, "{text}");
    Ok(())
}

/// How many leaves a system without compound constants has.
fn leaves_in(shape: &Shape2) -> usize {
    match shape {
        Shape2::Leaf(_) => 1,
        Shape2::Constant(_) => 0,
        Shape2::Coop(left, right, _) => leaves_in(left).saturating_add(leaves_in(right)),
        Shape2::Hide(inner, _) => leaves_in(inner),
    }
}

#[test]
fn a_small_model(rt: HostRuntime) -> Result<(), Fail> {
    let text = b"P = (a,2).P; Q = (a,3).Q1 + (a,1).Q2; Q1 = (b,1).Q; Q2 = (b,1).Q; P <a> Q";
    let model = model_of(&rt, rt.alloc(), text)?;
    assert_eq!(rt; model.constants.len(), 4);
    assert_eq!(rt; model.actions.len(), 3);
    assert_eq!(rt; leaves_in(&model.system), 2);
    Ok(())
}

// By which of the three calls a text is refused, and where.
#[test]
fn ends(rt: HostRuntime) {
    let table = [
        (
            "P /* x",
            End::Lexed(LexFault::OpenComment(Place { line: 1, column: 3 })),
        ),
        (
            "P = (a",
            End::Read(FileFault::Expected(Place { line: 1, column: 7 })),
        ),
        (
            "P = (a,1).P; P[3]",
            End::Read(FileFault::Array(Place {
                line: 1,
                column: 15,
            })),
        ),
        (
            "P = (a,1).P; P <*> P",
            End::Read(FileFault::Wildcard(Place {
                line: 1,
                column: 17,
            })),
        ),
        (
            "P = (a,1).P + (a,infty).P; P",
            refused(CheckCause::MixedChoice, 1, 15),
        ),
        ("A = A + (a,1).A; A", refused(CheckCause::Unguarded, 1, 1)),
    ];
    for (text, want) in table {
        let found = end_of(&rt, rt.alloc(), text.as_bytes());
        assert_eq!(rt; found, Some(want), "{text}");
    }
}

// The longest text there may be, of white space.
#[test]
fn nothing_but_spaces(rt: HostRuntime) -> Result<(), Fail> {
    let text = vec![in rt.alloc(); b' '; 1 << 20]?;
    let place = Place {
        line: 1,
        column: 1_048_577,
    };
    let found = end_of(&rt, rt.alloc(), text.as_slice());
    assert_eq!(rt; found, Some(End::Read(FileFault::Expected(place))));
    Ok(())
}
