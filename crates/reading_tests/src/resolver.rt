//! Names, sets and rates of files, and the first thing that is wrong with them.

mod names;
mod numbers;
mod rates;

use pepa_lexer::{Place, tokens};
use pepa_reader::read_file;
use pepa_resolver::{NumberedFile, ResolveCause, ResolveEnd, resolve};
use sqlite_items::at as item;
use std::alloc::{AllocError, Global};
use std::fmt::Write;
use std::process::Abort;
use std::test::Fail;

fn refused(cause: ResolveCause, line: u32, column: u32) -> (ResolveCause, Place) {
    (cause, Place { line, column })
}

pub(crate) fn resolved(rt: &impl Abort, alloc: Global, text: &[u8]) -> Result<NumberedFile, Fail> {
    assert!(rt; text.len() <= 1 << 20);
    let list = tokens(alloc, text)?;
    let tree = read_file(alloc, list.as_slice(), text)?;
    Ok(resolve(alloc, &tree, list.as_slice(), text)?)
}

// Why and where a text is refused, if it is.
fn end_of(
    rt: &impl Abort,
    alloc: Global,
    text: &[u8],
) -> Result<Option<(ResolveCause, Place)>, Fail> {
    assert!(rt; text.len() <= 1 << 20);
    let list = tokens(alloc, text)?;
    let tree = read_file(alloc, list.as_slice(), text)?;
    match resolve(alloc, &tree, list.as_slice(), text).err() {
        None => Ok(None),
        Some(ResolveEnd::Refused { cause, at }) => {
            let token = item(list.as_slice(), at);
            Ok(token.map(|token| (cause, token.place)))
        }
        Some(ResolveEnd::Memory) => Err(AllocError)?,
    }
}

// A text of one line with a mark, `@`, is refused where the mark stands, and one without a mark is fine.
pub(crate) fn is_judged(
    rt: &impl Abort,
    alloc: Global,
    cause: ResolveCause,
    text: &str,
) -> Result<(), Fail> {
    let Some((front, back)) = text.split_once('@') else {
        assert_eq!(rt; end_of(rt, alloc, text.as_bytes())?, None, "{text}");
        return Ok(());
    };
    let plain = format!(in alloc; "{front}{back}")?;
    let column = u32::try_from(front.len())?.saturating_add(1);
    let want = Some(refused(cause, 1, column));
    assert_eq!(rt; end_of(rt, alloc, plain.as_bytes())?, want, "{text}");
    Ok(())
}

// Lines and columns begin at 1, and a column counts bytes.
#[test]
fn places(rt: HostRuntime) -> Result<(), Fail> {
    let table = [
        ("P", ResolveCause::UnknownName, 1, 1),
        ("\n\n P", ResolveCause::UnknownName, 3, 2),
        ("/* \u{e9} */ P", ResolveCause::UnknownName, 1, 10),
        (
            "P =\n (a, 1).\r\n\n   Q; P",
            ResolveCause::UnknownName,
            4,
            4,
        ),
        ("r = 1;\n\tr = 2;\nP", ResolveCause::Twice, 2, 2),
        (
            "P = (a, 1).P;\nP <\n// tau\n  tau> P",
            ResolveCause::TauInSet,
            4,
            3,
        ),
        ("P = (a, 1\n  - 1).P; P", ResolveCause::BadRate, 2, 3),
        (
            "P = (a, s).P;\n\ns = 2 -\n3 - 0; P",
            ResolveCause::BadRate,
            3,
            7,
        ),
    ];
    for (text, cause, line, column) in table {
        let found = end_of(&rt, rt.alloc(), text.as_bytes())?;
        assert_eq!(rt; found, Some(refused(cause, line, column)), "{text}");
    }
    Ok(())
}

// So many lines, each with its number between the front and the back.
fn push_numbered(
    text: &mut String,
    front: &str,
    back: &str,
    count: usize,
) -> Result<(), AllocError> {
    for i in 0..count {
        write!(text, "{front}{i}{back}\n")?;
    }
    Ok(())
}

fn too_many(line: u32, column: u32) -> Option<(ResolveCause, Place)> {
    Some(refused(ResolveCause::TooManyLines, line, column))
}

fn twice(line: u32, column: u32) -> Option<(ResolveCause, Place)> {
    Some(refused(ResolveCause::Twice, line, column))
}

// Each line of a file stands on a line of its own.
#[test]
fn limits(rt: HostRuntime) -> Result<(), Fail> {
    let rate = ("r", "=1;");
    let process = ("P", "=(a,1).P0;");
    // A rate line and a process line by turns, of which the one or the other has always the same name.
    let same_rate = ("r=1;\n P", "=P;");
    let same_process = (" P=P;\nr", "=1;");
    let table = [
        ([(rate, 1024), (process, 1024)], None),
        ([(process, 1024), (rate, 1024)], None),
        ([(rate, 1025), (process, 1)], too_many(1025, 1)),
        ([(process, 1025), (rate, 1)], too_many(1025, 1)),
        ([(process, 1024), (rate, 1025)], too_many(2049, 1)),
        ([(rate, 1024), (process, 1025)], too_many(2049, 1)),
        ([(rate, 1500), (process, 1500)], too_many(1025, 1)),
        ([(process, 1500), (rate, 1500)], too_many(1025, 1)),
        ([(same_rate, 1024), (process, 0)], twice(3, 1)),
        ([(same_rate, 1025), (process, 0)], too_many(2049, 1)),
        ([(same_process, 1024), (rate, 0)], twice(3, 2)),
        ([(same_process, 1025), (rate, 0)], too_many(2049, 2)),
    ];
    for (blocks, want) in table {
        let mut text = String::new(rt.alloc());
        for ((front, back), count) in blocks {
            push_numbered(&mut text, front, back, count)?;
        }
        write!(text, "P0")?;
        let found = end_of(&rt, rt.alloc(), text.as_bytes())?;
        assert_eq!(rt; found, want);
    }
    Ok(())
}
