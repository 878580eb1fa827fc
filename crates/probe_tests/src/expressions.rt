//! Expressions read from a short notation, and positions written in one.
//!
//! The notation is postfix, with a blank between tokens: a1 is the action 1, s2 the signal 2, `,` a sequence, `|` an alternative, `*`, `+`
//! and `?` themselves, :3 the label 3, #5 five times, {1-3 from one to three times, /a1 the reset at the action 1, g0 the guard that
//! the count 0 is above 1.

use probe_words::{Expr, Guard, Letter, Position, Positions, Relation};
use std::alloc::{AllocError, Global};
use std::fmt::Write;
use std::process::Abort;
use std::str;

/// A number in decimal digits; 0 where there is none.
fn number(digits: &str) -> u32 {
    digits.parse().unwrap_or(0)
}

/// The letter of a token.
pub fn letter(token: &str) -> Letter {
    match token.strip_prefix("s") {
        Some(digits) => Letter::Signal(number(digits)),
        None => Letter::Action(number(token.strip_prefix("a").unwrap_or(""))),
    }
}

/// The guard that this count is above 1.
fn guard(which: u32) -> Guard {
    Guard::Count {
        which,
        relation: Relation::More,
        number: 1,
    }
}

/// The expression of a form over one part.
fn over_one(alloc: Global, form: u8, rest: &str, part: Expr) -> Result<Expr, AllocError> {
    let inner = Box::new(alloc, part)?;
    Ok(match form {
        b'*' => Expr::Star(inner),
        b'+' => Expr::Plus(inner),
        b'?' => Expr::Maybe(inner),
        b':' => Expr::Label(inner, number(rest)),
        b'#' => Expr::Times(inner, number(rest)),
        b'{' => match rest.split_once("-") {
            Some((least, most)) => Expr::Between(inner, number(least), number(most)),
            None => Expr::Between(inner, 64, 64),
        },
        b'/' => Expr::Reset(inner, letter(rest)),
        _ => Expr::Guarded(guard(number(rest)), inner),
    })
}

/// The expression of a form over two parts.
fn over_two(alloc: Global, form: u8, left: Expr, right: Expr) -> Result<Expr, AllocError> {
    let left = Box::new(alloc, left)?;
    let right = Box::new(alloc, right)?;
    Ok(if form == b',' {
        Expr::Then(left, right)
    } else {
        Expr::Or(left, right)
    })
}

/// Reads one token; the parts read so far are on the stack. None where a part is missing.
fn read_token(
    alloc: Global,
    stack: &mut Vec<Expr>,
    token: &str,
) -> Result<Option<Expr>, AllocError> {
    let Some((form, rest)) = token.as_bytes().split_first() else {
        return Ok(None);
    };
    let form = *form;
    if form == b'a' || form == b's' {
        return Ok(Some(Expr::One(letter(token))));
    }
    let Some(last) = stack.pop() else {
        return Ok(None);
    };
    if form == b',' || form == b'|' {
        return match stack.pop() {
            Some(left) => Ok(Some(over_two(alloc, form, left, last)?)),
            None => Ok(None),
        };
    }
    let rest = str::from_utf8(rest).unwrap_or("");
    Ok(Some(over_one(alloc, form, rest, last)?))
}

/// The expression of this notation, if it is one.
pub fn read(alloc: Global, text: &str) -> Result<Option<Expr>, AllocError> {
    let mut stack = Vec::new(alloc);
    for token in text.split(" ") {
        match read_token(alloc, &mut stack, token)? {
            Some(expr) => stack.push(expr)?,
            None => return Ok(None),
        }
    }
    Ok(stack.pop())
}

fn write_letter(out: &mut String, letter: &Letter) -> Result<(), AllocError> {
    match letter {
        Letter::Action(number) => write!(out, "a{number}"),
        Letter::Signal(number) => write!(out, "s{number}"),
    }
}

fn write_guard(out: &mut String, guard: &Guard) -> Result<(), AllocError> {
    match guard {
        Guard::Count { which, .. } => write!(out, "g{which}"),
        _ => write!(out, "?"),
    }
}

fn write_position(out: &mut String, position: &Position, follow: u64) -> Result<(), AllocError> {
    write!(out, "; ")?;
    write_letter(out, &position.letter)?;
    write!(out, "[")?;
    for guard in position.guards.as_slice() {
        write_guard(out, guard)?;
    }
    let labels = position.labels;
    write!(out, "] labels {labels} then {follow}")
}

/// The positions, as the table has them.
pub fn write_positions(out: &mut String, positions: &Positions) -> Result<(), AllocError> {
    let count = positions.each.len();
    let first = positions.first;
    let last = positions.last;
    let empty = if positions.empty { "empty" } else { "full" };
    write!(out, "{count} first {first} last {last} {empty}")?;
    for (position, follow) in positions
        .each
        .as_slice()
        .iter()
        .zip(positions.follow.as_slice())
    {
        write_position(out, position, *follow)?;
    }
    Ok(())
}
