//! Trees of expressions and guards as the tables write them.

use probe_reader::{GuardTree, ProbeTree};
use std::alloc::AllocError;
use std::fmt::Write;

/// `[0 1 2]`: a comparison; `(& 0 1)`, `(o 0 1)` and `(! 0)`: both, either, and not.
fn write_guard(out: &mut String, tree: &GuardTree) -> Result<(), AllocError> {
    match tree {
        GuardTree::Count {
            which,
            relation,
            number,
        } => write!(out, "[{which} {relation} {number}]"),
        GuardTree::Both(left, right) => {
            write!(out, "(& ")?;
            write_guard(out, left)?;
            write!(out, " ")?;
            write_guard(out, right)?;
            write!(out, ")")
        }
        GuardTree::Either(left, right) => {
            write!(out, "(o ")?;
            write_guard(out, left)?;
            write!(out, " ")?;
            write_guard(out, right)?;
            write!(out, ")")
        }
        GuardTree::Not(inner) => {
            write!(out, "(! ")?;
            write_guard(out, inner)?;
            write!(out, ")")
        }
    }
}

/// What is written before the parts of a tree.
fn sign_of(tree: &ProbeTree) -> &'static str {
    match tree {
        ProbeTree::One(_) => "",
        ProbeTree::Then(_, _) => "(, ",
        ProbeTree::Or(_, _) => "(| ",
        ProbeTree::Label(_, _) => "(: ",
        ProbeTree::Star(_) => "(* ",
        ProbeTree::Plus(_) => "(+ ",
        ProbeTree::Maybe(_) => "(? ",
        ProbeTree::Times(_, _) => "(# ",
        ProbeTree::Between(_, _, _) => "({ ",
        ProbeTree::Reset(_, _) => "(/ ",
        ProbeTree::Guarded(_, _) => "(g ",
    }
}

/// `0`: a letter; else its sign and its parts, with `#` for a repeat, `{` for one between two numbers, and `g` for a guard.
pub fn write_tree(out: &mut String, tree: &ProbeTree) -> Result<(), AllocError> {
    let sign = sign_of(tree);
    write!(out, "{sign}")?;
    match tree {
        ProbeTree::One(at) => return write!(out, "{at}"),
        ProbeTree::Then(left, right) => {
            write_tree(out, left)?;
            write!(out, " ")?;
            write_tree(out, right)?;
        }
        ProbeTree::Or(left, right) => {
            write_tree(out, left)?;
            write!(out, " ")?;
            write_tree(out, right)?;
        }
        ProbeTree::Star(inner) => write_tree(out, inner)?,
        ProbeTree::Plus(inner) => write_tree(out, inner)?,
        ProbeTree::Maybe(inner) => write_tree(out, inner)?,
        ProbeTree::Label(inner, name) => {
            write_tree(out, inner)?;
            write!(out, " {name}")?;
        }
        ProbeTree::Times(inner, number) => {
            write_tree(out, inner)?;
            write!(out, " {number}")?;
        }
        ProbeTree::Between(inner, least, most) => {
            write_tree(out, inner)?;
            write!(out, " {least} {most}")?;
        }
        ProbeTree::Reset(inner, name) => {
            write_tree(out, inner)?;
            write!(out, " {name}")?;
        }
        ProbeTree::Guarded(guard, inner) => {
            write_guard(out, guard)?;
            write!(out, " ")?;
            write_tree(out, inner)?;
        }
    }
    write!(out, ")")
}
