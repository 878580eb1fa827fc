//! Expressions with numbers as the tables write them.

use probe_words::{Expr, Guard, Letter, Relation};
use std::alloc::AllocError;
use std::fmt::Write;

fn relation_sign(relation: Relation) -> &'static str {
    match relation {
        Relation::Less => "<",
        Relation::AtMost => "<=",
        Relation::More => ">",
        Relation::AtLeast => ">=",
        Relation::Equal => "==",
        Relation::Unequal => "!=",
    }
}

/// `[0 > 1]`: a comparison; `(& 0 1)`, `(o 0 1)` and `(! 0)`: both, either, and not.
fn write_guard(out: &mut String, guard: &Guard) -> Result<(), AllocError> {
    match guard {
        Guard::Count {
            which,
            relation,
            number,
        } => {
            let sign = relation_sign(*relation);
            write!(out, "[{which} {sign} {number}]")
        }
        Guard::Both(left, right) => {
            write!(out, "(& ")?;
            write_guard(out, left)?;
            write!(out, " ")?;
            write_guard(out, right)?;
            write!(out, ")")
        }
        Guard::Either(left, right) => {
            write!(out, "(o ")?;
            write_guard(out, left)?;
            write!(out, " ")?;
            write_guard(out, right)?;
            write!(out, ")")
        }
        Guard::Not(inner) => {
            write!(out, "(! ")?;
            write_guard(out, inner)?;
            write!(out, ")")
        }
    }
}

/// `A1`: an action; `S1`: a label.
fn write_letter(out: &mut String, letter: Letter) -> Result<(), AllocError> {
    match letter {
        Letter::Action(number) => write!(out, "A{number}"),
        Letter::Signal(number) => write!(out, "S{number}"),
    }
}

/// What is written before the parts of an expression.
fn sign_of(expr: &Expr) -> &'static str {
    match expr {
        Expr::One(_) => "",
        Expr::Then(_, _) => "(, ",
        Expr::Or(_, _) => "(| ",
        Expr::Label(_, _) => "(: ",
        Expr::Star(_) => "(* ",
        Expr::Plus(_) => "(+ ",
        Expr::Maybe(_) => "(? ",
        Expr::Times(_, _) => "(# ",
        Expr::Between(_, _, _) => "({ ",
        Expr::Reset(_, _) => "(/ ",
        Expr::Guarded(_, _) => "(g ",
    }
}

/// A letter; else the sign of an expression and its parts, with `#` for a repeat, `{` for one between two numbers, and `g` for a guard.
pub fn write_expr(out: &mut String, expr: &Expr) -> Result<(), AllocError> {
    let sign = sign_of(expr);
    write!(out, "{sign}")?;
    match expr {
        Expr::One(letter) => return write_letter(out, *letter),
        Expr::Then(left, right) => {
            write_expr(out, left)?;
            write!(out, " ")?;
            write_expr(out, right)?;
        }
        Expr::Or(left, right) => {
            write_expr(out, left)?;
            write!(out, " ")?;
            write_expr(out, right)?;
        }
        Expr::Star(inner) => write_expr(out, inner)?,
        Expr::Plus(inner) => write_expr(out, inner)?,
        Expr::Maybe(inner) => write_expr(out, inner)?,
        Expr::Label(inner, label) => {
            write_expr(out, inner)?;
            write!(out, " {label}")?;
        }
        Expr::Times(inner, count) => {
            write_expr(out, inner)?;
            write!(out, " {count}")?;
        }
        Expr::Between(inner, least, most) => {
            write_expr(out, inner)?;
            write!(out, " {least} {most}")?;
        }
        Expr::Reset(inner, letter) => {
            write_expr(out, inner)?;
            write!(out, " ")?;
            write_letter(out, *letter)?;
        }
        Expr::Guarded(guard, inner) => {
            write_guard(out, guard)?;
            write!(out, " ")?;
            write_expr(out, inner)?;
        }
    }
    write!(out, ")")
}
