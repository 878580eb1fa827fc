//! Probe expressions.
ghost use Rattle.std.specs.Prelude.{◌≡◌, ◌↔◌, IfOk, IsTrue};
ghost use Rattle.probe_words.specs.Words.{IsProperPattern};
ghost use Rattle.probe_words.specs.Twins.{pattern_of};

use crate::guard::Guard;
use crate::letter::Letter;
use std::alloc::{AllocError, Global};

/// A probe's expression.
#[derive(Debug, Drop)]
pub enum Expr {
    /// One letter.
    One(Letter),
    /// `R, S`: a word of the first, then a word of the second.
    Then(Box<Expr>, Box<Expr>),
    /// `R | S`: a word of either.
    Or(Box<Expr>, Box<Expr>),
    /// `R:l`: the label on the last letter.
    Label(Box<Expr>, u32),
    /// `R*`: any number of words in a row.
    Star(Box<Expr>),
    /// `R+`: at least one word.
    Plus(Box<Expr>),
    /// `R?`: at most one word.
    Maybe(Box<Expr>),
    /// `R n`: exactly n words in a row.
    Times(Box<Expr>, u32),
    /// `R{m,n}`: from m to n words in a row.
    Between(Box<Expr>, u32, u32),
    /// `R/a`: R, which begins anew after each letter a.
    Reset(Box<Expr>, Letter),
    /// `{g} R`: the guard on the first letter.
    Guarded(Guard, Box<Expr>),
}

impl Expr {
    /// An equal expression.
    pub fn copy(&self, alloc: Global) -> Result<Expr, AllocError>
        ensures { IfOk result (λ expr. pattern_of expr ≡ pattern_of self.now) }
    {
        Ok(match self {
            Expr::One(letter) => Expr::One(*letter),
            Expr::Then(left, right) => {
                let left = Box::new(alloc, left.copy(alloc)?)?;
                Expr::Then(left, Box::new(alloc, right.copy(alloc)?)?)
            }
            Expr::Or(left, right) => {
                let left = Box::new(alloc, left.copy(alloc)?)?;
                Expr::Or(left, Box::new(alloc, right.copy(alloc)?)?)
            }
            Expr::Label(inner, label) => Expr::Label(Box::new(alloc, inner.copy(alloc)?)?, *label),
            Expr::Star(inner) => Expr::Star(Box::new(alloc, inner.copy(alloc)?)?),
            Expr::Plus(inner) => Expr::Plus(Box::new(alloc, inner.copy(alloc)?)?),
            Expr::Maybe(inner) => Expr::Maybe(Box::new(alloc, inner.copy(alloc)?)?),
            Expr::Times(inner, count) => Expr::Times(Box::new(alloc, inner.copy(alloc)?)?, *count),
            Expr::Between(inner, least, most) => {
                Expr::Between(Box::new(alloc, inner.copy(alloc)?)?, *least, *most)
            }
            Expr::Reset(inner, letter) => {
                Expr::Reset(Box::new(alloc, inner.copy(alloc)?)?, *letter)
            }
            Expr::Guarded(guard, inner) => {
                let guard = guard.copy(alloc)?;
                Expr::Guarded(guard, Box::new(alloc, inner.copy(alloc)?)?)
            }
        })
    }

    /// Whether repeat counts are from 0 to 63, the first at most the second, and labels below 64: what `positions` asks for.
    pub fn is_proper(&self) -> bool
        ensures { IsTrue result ↔ IsProperPattern (pattern_of self.now) }
    {
        match self {
            Expr::One(_) => true,
            Expr::Then(left, right) => left.is_proper() && right.is_proper(),
            Expr::Or(left, right) => left.is_proper() && right.is_proper(),
            Expr::Label(inner, label) => inner.is_proper() && *label < 64,
            Expr::Star(inner) => inner.is_proper(),
            Expr::Plus(inner) => inner.is_proper(),
            Expr::Maybe(inner) => inner.is_proper(),
            Expr::Times(inner, count) => inner.is_proper() && *count < 64,
            Expr::Between(inner, least, most) => {
                inner.is_proper() && *least <= *most && *most < 64
            }
            Expr::Reset(inner, _) => inner.is_proper(),
            Expr::Guarded(_, inner) => inner.is_proper(),
        }
    }
}
