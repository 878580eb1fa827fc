//! Trees of probe expressions and guards, whose nodes hold indices of tokens.

/// A guard, as it is written. Brackets round it leave no trace.
#[derive(Debug, Drop)]
pub enum GuardTree {
    /// A comparison, by the indices of its constant, its relation and its number.
    Count {
        which: usize,
        relation: usize,
        number: usize,
    },
    /// Both guards, `&&`.
    Both(Box<GuardTree>, Box<GuardTree>),
    /// Either guard, `||`.
    Either(Box<GuardTree>, Box<GuardTree>),
    /// Not the guard, `!`.
    Not(Box<GuardTree>),
}

/// A probe expression, as it is written. Brackets round it leave no trace.
#[derive(Debug, Drop)]
pub enum ProbeTree {
    /// The letter at this index.
    One(usize),
    /// One expression and then another, `,`.
    Then(Box<ProbeTree>, Box<ProbeTree>),
    /// One expression or another, `|`.
    Or(Box<ProbeTree>, Box<ProbeTree>),
    /// An expression with the label at this index, `:`.
    Label(Box<ProbeTree>, usize),
    /// Any number of times, `*`.
    Star(Box<ProbeTree>),
    /// At least once, `+`.
    Plus(Box<ProbeTree>),
    /// At most once, `?`.
    Maybe(Box<ProbeTree>),
    /// As often as the number at this index says.
    Times(Box<ProbeTree>, usize),
    /// At least and at most as often as the numbers at these indices say.
    Between(Box<ProbeTree>, usize, usize),
    /// An expression that begins anew at the letter at this index, `/`.
    Reset(Box<ProbeTree>, usize),
    /// An expression with a guard before it.
    Guarded(GuardTree, Box<ProbeTree>),
}

/// A probe expression, and the index after it.
#[derive(Debug, Drop)]
pub struct ProbeRead {
    pub tree: ProbeTree,
    pub next: usize,
}
