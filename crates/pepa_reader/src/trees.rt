//! Trees of files, rates and processes, whose nodes hold indices of tokens.

use probe_reader::ProbeTree;
use sqlite_items::Items;

/// A rate, as it is written.
#[derive(Debug, Drop)]
pub enum RateTree {
    /// The number at this index.
    Number(usize),
    /// The rate name at this index.
    Name(usize),
    /// A passive rate: the index of its weight, if it has one, and of its `infty` or `T`.
    Top {
        weight: Option<usize>,
        at: usize,
    },
    /// Two rates and the index of the operator between them.
    Op {
        at: usize,
        left: Box<RateTree>,
        right: Box<RateTree>,
    },
    /// A rate in brackets.
    Bracket(Box<RateTree>),
}

/// A process, as it is written. Brackets round it leave no trace.
#[derive(Debug, Drop)]
pub enum ProcessTree {
    /// The constant at this index.
    Constant(usize),
    /// An activity, by the index of its `(`, with its rate, and what follows it. Its action type is the token behind the `(`.
    Prefix {
        at: usize,
        rate: RateTree,
        next: Box<ProcessTree>,
    },
    /// A choice between two processes.
    Choice(Box<ProcessTree>, Box<ProcessTree>),
    /// A cooperation, by the index of its `||` or `<`, with the indices of the words of its set.
    Coop {
        at: usize,
        left: Box<ProcessTree>,
        right: Box<ProcessTree>,
        set: Indices,
    },
    /// A hiding, with the indices of the words of its set.
    Hide {
        inner: Box<ProcessTree>,
        set: Indices,
    },
}

/// Indices of tokens.
pub type Indices = Items<usize>;

/// A line that gives a rate a name, by the index of its first token, which is the name.
#[derive(Debug, Drop)]
pub struct RateLine {
    pub at: usize,
    pub rate: RateTree,
}

/// A line that gives a process a name, by the index of its first token, which is the name.
#[derive(Debug, Drop)]
pub struct ProcessLine {
    pub at: usize,
    pub body: ProcessTree,
}

/// A line that writes a probe, by the index of its first token, `probe`, and of its target, if it has one.
#[derive(Debug, Drop)]
pub struct ProbeLine {
    pub at: usize,
    pub target: Option<usize>,
    pub expr: ProbeTree,
}

/// The rate lines of a file, in order.
pub type RateLines = Items<RateLine>;

/// The process lines of a file, in order.
pub type ProcessLines = Items<ProcessLine>;

/// The probe lines of a file, in order.
pub type ProbeLines = Items<ProbeLine>;

/// A file, as it is written. Every number in it is the index of a token.
#[derive(Debug, Drop)]
pub struct FileTree {
    pub rates: RateLines,
    pub processes: ProcessLines,
    pub probes: ProbeLines,
    pub system: ProcessTree,
}
