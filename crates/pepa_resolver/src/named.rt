//! Processes and files with numbers in place of names.

use indexmap::IndexMap;
use pepa_model::Name;
use pepa_rates::Rate;
use sqlite_items::Items;

/// A process with numbers in place of names.
#[derive(Debug, Drop)]
pub enum NamedProcess {
    /// The constant at this index, by its number.
    Constant {
        at: usize,
        number: u32,
    },
    /// An activity, by the index of its `(` and its action type's number, with its rate, and what follows it.
    Prefix {
        at: usize,
        action: u32,
        rate: Rate,
        next: Box<NamedProcess>,
    },
    /// A choice between two processes.
    Choice(Box<NamedProcess>, Box<NamedProcess>),
    /// A cooperation, with the numbers of the action types in its set.
    Coop {
        left: Box<NamedProcess>,
        right: Box<NamedProcess>,
        set: Items<u32>,
    },
    /// A hiding, with the numbers of the action types in its set.
    Hide {
        inner: Box<NamedProcess>,
        set: Items<u32>,
    },
}

/// A file with numbers in place of names, exact rates and sets in ascending order, without a fault of its limits on lines, its
/// names, its sets and its rates.
///
/// Each constant and each action type in its processes has a number that is there, and there are at most 1,024 constants.
#[derive(Drop)]
pub struct NumberedFile {
    /// The names of the constants, each at the place of its number: that of its line among the process lines.
    pub constants: IndexMap<Name, ()>,
    /// `tau`, and then each action type at its first place in the text, each at the place of its number.
    pub actions: IndexMap<Name, ()>,
    /// What the constants stand for, by number.
    pub bodies: Items<NamedProcess>,
    pub system: NamedProcess,
}
