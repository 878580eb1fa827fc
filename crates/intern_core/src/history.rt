//! The history of an interner.

use sqlite_items::Items;

/// What is interned: two words, whose meaning the interner doesn't know.
#[derive(Clone, Copy, Debug, PartialEq, Eq)]
pub struct Key {
    pub one: u64,
    pub two: u64,
}

/// The three words of one entry of a list.
#[derive(Clone, Copy, Debug, PartialEq, Eq)]
pub struct EntryWords(pub [u64; 3]);

/// The entries of a list, which contracts see as a list of their words.
pub type Words = Items<EntryWords>;

/// What a call for a key is answered: its number, or that the table is full.
#[derive(Clone, Copy, Debug, PartialEq, Eq)]
pub enum Reply {
    Num(u32),
    Full,
}

/// One entry of the history.
#[derive(Debug, Drop)]
pub enum Entry {
    /// A pass asked for a key, and was answered.
    Call {
        pass: u32,
        key: Key,
        answer: Reply,
    },
    /// A pass published the list of a number.
    List {
        pass: u32,
        number: u32,
        words: Words,
    },
    /// A pass had a list of this length for a number, and another pass had published one before.
    Lost {
        pass: u32,
        number: u32,
        length: u32,
    },
}
