//! Letters of probe expressions.
use sqlite_items::Items;

/// What a probe hears: an action or a signal, by its number.
#[derive(Clone, Copy, Debug, PartialEq, Eq)]
pub enum Letter {
    /// The action of this number.
    Action(u32),
    /// The label of this number, which another probe sends.
    Signal(u32),
}

/// Letters, which contracts see as their list.
pub type Letters = Items<Letter>;
