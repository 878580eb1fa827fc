//! Positions, and why there are none.
use crate::guard::Guards;
use crate::letter::Letter;
use sqlite_items::Items;
use std::alloc::AllocError;

/// Whole numbers of 16 bits, which contracts see as their list.
pub type Words16 = Items<u16>;

/// Whole numbers of 32 bits, which contracts see as their list.
pub type Words32 = Items<u32>;

/// Whole numbers of 64 bits, which contracts see as their list.
pub type Words64 = Items<u64>;

/// A position: a letter, its guards in the order in which they were added, and the set of its labels.
///
/// Bit l of `labels` is label l.
#[derive(Debug, Drop)]
pub struct Position {
    pub letter: Letter,
    pub guards: Guards,
    pub labels: u64,
}

/// Positions, which contracts see as their list.
pub type PositionList = Items<Position>;

/// The positions of an expression.
///
/// `first`, `last` and each entry of `follow` are sets of positions; bit i is position i.
#[derive(Debug, Drop)]
pub struct Positions {
    pub each: PositionList,
    /// Those at which a word can begin.
    pub first: u64,
    /// Those at which a word can end.
    pub last: u64,
    /// For each position those that can come next.
    pub follow: Words64,
    /// Whether the empty word is a word.
    pub empty: bool,
}

/// Why there are no positions.
#[derive(Clone, Copy, Debug, PartialEq, Eq)]
pub enum PositionsFault {
    /// There are more than 63.
    TooManyPositions,
    /// There was no memory for them.
    Memory,
}

impl From<AllocError> for PositionsFault {
    ghost use Rattle.probe_words.specs.declared.position_list.PositionsFault.TheVariants.{Memory};
    ghost use Rattle.std.specs.Prelude.{◌≡◌};

    ghost from_gives = { λ _ end. end ≡ Memory };

    fn from(_error: AllocError) -> PositionsFault {
        PositionsFault::Memory
    }
}
