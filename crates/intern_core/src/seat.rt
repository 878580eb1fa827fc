//! One seat: what it keeps between calls, and how far its call has come.

use crate::history::{Key, Words};

/// What a seat does next. A link is named by the node whose next word it is, or 0 for the head of the key's bucket; `passed`
/// counts the nodes of the bucket that the call has passed.
#[derive(Clone, Copy, Debug)]
pub enum Phase {
    /// It has no call.
    Idle,
    /// Next is `Claim`.
    Claiming(Key),
    /// Next is `StoreOne`.
    StoringOne(Key),
    /// Next is `StoreTwo`.
    StoringTwo(Key),
    /// Next is `LoadLink`.
    Linking {
        key: Key,
        from: u32,
        passed: u32,
    },
    /// Next is `SwapLink`.
    Swapping {
        key: Key,
        from: u32,
        passed: u32,
    },
    /// Next is `LoadOne` of a node, for a key.
    AtOne {
        key: Key,
        node: u32,
        passed: u32,
    },
    /// Next is `LoadTwo` of a node whose first key word is the key's.
    AtTwo {
        key: Key,
        node: u32,
        passed: u32,
    },
    /// Next is `LoadOne` of a number.
    LookingOne(u32),
    /// Next is `LoadTwo` of a number, whose first key word was this.
    LookingTwo(u32, u64),
    /// Next is `LoadList`, for the length of a number's list.
    MeasuringList(u32),
    /// Next is `LoadList`, for one entry of a number's list.
    FindingEntry {
        number: u32,
        at: u32,
    },
    /// Next is `LoadWord` of the first word of an entry of the table.
    ReadingOne {
        number: u32,
        at: u32,
        index: u32,
    },
    /// Next is `LoadWord` of its second word; the first was this.
    ReadingTwo {
        number: u32,
        at: u32,
        index: u32,
        one: u64,
    },
    /// Next is `LoadWord` of its third word; the first two were these.
    ReadingThree {
        number: u32,
        at: u32,
        index: u32,
        one: u64,
        two: u64,
    },
    /// Next is `LoadList`, to offer a list of so many entries.
    Offering {
        number: u32,
        length: u32,
    },
    /// Next is `ClaimBlock`.
    ClaimingBlock {
        number: u32,
        length: u32,
    },
    /// Next is `StoreWord`, after so many words of the block.
    StoringWord {
        number: u32,
        start: u32,
        length: u32,
        stored: u32,
    },
    /// Next is `SwapList`.
    SwappingList {
        number: u32,
        start: u32,
        length: u32,
    },
}

/// A seat: its pass, the length of an offer that found no room, its spare number (0 where it has none), whether it is marked full,
/// and its call.
#[derive(Clone, Copy, Debug)]
pub struct Seat {
    pub pass: u32,
    pub refused: Option<u32>,
    pub spare: u32,
    pub marked: bool,
    pub phase: Phase,
}

/// A seat, and the entries that it offers or offered last.
#[derive(Debug, Drop)]
pub struct SeatWithOffer {
    pub seat: Seat,
    pub offer: Words,
}
