//! What a seat may do.

use crate::history::{Key, Words};

/// One act of one seat.
///
/// `Ask`, `Look`, `FetchLen`, `FetchEntry` and `Offer` begin a call at an idle seat and touch no word. Each other act is one step of
/// a call, which reads or changes one word.
#[derive(Debug, Drop)]
pub enum Act {
    /// Asks for the number of a key.
    Ask(Key),
    /// Asks for the key of a known number.
    Look(u32),
    /// Asks for the length of a known number's list.
    FetchLen(u32),
    /// Asks for an entry of a number's list, from 0.
    FetchEntry(u32, u32),
    /// Offers a list of at most 4,096 entries for a known number.
    Offer { number: u32, words: Words },
    /// Adds one to the claim word of the nodes: takes a number for the seat, or marks the seat full.
    Claim,
    /// Stores the first key word of the own number.
    StoreOne,
    /// Stores its second key word.
    StoreTwo,
    /// Loads the link that the seat has reached.
    LoadLink,
    /// Loads the first key word of the node that the seat has reached.
    LoadOne,
    /// Loads its second key word.
    LoadTwo,
    /// Exchanges the link that the seat has reached from 0 to the own number.
    SwapLink,
    /// Adds the offered length to the claim word of the entries: takes a block, or finds no room.
    ClaimBlock,
    /// Stores the next word of the own block.
    StoreWord,
    /// Loads the number's list word.
    LoadList,
    /// Loads the next word of the entry asked for.
    LoadWord,
    /// Exchanges the number's list word from 0 to the own block.
    SwapList,
}

/// An act of a seat, numbered from 0.
#[derive(Debug, Drop)]
pub struct Event {
    pub seat: u32,
    pub act: Act,
}

/// Why a list of events ended.
#[derive(Clone, Copy, Debug, PartialEq, Eq)]
pub enum RunCoreFault {
    /// The event with this number, from 0, is the first that isn't its seat's next one.
    NotEnabled(u64),
    /// There was no memory for the interner, or for an entry.
    Memory,
}
