//! Acts as plain data, and the lists that tests offer.

use intern_core::{Act, EntryWords, Event, Key, Words};
use std::alloc::{AllocError, Global};

/// An act; a list is offered by its length and its first word.
#[derive(Clone, Copy, Debug, PartialEq, Eq)]
pub enum Move {
    Ask(Key),
    Look(u32),
    FetchLen(u32),
    FetchEntry(u32, u32),
    Offer(u32, u32, u64),
    Claim,
    StoreOne,
    StoreTwo,
    LoadLink,
    LoadOne,
    LoadTwo,
    SwapLink,
    ClaimBlock,
    StoreWord,
    LoadList,
    LoadWord,
    SwapList,
}

/// The entry at this place of a list with this first word.
pub fn entry_at(first: u64, at: u32) -> EntryWords {
    let word = first.wrapping_add(u64::from(at).wrapping_mul(16));
    EntryWords([word, word.wrapping_add(1), word.wrapping_add(2)])
}

/// The entries of a list.
pub fn list_of(alloc: Global, length: u32, first: u64) -> Result<Words, AllocError> {
    let mut words = Words::new(alloc);
    for at in 0..length {
        words.push(entry_at(first, at))?;
    }
    Ok(words)
}

/// The event of a seat.
pub fn event_of(alloc: Global, seat: u32, step: Move) -> Result<Event, AllocError> {
    let act = match step {
        Move::Ask(key) => Act::Ask(key),
        Move::Look(number) => Act::Look(number),
        Move::FetchLen(number) => Act::FetchLen(number),
        Move::FetchEntry(number, at) => Act::FetchEntry(number, at),
        Move::Offer(number, length, first) => {
            let words = list_of(alloc, length, first)?;
            Act::Offer { number, words }
        }
        Move::Claim => Act::Claim,
        Move::StoreOne => Act::StoreOne,
        Move::StoreTwo => Act::StoreTwo,
        Move::LoadLink => Act::LoadLink,
        Move::LoadOne => Act::LoadOne,
        Move::LoadTwo => Act::LoadTwo,
        Move::SwapLink => Act::SwapLink,
        Move::ClaimBlock => Act::ClaimBlock,
        Move::StoreWord => Act::StoreWord,
        Move::LoadList => Act::LoadList,
        Move::LoadWord => Act::LoadWord,
        Move::SwapList => Act::SwapList,
    };
    Ok(Event { seat, act })
}

/// An entry of a history as plain data; a list by its length and its first word.
#[derive(Clone, Copy, Debug, PartialEq, Eq)]
pub enum Noted {
    Call(u32, Key, intern_core::Reply),
    List(u32, u32, u32, u64),
    Lost(u32, u32, u32),
}
