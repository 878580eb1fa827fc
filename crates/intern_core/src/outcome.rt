//! What an event answers, and why there is none.

use crate::history::{EntryWords, Key, Reply};
use thiserror::Error;

/// What one event answers.
#[derive(Clone, Copy, Debug, PartialEq, Eq)]
pub enum Outcome2 {
    /// The call goes on.
    Going,
    /// A call for a key is answered.
    Answered(Reply),
    /// A look at a number ends with its key.
    Found(Key),
    /// How long the list of a number is, if one is published.
    Length(Option<u32>),
    /// The words of an entry.
    Got(EntryWords),
    /// What became of an offer.
    Offered(Published),
}

/// What becomes of a list that is offered.
#[derive(Clone, Copy, Debug, PartialEq, Eq)]
pub enum Published {
    /// It is the number's list.
    First,
    /// The number had one.
    Already,
    /// There was no room for its entries.
    NoRoom,
}

/// Why an event didn't happen.
#[derive(Clone, Copy, Debug, PartialEq, Eq, Error)]
pub enum CoreFault {
    /// It isn't its seat's next one.
    #[error("the event is not its seat's next one")]
    NotEnabled,
    /// There was no memory for its entry.
    #[error("out of memory")]
    Memory,
}
