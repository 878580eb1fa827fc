//! Which call on a list begins.

/// Which call on the list of a number begins with the load of its list word.
#[derive(Clone, Copy, Debug, PartialEq, Eq)]
pub enum Begins {
    /// The length of the list is asked for.
    FetchLen,
    /// An entry of the list is asked for, from 0.
    FetchEntry(u32),
    /// A list is offered. Its words are told where its block is claimed.
    Offer,
}
