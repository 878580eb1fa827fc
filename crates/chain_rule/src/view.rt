//! What a seat at the table knows.

use crate::meaning::Setting;
use intern_core::{Entry, EntryWords, Seat};
use std::collections::LinkedList;

/// What a pass or a note knows. No value of it is made. A note has a front alone.
pub struct View<M> {
    /// It is a pass, and no note.
    pub walks: bool,
    pub setting: Option<Setting<M>>,
    /// The history that it has seen.
    pub front: LinkedList<Entry>,
    /// What a note that was taken in had seen.
    pub met: LinkedList<Entry>,
    /// Its own entries.
    pub mine: LinkedList<Entry>,
    /// Its number, its spare, its mark and its call.
    pub seat: Seat,
    /// The entries that it offers or offered last.
    pub offer: LinkedList<EntryWords>,
    /// In the view of pass 0: how many passes were made.
    pub made: u32,
}
