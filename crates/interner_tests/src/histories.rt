//! Histories against plain data.

use crate::moves::{Noted, entry_at};
use intern_core::{Entry, EntryWords};
use std::process::Abort;

// These are the entries of a list with this length and this first word.
fn is_list(words: &[EntryWords], length: u32, first: u64) -> bool {
    if words.len() != length as usize {
        return false;
    }
    let mut at: u32 = 0;
    for entry in words {
        if *entry != entry_at(first, at) {
            return false;
        }
        at = at.wrapping_add(1);
    }
    true
}

fn is_noted(entry: &Entry, noted: &Noted) -> bool {
    match (entry, noted) {
        (Entry::Call { pass, key, answer }, Noted::Call(p, k, a)) => pass == p
            && key == k
            && answer == a,
        (
            Entry::List {
                pass,
                number,
                words,
            },
            Noted::List(p, n, length, first),
        ) => { pass == p && number == n && is_list(words.as_slice(), *length, *first) }
        (
            Entry::Lost {
                pass,
                number,
                length,
            },
            Noted::Lost(p, n, l),
        ) => pass == p && number == n && length == l,
        _ => false,
    }
}

/// The history has these entries and no other.
pub fn has_entries(rt: &impl Abort, history: &[Entry], want: &[Noted]) {
    assert_eq!(rt; history.len(), want.len());
    for (entry, noted) in history.iter().zip(want) {
        assert!(rt; is_noted(entry, noted), "{noted:?}");
    }
}
