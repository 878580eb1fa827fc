//! Lists are published and read.
ghost use Rattle.std.specs.Prelude.{◌≡◌, []};
ghost use Rattle.intern_core.specs.declared.seat.Phase.TheVariants.{Idle};
ghost use Rattle.chain_rule.specs.Passes.{Belongs};

use crate::anything::{Anything, last_pass};
use chain_rule::{Pass, Table, meet, note};
use intern_core::{EntryWords, Key, Published, Shape};
use list_store::{list_entry, list_len, publish};
use std::alloc::{AllocError, Global};
use std::test::Fail;
use term_table::{Full, intern};

const K: Key = Key { one: 4, two: 0 };

const L: Key = Key { one: 8, two: 0 };

/// The number of a key, or 0 where the table is full, and what becomes of a list for it, where it has none yet.
pub fn offer(
    table: &Table<Anything>,
    pass: &mut Pass<Anything>,
    key: Key,
    words: &[EntryWords],
) -> (u32, Option<Published>)
    requires own { Belongs pass.old table.now.table_id table.now.setting }
    requires idle { pass.old.view.seat.phase ≡ Idle }
    ensures own { Belongs pass.new table.now.table_id table.now.setting }
    ensures idle { pass.new.view.seat.phase ≡ Idle }
{
    if words.len() > 4096 {
        return (0, None);
    }
    match intern(table, pass, key) {
        Ok(number) => match list_len(table, pass, number) {
            Some(_) => (number, None),
            None => (number, Some(publish(table, pass, number, words))),
        },
        Err(_) => (0, None),
    }
}

/// The length of the list that the number of a key has.
pub fn length_of(table: &Table<Anything>, pass: &mut Pass<Anything>, key: Key) -> Option<u32>
    requires own { Belongs pass.old table.now.table_id table.now.setting }
    requires idle { pass.old.view.seat.phase ≡ Idle }
    ensures own { Belongs pass.new table.now.table_id table.now.setting }
    ensures idle { pass.new.view.seat.phase ≡ Idle }
{
    match intern(table, pass, key) {
        Ok(number) => list_len(table, pass, number),
        Err(_) => None,
    }
}

/// The entry of the list of a key's number at this place, if the list is so long.
pub fn entry_of(
    table: &Table<Anything>,
    pass: &mut Pass<Anything>,
    key: Key,
    at: u32,
) -> Option<EntryWords>
    requires own { Belongs pass.old table.now.table_id table.now.setting }
    requires idle { pass.old.view.seat.phase ≡ Idle }
    ensures own { Belongs pass.new table.now.table_id table.now.setting }
    ensures idle { pass.new.view.seat.phase ≡ Idle }
{
    match intern(table, pass, key) {
        Ok(number) => match list_len(table, pass, number) {
            Some(length) => {
                if at < length {
                    Some(list_entry(table, pass, number, at))
                } else {
                    None
                }
            }
            None => None,
        },
        Err(_) => None,
    }
}

// A second pass takes in what the first has seen, and offers a list for the number of a key. It has made no entry before.
fn offer_after_note(
    table: &Table<Anything>,
    first: &mut Pass<Anything>,
    second: &mut Pass<Anything>,
    key: Key,
    words: &[EntryWords],
) -> Option<Published>
    requires first { Belongs first.old table.now.table_id table.now.setting }
    requires second { Belongs second.old table.now.table_id table.now.setting }
    requires idle { second.old.view.seat.phase ≡ Idle }
    requires mine { second.old.view.mine ≡ [] }
    ensures first { first.new ≡ first.old }
{
    if words.len() > 4096 {
        return None;
    }
    let seen = note(table, first);
    meet(table, second, seen);
    match intern(table, second, key) {
        Ok(number) => Some(publish(table, second, number, words)),
        Err(_) => None,
    }
}

/// The number of a key, or 0 where the table is full, and whether this pass then publishes a list for it, which tells both.
pub fn intern_and_offer(table: &Table<Anything>, pass: &mut Pass<Anything>, key: Key) -> (u32, bool)
    requires own { Belongs pass.old table.now.table_id table.now.setting }
    requires idle { pass.old.view.seat.phase ≡ Idle }
    ensures own { Belongs pass.new table.now.table_id table.now.setting }
    ensures idle { pass.new.view.seat.phase ≡ Idle }
{
    let entry = EntryWords([key.one, key.two, u64::from(pass.seat().pass)]);
    let words = [entry, entry, entry];
    let (number, published) = offer(table, pass, key, &words);
    (number, matches!(published, Some(Published::First)))
}

/// The pass whose list the number of a key has, if it has one that is whole.
pub fn publisher_of(table: &Table<Anything>, pass: &mut Pass<Anything>, key: Key) -> Option<u64>
    requires own { Belongs pass.old table.now.table_id table.now.setting }
    requires idle { pass.old.view.seat.phase ≡ Idle }
    ensures own { Belongs pass.new table.now.table_id table.now.setting }
    ensures idle { pass.new.view.seat.phase ≡ Idle }
{
    let first = entry_of(table, pass, key, 0);
    let second = entry_of(table, pass, key, 1);
    let third = entry_of(table, pass, key, 2);
    told_by(key, first, second, third)
}

// The pass that three entries tell, if they are its list for the key.
fn told_by(
    key: Key,
    first: Option<EntryWords>,
    second: Option<EntryWords>,
    third: Option<EntryWords>,
) -> Option<u64> {
    let pass = first?.0[2];
    let words = [key.one, key.two, pass];
    if is_entry(first, words) && is_entry(second, words) && is_entry(third, words) {
        Some(pass)
    } else {
        None
    }
}

fn is_entry(entry: Option<EntryWords>, words: [u64; 3]) -> bool {
    match entry {
        Some(entry) => {
            entry.0[0] == words[0] && entry.0[1] == words[1] && entry.0[2] == words[2]
        }
        None => false,
    }
}

// So many entries, from this one on.
fn entries(alloc: Global, from: u64, count: u64) -> Result<Vec<EntryWords>, AllocError> {
    let mut words = Vec::new(alloc);
    for n in 0..count {
        let one = from.wrapping_add(n);
        words.push(EntryWords([one, one, 7]))?;
    }
    Ok(words)
}

// A list is published once: another pass is answered that there is one.
#[test]
fn list_is_published_once(rt: HostRuntime) -> Result<(), Fail> {
    let shape = Shape {
        nodes: 4,
        bucket_bits: 1,
        entries: 8,
        passes: 2,
    };
    let (table, mut passes) = Table::make(rt.alloc(), Anything, shape)?;
    let mut second = last_pass(&table, &mut passes).expect(&rt, "a pass");
    let mut first = last_pass(&table, &mut passes).expect(&rt, "a pass");
    let two = entries(rt.alloc(), 0, 2)?;
    let one = entries(rt.alloc(), 5, 1)?;
    assert!(rt; length_of(&table, &mut first, K).is_none());
    let published = offer(&table, &mut first, K, two.as_slice());
    assert!(rt; matches!(published, (1, Some(Published::First))));
    let published = offer_after_note(&table, &mut first, &mut second, K, one.as_slice());
    assert!(rt; matches!(published, Some(Published::Already)));
    assert!(rt; matches!(length_of(&table, &mut first, K), Some(2)));
    assert!(rt; is_entry(entry_of(&table, &mut first, K, 1), [1, 1, 7]));
    Ok(())
}

// A full region of entries, and then a full table: what the pass can still do.
#[test]
fn full_region_and_full_table(rt: HostRuntime) -> Result<(), Fail> {
    let shape = Shape {
        nodes: 2,
        bucket_bits: 0,
        entries: 8,
        passes: 1,
    };
    let (table, mut passes) = Table::make(rt.alloc(), Anything, shape)?;
    let mut pass = last_pass(&table, &mut passes).expect(&rt, "a pass");
    let eight = entries(rt.alloc(), 0, 8)?;
    let one = entries(rt.alloc(), 9, 1)?;
    let published = offer(&table, &mut pass, K, eight.as_slice());
    assert!(rt; matches!(published, (1, Some(Published::First))));
    assert!(rt; !pass.no_room());
    let published = offer(&table, &mut pass, L, one.as_slice());
    assert!(rt; matches!(published, (2, Some(Published::NoRoom))));
    assert!(rt; pass.no_room());
    let published = offer(&table, &mut pass, L, one.as_slice());
    assert!(rt; matches!(published, (2, Some(Published::NoRoom))));
    assert!(rt; length_of(&table, &mut pass, L).is_none());
    let third = intern(&table, &mut pass, Key { one: 12, two: 0 });
    assert!(rt; matches!(third, Err(Full)));
    assert!(rt; pass.marked() && pass.spare().is_none() && pass.no_room());
    assert!(rt; is_entry(entry_of(&table, &mut pass, K, 7), [7, 7, 7]));
    assert!(rt; entry_of(&table, &mut pass, K, 8).is_none());
    Ok(())
}
