//! Calls of one thread, worked out by hand.

use crate::anything::{Anything, last_pass};
use chain_rule::{Pass, Table, meet, note};
use intern_core::{Key, Shape};
use std::test::Fail;
use term_table::{Full, intern, key_of};

const K: Key = Key { one: 4, two: 0 };

const L: Key = Key { one: 8, two: 0 };

// A table of one number gives it to one key.
#[test]
fn table_of_one_number(rt: HostRuntime) -> Result<(), Fail> {
    let shape = Shape {
        nodes: 1,
        bucket_bits: 0,
        entries: 0,
        passes: 1,
    };
    let (table, mut passes) = Table::make(rt.alloc(), Anything, shape)?;
    assert_eq!(rt; passes.len(), 1);
    let mut pass = last_pass(&table, &mut passes).expect(&rt, "a pass");
    assert!(rt; matches!(intern(&table, &mut pass, K), Ok(1)));
    assert!(rt; matches!(intern(&table, &mut pass, L), Err(Full)));
    assert!(rt; pass.marked());
    let again = intern(&table, &mut pass, K);
    assert!(rt; matches!(again, Ok(1)));
    if let Ok(number) = again {
        assert_eq!(rt; key_of(&table, &mut pass, number), K);
    }
    Ok(())
}

// Two passes of one thread: a key has one number, a pass that lost keeps a spare, and a note tells what a pass has seen.
#[test]
fn two_passes_agree(rt: HostRuntime) -> Result<(), Fail> {
    let shape = Shape {
        nodes: 4,
        bucket_bits: 1,
        entries: 8,
        passes: 2,
    };
    let (table, mut passes) = Table::make(rt.alloc(), Anything, shape)?;
    assert_eq!(rt; passes.len(), 2);
    let mut second = last_pass(&table, &mut passes).expect(&rt, "a pass");
    let mut first = last_pass(&table, &mut passes).expect(&rt, "a pass");
    assert!(rt; first.seat().pass == 0 && second.seat().pass == 1);
    assert!(rt; matches!(intern(&table, &mut first, K), Ok(1)));
    assert!(rt; first.spare().is_none());
    assert!(rt; matches!(intern(&table, &mut second, K), Ok(1)));
    assert!(rt; matches!(second.spare(), Some(2)));
    assert!(rt; matches!(intern(&table, &mut second, L), Ok(2)));
    assert!(rt; second.spare().is_none() && !second.marked());
    let seen = note(&table, &mut second);
    meet(&table, &mut first, seen);
    let number = intern(&table, &mut first, L);
    assert!(rt; matches!(number, Ok(2)));
    if let Ok(number) = number {
        assert_eq!(rt; key_of(&table, &mut first, number), L);
    }
    Ok(())
}
