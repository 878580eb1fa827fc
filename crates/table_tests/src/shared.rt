//! Several threads intern the same keys, and offer lists for their numbers.
ghost use Rattle.std.specs.Prelude.{◌≡◌, IfOk};
ghost use Rattle.intern_core.specs.declared.seat.Phase.TheVariants.{Idle};
ghost use Rattle.chain_rule.specs.Passes.{Belongs};

use crate::anything::{Anything, last_pass};
use crate::lists::intern_and_offer;
use chain_rule::{Pass, Table, meet, note};
use intern_core::{Key, Shape};
use std::alloc::{AllocError, Global};
use std::process::Abort;
use std::test::Fail;
use std::thread::{Threads, join};

/// What a thread hands back: its pass, the number of each key, or 0 where the table was full, and whether it has published a list
/// for it.
#[derive(Drop)]
pub struct Handed {
    pub pass: Pass<Anything>,
    pub numbers: Vec<u32>,
    pub firsts: Vec<bool>,
}

/// Interns keys one after another, and offers a list for each number that has none.
pub fn intern_all(
    alloc: Global,
    table: &Table<Anything>,
    pass: Pass<Anything>,
    keys: &[Key],
) -> Result<Handed, AllocError>
    requires own { Belongs pass table.now.table_id table.now.setting }
    requires idle { pass.view.seat.phase ≡ Idle }
    ensures own { IfOk result (λ h. Belongs h.pass table.now.table_id table.now.setting) }
    ensures idle { IfOk result (λ h. h.pass.view.seat.phase ≡ Idle) }
{
    let mut pass = pass;
    let mut numbers = Vec::new(alloc);
    let mut firsts = Vec::new(alloc);
    for key in keys {
        let (number, first) = intern_and_offer(table, &mut pass, *key);
        numbers.push(number)?;
        firsts.push(first)?;
    }
    Ok(Handed {
        pass,
        numbers,
        firsts,
    })
}

// Forty keys, of which some share a word.
fn forty_keys(alloc: Global) -> Result<Vec<Key>, AllocError> {
    let mut keys = Vec::new(alloc);
    for n in 0..40u64 {
        keys.push(Key {
            one: n / 2,
            two: n % 2,
        })?;
    }
    Ok(keys)
}

// The same keys from the last to the first.
fn from_the_end(alloc: Global, keys: &[Key]) -> Result<Vec<Key>, AllocError> {
    let mut back = Vec::new(alloc);
    for key in keys.iter().rev() {
        back.push(*key)?;
    }
    Ok(back)
}

/// Two threads intern these keys, each with a pass of its own.
pub fn intern_by_two<R: Threads + Sync>(
    rt: &R,
    alloc: Global,
    table: &Table<Anything>,
    first: Pass<Anything>,
    second: Pass<Anything>,
    up: &[Key],
    down: &[Key],
) -> Result<(Handed, Handed), AllocError>
    requires first { Belongs first table.now.table_id table.now.setting × (first.view.seat.phase ≡ Idle) }
    requires second { Belongs second table.now.table_id table.now.setting × (second.view.seat.phase ≡ Idle) }
    ensures first { IfOk result (λ h. Belongs h.0.pass table.now.table_id table.now.setting × (h.0.pass.view.seat.phase ≡ Idle)) }
    ensures second { IfOk result (λ h. Belongs h.1.pass table.now.table_id table.now.setting × (h.1.pass.view.seat.phase ≡ Idle)) }
{
    let (a, b) = join(
        rt,
        move || -> Result<Handed, AllocError>
            requires { Belongs first table.now.table_id table.now.setting × (first.view.seat.phase ≡ Idle) }
            ensures { IfOk result (λ h. Belongs h.pass table.entry.now.table_id table.entry.now.setting × (h.pass.view.seat.phase ≡ Idle)) }
        { intern_all(alloc, table, first, up) },
        move || -> Result<Handed, AllocError>
            requires { Belongs second table.now.table_id table.now.setting × (second.view.seat.phase ≡ Idle) }
            ensures { IfOk result (λ h. Belongs h.pass table.entry.now.table_id table.entry.now.setting × (h.pass.view.seat.phase ≡ Idle)) }
        { intern_all(alloc, table, second, down) },
    );
    Ok((a?, b?))
}

// Both threads get one number for each key, and forty different ones; a third pass that meets a note of each gets the same.
#[test]
fn two_threads_get_the_same_numbers(rt: HostRuntime) -> Result<(), Fail> {
    let shape = Shape {
        nodes: 64,
        bucket_bits: 2,
        entries: 0,
        passes: 3,
    };
    let (table, mut passes) = Table::make(rt.alloc(), Anything, shape)?;
    let mut third = last_pass(&table, &mut passes).expect(&rt, "a pass");
    let second = last_pass(&table, &mut passes).expect(&rt, "a pass");
    let first = last_pass(&table, &mut passes).expect(&rt, "a pass");
    let up = forty_keys(rt.alloc())?;
    let down = from_the_end(rt.alloc(), up.as_slice())?;
    let (mut a, mut b) = intern_by_two(
        &rt,
        rt.alloc(),
        &table,
        first,
        second,
        up.as_slice(),
        down.as_slice(),
    )?;
    let seen = note(&table, &mut a.pass);
    meet(&table, &mut third, seen);
    let seen = note(&table, &mut b.pass);
    meet(&table, &mut third, seen);
    let c = intern_all(rt.alloc(), &table, third, up.as_slice())?;
    are_numbers(
        &rt,
        a.numbers.as_slice(),
        b.numbers.as_slice(),
        c.numbers.as_slice(),
    );
    Ok(())
}

// Forty different numbers of the table, the same forwards, backwards and again.
fn are_numbers(rt: &impl Abort, up: &[u32], down: &[u32], again: &[u32]) {
    assert!(rt; up.len() == 40 && down.len() == 40 && again.len() == 40);
    for i in 0..40 {
        assert!(rt; 0 < up[i] && up[i] <= 64);
        assert_eq!(rt; up[i], down[39 - i]);
        assert_eq!(rt; up[i], again[i]);
        for j in 0..i {
            assert!(rt; up[i] != up[j]);
        }
    }
}
