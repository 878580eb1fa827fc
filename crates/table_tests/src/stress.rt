//! Four threads on small tables: whatever they do, each key has one number, and each number at most one list.
ghost use Rattle.std.specs.Prelude.{◌≡◌, ◌<◌, ◌≤◌, IfOk};
ghost use Rattle.std.specs.Thread.{IsSync};
ghost use Rattle.intern_core.specs.declared.seat.Phase.TheVariants.{Idle};
ghost use Rattle.chain_rule.specs.Passes.{Belongs};
ghost use Rattle.chain_rule.specs.Rule.{IsFront};

use crate::anything::{Anything, last_pass};
use crate::lists::publisher_of;
use crate::shared::{Handed, intern_all, intern_by_two};
use chain_rule::{Pass, Table, meet, note};
use intern_core::{Key, Shape};
use std::alloc::{AllocError, Global};
use std::process::Abort;
use std::test::Fail;
use std::thread::{Threads, join};

// How many keys each thread asks for.
const CALLS: u32 = 60;

// What four threads hand back, two and two.
#[derive(Drop)]
struct Four {
    left: (Handed, Handed),
    right: (Handed, Handed),
}

// The passes of four threads.
#[derive(Drop)]
struct Passes4 {
    a: Pass<Anything>,
    b: Pass<Anything>,
    c: Pass<Anything>,
    d: Pass<Anything>,
}

// The keys that four threads ask for, one after another.
#[derive(Drop)]
struct Asked {
    a: Vec<Key>,
    b: Vec<Key>,
    c: Vec<Key>,
    d: Vec<Key>,
}

// The key with this number, of which some share a word.
fn key_at(n: u32) -> Key {
    Key {
        one: u64::from(n / 2),
        two: u64::from(n % 2),
    }
}

// Keys out of so many, by a linear congruence whose high bits are taken.
fn some_keys(alloc: Global, count: u32, seed: u64) -> Result<Vec<Key>, AllocError> {
    let mut keys = Vec::new(alloc);
    let mut state = seed;
    for _ in 0..CALLS {
        state = state
            .wrapping_mul(6364136223846793005)
            .wrapping_add(1442695040888963407);
        let drawn = (state >> 33) as u32;
        let n = if count == 0 { 0 } else { drawn % count };
        keys.push(key_at(n))?;
    }
    Ok(keys)
}

fn keys_asked(alloc: Global, count: u32, seed: u64) -> Result<Asked, AllocError> {
    Ok(Asked {
        a: some_keys(alloc, count, seed)?,
        b: some_keys(alloc, count, seed.wrapping_add(1))?,
        c: some_keys(alloc, count, seed.wrapping_add(2))?,
        d: some_keys(alloc, count, seed.wrapping_add(3))?,
    })
}

// Four threads intern these keys, each with a pass of its own.
fn intern_by_four<R: Threads + Sync>(
    rt: &R,
    alloc: Global,
    table: &Table<Anything>,
    passes: Passes4,
    keys: &Asked,
) -> Result<Four, AllocError>
    requires a { Belongs passes.a table.now.table_id table.now.setting × (passes.a.view.seat.phase ≡ Idle) }
    requires b { Belongs passes.b table.now.table_id table.now.setting × (passes.b.view.seat.phase ≡ Idle) }
    requires c { Belongs passes.c table.now.table_id table.now.setting × (passes.c.view.seat.phase ≡ Idle) }
    requires d { Belongs passes.d table.now.table_id table.now.setting × (passes.d.view.seat.phase ≡ Idle) }
    ensures a { IfOk result (λ f. Belongs f.left.0.pass table.now.table_id table.now.setting × (f.left.0.pass.view.seat.phase ≡ Idle)) }
    ensures b { IfOk result (λ f. Belongs f.left.1.pass table.now.table_id table.now.setting × (f.left.1.pass.view.seat.phase ≡ Idle)) }
    ensures c { IfOk result (λ f. Belongs f.right.0.pass table.now.table_id table.now.setting × (f.right.0.pass.view.seat.phase ≡ Idle)) }
    ensures d { IfOk result (λ f. Belongs f.right.1.pass table.now.table_id table.now.setting × (f.right.1.pass.view.seat.phase ≡ Idle)) }
{
    let Passes4 { a, b, c, d } = passes;
    let (left, right) = join(
        rt,
        move || -> Result<(Handed, Handed), AllocError>
            requires { IsSync R.row × Belongs a table.now.table_id table.now.setting × (a.view.seat.phase ≡ Idle) × Belongs b table.now.table_id table.now.setting × (b.view.seat.phase ≡ Idle) }
            ensures { IfOk result (λ h. Belongs h.0.pass table.entry.now.table_id table.entry.now.setting × (h.0.pass.view.seat.phase ≡ Idle) × Belongs h.1.pass table.entry.now.table_id table.entry.now.setting × (h.1.pass.view.seat.phase ≡ Idle)) }
        { intern_by_two(rt, alloc, table, a, b, keys.a.as_slice(), keys.b.as_slice()) },
        move || -> Result<(Handed, Handed), AllocError>
            requires { IsSync R.row × Belongs c table.now.table_id table.now.setting × (c.view.seat.phase ≡ Idle) × Belongs d table.now.table_id table.now.setting × (d.view.seat.phase ≡ Idle) }
            ensures { IfOk result (λ h. Belongs h.0.pass table.entry.now.table_id table.entry.now.setting × (h.0.pass.view.seat.phase ≡ Idle) × Belongs h.1.pass table.entry.now.table_id table.entry.now.setting × (h.1.pass.view.seat.phase ≡ Idle)) }
        { intern_by_two(rt, alloc, table, c, d, keys.c.as_slice(), keys.d.as_slice()) },
    );
    Ok(Four {
        left: left?,
        right: right?,
    })
}

// The pass takes in what this one has seen.
fn meet_with(table: &Table<Anything>, pass: &mut Pass<Anything>, other: &mut Pass<Anything>)
    requires own { Belongs pass.old table.now.table_id table.now.setting × (pass.old.view.seat.phase ≡ Idle) }
    requires other { Belongs other.old table.now.table_id table.now.setting }
    ensures own { Belongs pass.new table.now.table_id table.now.setting × (pass.new.view.seat.phase ≡ Idle) }
    ensures other { other.new ≡ other.old }
    ensures old { IsFront pass.old.view.front pass.new.view.front }
    ensures met { IsFront other.old.view.front pass.new.view.front }
{
    let seen = note(table, other);
    meet(table, pass, seen);
}

// Two threads agree: equal keys have equal numbers, and different keys different ones. A number is 0 where the table was full.
fn agree(
    rt: &impl Abort,
    nodes: u32,
    keys: &[Key],
    numbers: &[u32],
    others: &[Key],
    other_numbers: &[u32],
) {
    assert!(rt; keys.len() == numbers.len() && others.len() == other_numbers.len());
    for i in 0..keys.len() {
        assert!(rt; numbers[i] <= nodes);
        for j in 0..others.len() {
            if numbers[i] != 0 && other_numbers[j] != 0 {
                assert_eq!(rt; keys[i] == others[j], numbers[i] == other_numbers[j]);
            }
        }
    }
}

// Each key that a thread got a number for has it still.
fn still(rt: &impl Abort, count: u32, numbers: &[u32], keys: &[Key], got: &[u32]) {
    assert!(rt; keys.len() == got.len() && numbers.len() == count as usize);
    for i in 0..keys.len() {
        if got[i] != 0 {
            let mut met = false;
            for n in 0..count {
                if key_at(n) == keys[i] {
                    assert_eq!(rt; numbers[n as usize], got[i]);
                    met = true;
                }
            }
            assert!(rt; met);
        }
    }
}

// All keys that there are.
fn all_keys(alloc: Global, count: u32) -> Result<Vec<Key>, AllocError> {
    let mut keys = Vec::new(alloc);
    for n in 0..count {
        keys.push(key_at(n))?;
    }
    Ok(keys)
}

// How many numbers are not 0.
fn known(numbers: &[u32]) -> u32 {
    let mut known = 0u32;
    for number in numbers {
        if *number != 0 {
            known = known.wrapping_add(1);
        }
    }
    known
}

// What four threads were answered is one table's: they agree, each with itself and with the others, and with the fifth pass.
fn are_of_one_table(
    rt: &impl Abort,
    shape: &Shape,
    keys: &Asked,
    four: &Four,
    count: u32,
    numbers: &[u32],
) {
    let nodes = shape.nodes;
    let rows = [
        (keys.a.as_slice(), four.left.0.numbers.as_slice()),
        (keys.b.as_slice(), four.left.1.numbers.as_slice()),
        (keys.c.as_slice(), four.right.0.numbers.as_slice()),
        (keys.d.as_slice(), four.right.1.numbers.as_slice()),
    ];
    for (one, got) in rows {
        still(rt, count, numbers, one, got);
        for (other, other_got) in rows {
            agree(rt, nodes, one, got, other, other_got);
        }
    }
    let full = known(numbers) < count;
    assert!(rt; !full || known(numbers).saturating_add(shape.passes) >= nodes);
    assert!(rt; known(numbers) > 0);
}

// Each list that a thread published is its number's, whole, also for another pass.
fn lists_are_there(
    rt: &impl Abort,
    table: &Table<Anything>,
    pass: &mut Pass<Anything>,
    keys: &[Key],
    firsts: &[bool],
    publisher: u32,
)
    requires own { Belongs pass.old table.now.table_id table.now.setting }
    requires idle { pass.old.view.seat.phase ≡ Idle }
    ensures own { Belongs pass.new table.now.table_id table.now.setting }
    ensures idle { pass.new.view.seat.phase ≡ Idle }
{
    assert!(rt; keys.len() == firsts.len());
    for i in 0..keys.len() {
        if firsts[i] {
            let found = publisher_of(table, pass, keys[i]);
            assert!(rt; found == Some(u64::from(publisher)));
        }
    }
}

// How many lists were published.
fn published(firsts: &[bool]) -> u32 {
    let mut published = 0u32;
    for first in firsts {
        if *first {
            published = published.wrapping_add(1);
        }
    }
    published
}

// The lists of four threads are those of their numbers, and fit the region.
fn lists_are_of_one_table(
    rt: &impl Abort,
    table: &Table<Anything>,
    pass: &mut Pass<Anything>,
    entries: u32,
    keys: &Asked,
    four: &Four,
)
    requires own { Belongs pass.old table.now.table_id table.now.setting }
    requires idle { pass.old.view.seat.phase ≡ Idle }
{
    let (a, b) = (&four.left.0, &four.left.1);
    let (c, d) = (&four.right.0, &four.right.1);
    let firsts = [
        a.firsts.as_slice(),
        b.firsts.as_slice(),
        c.firsts.as_slice(),
        d.firsts.as_slice(),
    ];
    lists_are_there(
        rt,
        table,
        pass,
        keys.a.as_slice(),
        firsts[0],
        a.pass.seat().pass,
    );
    lists_are_there(
        rt,
        table,
        pass,
        keys.b.as_slice(),
        firsts[1],
        b.pass.seat().pass,
    );
    lists_are_there(
        rt,
        table,
        pass,
        keys.c.as_slice(),
        firsts[2],
        c.pass.seat().pass,
    );
    lists_are_there(
        rt,
        table,
        pass,
        keys.d.as_slice(),
        firsts[3],
        d.pass.seat().pass,
    );
    let mut all = 0u32;
    for each in firsts {
        all = all.saturating_add(published(each));
    }
    assert!(rt; all.saturating_mul(3) <= entries);
    assert!(rt; entries < 3 || all > 0);
}

fn run_four<R: Threads + Abort + Sync>(
    rt: &R,
    alloc: Global,
    nodes: u32,
    bucket_bits: u32,
    count: u32,
    entries: u32,
) -> Result<(), AllocError>
    requires { (0 < nodes) × (nodes ≤ 64) × (bucket_bits ≤ 4) × (entries ≤ 200) }
{
    let shape = Shape {
        nodes,
        bucket_bits,
        entries,
        passes: 5,
    };
    let (table, mut passes) = Table::make(alloc, Anything, shape)?;
    let mut fifth = last_pass(&table, &mut passes).expect(rt, "a pass");
    let d = last_pass(&table, &mut passes).expect(rt, "a pass");
    let c = last_pass(&table, &mut passes).expect(rt, "a pass");
    let b = last_pass(&table, &mut passes).expect(rt, "a pass");
    let a = last_pass(&table, &mut passes).expect(rt, "a pass");
    let keys = keys_asked(alloc, count, u64::from(nodes))?;
    let mut four = intern_by_four(rt, alloc, &table, Passes4 { a, b, c, d }, &keys)?;
    meet_with(&table, &mut fifth, &mut four.left.0.pass);
    meet_with(&table, &mut fifth, &mut four.left.1.pass);
    meet_with(&table, &mut fifth, &mut four.right.0.pass);
    meet_with(&table, &mut fifth, &mut four.right.1.pass);
    let all = all_keys(alloc, count)?;
    let mut handed = intern_all(alloc, &table, fifth, all.as_slice())?;
    are_of_one_table(rt, &shape, &keys, &four, count, handed.numbers.as_slice());
    lists_are_of_one_table(rt, &table, &mut handed.pass, entries, &keys, &four);
    Ok(())
}

#[test]
fn four_threads_on_small_tables(rt: HostRuntime) -> Result<(), Fail> {
    let table = [
        (2, 0, 2, 0),
        (2, 0, 5, 6),
        (3, 1, 3, 2),
        (8, 2, 8, 10),
        (8, 2, 20, 200),
        (16, 0, 16, 48),
        (33, 3, 30, 31),
        (64, 4, 40, 200),
    ];
    for (nodes, bucket_bits, count, entries) in table {
        assert!(rt; 0 < nodes && nodes <= 64 && bucket_bits <= 4 && entries <= 200);
        run_four(&rt, rt.alloc(), nodes, bucket_bits, count, entries)?;
    }
    Ok(())
}
