//! A call with its steps counted.
ghost use Rattle.std.specs.Prelude.{◌≡◌, ◌<◌};
ghost use Rattle.intern_core.specs.declared.seat.Phase.TheVariants.{Idle};
ghost use Rattle.chain_rule.specs.Passes.{Belongs};

use crate::anything::{Anything, last_pass};
use chain_rule::{Pass, Steps, Table};
use intern_core::{Key, Shape};
use std::marker::Brand;
use std::sync::ledger::{Blank, Ledger};
use std::test::Fail;
use term_table::{Full, intern_counted};

fn counted<L: Ledger>(
    table: &Table<Anything>,
    pass: &mut Pass<Anything>,
    key: Key,
    blank: Blank,
) -> Result<u32, Full>
    requires blank { (blank.name ≡ L.name) × (blank.parts ≡ L.parts) × (0 < L.parts) }
    requires own { Belongs pass.old table.now.table_id table.now.setting }
    requires idle { pass.old.view.seat.phase ≡ Idle }
    ensures own { Belongs pass.new table.now.table_id table.now.setting }
    ensures idle { pass.new.view.seat.phase ≡ Idle }
{
    let mut steps = Steps::<L>::make(blank);
    intern_counted(table, pass, key, &mut steps)
}

#[test]
fn steps_are_counted(rt: HostRuntime) -> Result<(), Fail> {
    let shape = Shape {
        nodes: 2,
        bucket_bits: 0,
        entries: 0,
        passes: 1,
    };
    let (table, mut passes) = Table::make(rt.alloc(), Anything, shape)?;
    let mut pass = last_pass(&table, &mut passes).expect(&rt, "a pass");
    let key = Key { one: 1, two: 2 };
    let first = counted::<Brand>(&table, &mut pass, key, Blank::new(1));
    assert!(rt; matches!(first, Ok(1)));
    let again = counted::<Brand>(&table, &mut pass, key, Blank::new(1));
    assert!(rt; matches!(again, Ok(1)));
    Ok(())
}
