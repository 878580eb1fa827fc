//! The key of a number.
ghost use Rattle.std.specs.Prelude.{◌≡◌, ◌<◌};
ghost use Rattle.intern_core.specs.declared.seat.Phase.TheVariants.{Idle};
ghost use Rattle.intern_core.specs.History.{known, uses};
ghost use Rattle.chain_rule.specs.Rule.{IsFront};
ghost use Rattle.chain_rule.specs.Passes.{Belongs, Stays};
ghost use Rattle.term_table.specs.Calls.{HasKey};

use chain_rule::{Meaning, Pass, Steps, Table, step_load_one, step_load_two};
use intern_core::Key;
use std::marker::Brand;
use std::sync::ledger::{Blank, Ledger};

/// The key that the front has for a number.
pub fn key_of<M: Meaning>(table: &Table<M>, pass: &mut Pass<M>, number: u32) -> Key
    requires own { Belongs pass.old table.now.table_id table.now.setting }
    requires idle { pass.old.view.seat.phase ≡ Idle }
    requires known { 0 < uses number (known pass.old.view.front) }
    ensures own { Belongs pass.new table.now.table_id table.now.setting }
    ensures key { HasKey number result (known pass.new.view.front) }
    ensures front { IsFront pass.old.view.front pass.new.view.front }
    ensures mine { pass.new.view.mine ≡ pass.old.view.mine }
    ensures same { pass.new.view.seat ≡ pass.old.view.seat }
    ensures stays { Stays M.lawful M.allowed M.stands table.now.setting pass.new.view }
{
    look::<M, Brand>(table, pass, number, Blank::new(1))
}

// Looks at the number's two key words.
fn look<M: Meaning, L: Ledger>(
    table: &Table<M>,
    pass: &mut Pass<M>,
    number: u32,
    blank: Blank,
) -> Key
    requires blank { (blank.name ≡ L.name) × (blank.parts ≡ L.parts) × (0 < L.parts) }
    requires own { Belongs pass.old table.now.table_id table.now.setting }
    requires idle { pass.old.view.seat.phase ≡ Idle }
    requires known { 0 < uses number (known pass.old.view.front) }
    ensures own { Belongs pass.new table.now.table_id table.now.setting }
    ensures key { HasKey number result (known pass.new.view.front) }
    ensures front { IsFront pass.old.view.front pass.new.view.front }
    ensures mine { pass.new.view.mine ≡ pass.old.view.mine }
    ensures same { pass.new.view.seat ≡ pass.old.view.seat }
    ensures stays { Stays M.lawful M.allowed M.stands table.now.setting pass.new.view }
{
    let mut steps = Steps::<L>::make(blank);
    let one = step_load_one(table, pass, number, &mut steps);
    let two = step_load_two(table, pass, number, &mut steps);
    Key { one, two }
}
