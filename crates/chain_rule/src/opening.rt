//! A table is made, with its passes.
ghost use Rattle.std.specs.Prelude.{◌≡◌, ℕ, ◌+◌, ◌<◌, [], length, IfOk, OnOk, Some, None};
ghost use Rattle.intern_core.specs.Kept.{IsShape};
ghost use Rattle.chain_rule.specs.Rule.{first_view};
ghost use Rattle.chain_rule.specs.Splits.{giver, newcomer};
ghost use Rattle.chain_rule.specs.Passes.{Belongs, NewFrom};
ghost use Rattle.intern_core.specs.declared.seat.Phase.TheVariants.{Idle};
ghost use Rattle.intern_core.specs.Turns as turns;
ghost use Rattle.std.specs.Prelude.{false};

use crate::desk::Desk;
use crate::meaning::{Meaning, Setting};
use crate::pass::Pass;
use crate::plays::Parting;
use intern_core::{Phase, Seat, Shape, word_count};
use std::alloc::{AllocError, Global};

fn idle_seat(pass: u32) -> Seat
    ensures { result ≡ turns.seat pass None 0 false Idle }
{
    Seat {
        pass,
        refused: None,
        spare: 0,
        marked: false,
        phase: Phase::Idle,
    }
}

/// A table of empty words, with its first pass.
fn open<M: Meaning + Drop>(
    alloc: Global,
    meaning: M,
    shape: Shape,
) -> Result<(Desk<M>, Pass<M>), AllocError>
    requires { IsShape shape }
    ensures setting { IfOk result (λ t. (t.0.setting.shape ≡ shape) × (t.0.setting.meaning ≡ meaning)) }
    ensures pass { IfOk result (λ t. (t.1.table_id ≡ t.0.table.shared.table_id) × (t.1.view ≡ first_view t.0.setting)) }
{
    let words = vec![in alloc; 0u64; word_count(&shape)]?;
    let setting = Setting { shape, meaning };
    let (table, place) = atomic_table::Table::of_words(alloc, words.as_slice(), &setting)?;
    let pass = Pass {
        place,
        seat: idle_seat(0),
    };
    Ok((Desk { table, setting }, pass))
}

// One more pass, which pass 0 gives.
fn another<M: Meaning>(table: &Desk<M>, first: &mut Pass<M>, number: u32) -> Pass<M>
    requires own { Belongs first.old table.now.table.shared.table_id table.now.setting }
    requires first { first.old.view.seat.pass ≡ 0 }
    requires number { (number ≡ first.old.view.made) × (number < table.now.setting.shape.passes) }
    ensures first { (first.new.table_id ≡ first.old.table_id) × (first.new.view ≡ giver first.old.view) }
    ensures pass { (result.table_id ≡ first.old.table_id) × (result.view ≡ newcomer first.old.view) }
{
    let place = table.table.shared.split_seat::<Parting>(&mut first.place);
    Pass {
        place,
        seat: idle_seat(number),
    }
}

// All passes but the first, which gives them.
fn others<M: Meaning>(
    alloc: Global,
    table: &Desk<M>,
    first: &mut Pass<M>,
) -> Result<Vec<Pass<M>>, AllocError>
    requires own { Belongs first.old table.now.table.shared.table_id table.now.setting }
    requires first { first.old.view ≡ first_view table.now.setting }
    requires some { 0 < table.now.setting.shape.passes }
    ensures first { (first.new.table_id ≡ first.old.table_id) × (first.new.view.setting ≡ first.old.view.setting) × (first.new.view.front ≡ []) × (first.new.view.mine ≡ []) × (first.new.view.seat ≡ first.old.view.seat) }
    ensures count { IfOk result (λ passes. length passes.items + 1 ≡ table.now.setting.shape.passes) }
    ensures passes { IfOk result (λ passes. NewFrom table.now.table.shared.table_id table.now.setting 1 passes.items) }
{
    let mut passes = Vec::new(alloc);
    for number in 1..table.setting.shape.passes {
        let pass = another(table, first, number);
        passes.push(pass)?;
    }
    Ok(passes)
}

/// A table of empty words, with all its passes.
pub(crate) fn open_all<M: Meaning + Drop>(
    alloc: Global,
    meaning: M,
    shape: Shape,
) -> Result<(Desk<M>, Vec<Pass<M>>), AllocError>
    requires { IsShape shape }
    ensures setting { IfOk result (λ t. (t.0.setting.shape ≡ shape) × (t.0.setting.meaning ≡ meaning)) }
    ensures count { IfOk result (λ t. length t.1.items ≡ shape.passes) }
    ensures passes { IfOk result (λ t. NewFrom t.0.table.shared.table_id t.0.setting 0 t.1.items) }
{
    let (desk, mut first) = open(alloc, meaning, shape)?;
    let mut passes = others(alloc, &desk, &mut first)?;
    passes.insert(0, first)?;
    Ok((desk, passes))
}
