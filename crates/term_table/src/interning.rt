//! The number of a key.
ghost use Rattle.std.specs.Prelude.{◌≡◌, ◌+◌, ◌*◌, ◌<◌, ◌≤◌, ℕ, Some, IfOk, IfErr};
ghost use Rattle.intern_core.specs.declared.seat.Phase.TheVariants.{Idle};
ghost use Rattle.intern_core.specs.Pace.{key_in, answer_in, known_beside};
ghost use Rattle.chain_rule.specs.Told.{TookTurn};
ghost use Rattle.chain_rule.specs.Passes.{Belongs, Stays};
ghost use Rattle.chain_rule.specs.Stepping.{ask_phase, asking};
ghost use Rattle.term_table.specs.Calls.{HasAnswered, reply_of, IsIdle, IsNumberOf, WasFull};

use chain_rule::{
    Meaning, Pass, Steps, Table, step_claim, step_load_link, step_load_one, step_load_two,
    step_store_one, step_store_two, step_swap_link,
};
use intern_core::{Key, Phase, Seat, first_phase};
use std::marker::Brand;
use std::sync::ledger::{Blank, Ledger};

/// The key is unknown, and each number of the table is known or kept by some pass to give away.
#[derive(Debug, Drop)]
pub struct Full;

/// The number of a key, the same for each pass. It waits for nobody.
///
/// The returned front begins with the old one and ends with this call's entry. `Full` comes only where the key was unknown before
/// that entry and all numbers but at most one for each pass were known.
pub fn intern<M: Meaning>(table: &Table<M>, pass: &mut Pass<M>, key: Key) -> Result<u32, Full>
    requires own { Belongs pass.old table.now.table_id table.now.setting }
    requires idle { pass.old.view.seat.phase ≡ Idle }
    requires lawful { M.lawful table.now.setting.meaning pass.old.view.front key }
    requires allowed { M.allowed table.now.setting.meaning key }
    ensures own { Belongs pass.new table.now.table_id table.now.setting }
    ensures answered { HasAnswered key (reply_of result) pass.old.view pass.new.view }
    ensures stays { Stays M.lawful M.allowed M.stands table.now.setting pass.new.view }
    ensures known { IfOk result (λ n. IsNumberOf key n pass.new.view.front) }
    ensures full { IfErr result (λ _. WasFull table.now.setting.shape key pass.old.view pass.new.view) }
{
    intern_with::<M, Brand>(table, pass, key, Blank::new(1))
}

// With a counter of its own.
fn intern_with<M: Meaning, L: Ledger>(
    table: &Table<M>,
    pass: &mut Pass<M>,
    key: Key,
    blank: Blank,
) -> Result<u32, Full>
    requires blank { (blank.name ≡ L.name) × (blank.parts ≡ L.parts) × (0 < L.parts) }
    requires own { Belongs pass.old table.now.table_id table.now.setting }
    requires idle { pass.old.view.seat.phase ≡ Idle }
    requires lawful { M.lawful table.now.setting.meaning pass.old.view.front key }
    requires allowed { M.allowed table.now.setting.meaning key }
    ensures own { Belongs pass.new table.now.table_id table.now.setting }
    ensures answered { HasAnswered key (reply_of result) pass.old.view pass.new.view }
    ensures stays { Stays M.lawful M.allowed M.stands table.now.setting pass.new.view }
    ensures known { IfOk result (λ n. IsNumberOf key n pass.new.view.front) }
    ensures full { IfErr result (λ _. WasFull table.now.setting.shape key pass.old.view pass.new.view) }
{
    let mut steps = Steps::<L>::make(blank);
    intern_counted(table, pass, key, &mut steps)
}

/// `intern`, with its steps counted: at most `4k + 3`, k being the number of known keys of the key's bucket in the returned front.
pub fn intern_counted<M: Meaning, L: Ledger>(
    table: &Table<M>,
    pass: &mut Pass<M>,
    key: Key,
    steps: &mut Steps<L>,
) -> Result<u32, Full>
    requires own { Belongs pass.old table.now.table_id table.now.setting }
    requires idle { pass.old.view.seat.phase ≡ Idle }
    requires lawful { M.lawful table.now.setting.meaning pass.old.view.front key }
    requires allowed { M.allowed table.now.setting.meaning key }
    ensures own { Belongs pass.new table.now.table_id table.now.setting }
    ensures answered { HasAnswered key (reply_of result) pass.old.view pass.new.view }
    ensures stays { Stays M.lawful M.allowed M.stands table.now.setting pass.new.view }
    ensures known { IfOk result (λ n. IsNumberOf key n pass.new.view.front) }
    ensures full { IfErr result (λ _. WasFull table.now.setting.shape key pass.old.view pass.new.view) }
    ensures count { steps.new
        ≤ steps.old + (4 * known_beside table.now.setting.shape pass.new.view.front key + 3) }
{
    let answer = walk(table, pass, key, steps);
    pass.valid();
    answer
}

// The steps of a call. Each either ends it or takes it on, past at most all nodes.
fn walk<M: Meaning, L: Ledger>(
    table: &Table<M>,
    pass: &mut Pass<M>,
    key: Key,
    steps: &mut Steps<L>,
) -> Result<u32, Full>
    requires own { Belongs pass.old table.now.table_id table.now.setting }
    requires idle { pass.old.view.seat.phase ≡ Idle }
    requires lawful { M.lawful table.now.setting.meaning pass.old.view.front key }
    requires allowed { M.allowed table.now.setting.meaning key }
    ensures own { Belongs pass.new table.now.table_id table.now.setting }
    ensures answered { HasAnswered key (reply_of result) pass.old.view pass.new.view }
    ensures count { steps.new
        ≤ steps.old + (4 * known_beside table.now.setting.shape pass.new.view.front key + 3) }
{
    let mut last = begun_at(&pass.seat(), key);
    step(table, pass, key, &last, steps);
    let mut seat = pass.seat();
    while !is_idle(&seat) {
        last = seat;
        step(table, pass, key, &last, steps);
        seat = pass.seat();
    }
    answer(&last)
}

// An idle seat whose call for the key begins.
fn begun_at(seat: &Seat, key: Key) -> Seat
    requires { seat.now.phase ≡ Idle }
    ensures { result ≡ asking key seat.now }
{
    Seat {
        pass: seat.pass,
        refused: seat.refused,
        spare: seat.spare,
        marked: seat.marked,
        phase: first_phase(seat, key),
    }
}

// The next step of the call.
fn step<M: Meaning, L: Ledger>(
    table: &Table<M>,
    pass: &mut Pass<M>,
    key: Key,
    seat: &Seat,
    steps: &mut Steps<L>,
)
    requires own { Belongs pass.old table.now.table_id table.now.setting }
    requires seat { seat.now ≡ asking key pass.old.view.seat }
    requires key { key_in seat.now.phase ≡ Some key }
    requires lawful { pass.old.view.seat.phase ≡ Idle
        → M.lawful table.now.setting.meaning pass.old.view.front key }
    requires allowed { pass.old.view.seat.phase ≡ Idle → M.allowed table.now.setting.meaning key }
    ensures own { Belongs pass.new table.now.table_id table.now.setting }
    ensures step { (was : ℕ) × TookTurn M.lawful M.allowed M.stands table.now.setting
        (ask_phase key pass.old.view.seat) pass.old.view was pass.new.view }
    ensures count { steps.new ≡ steps.old + 1 }
{
    match seat.phase {
        Phase::Claiming(_) => step_claim(table, pass, key, steps),
        Phase::StoringOne(_) => step_store_one(table, pass, key, steps),
        Phase::StoringTwo(_) => step_store_two(table, pass, key, steps),
        Phase::Linking { .. } => {
            step_load_link(table, pass, key, steps);
        }
        Phase::Swapping { .. } => {
            step_swap_link(table, pass, key, steps);
        }
        Phase::AtOne { node, .. } => {
            step_load_one(table, pass, node, steps);
        }
        Phase::AtTwo { node, .. } => {
            step_load_two(table, pass, node, steps);
        }
        _ => unreachable!(),
    }
}

fn is_idle(seat: &Seat) -> bool
    ensures { IsIdle result seat.now.phase }
{
    matches!(seat.phase, Phase::Idle)
}

// What the call is answered whose last step this seat took.
fn answer(seat: &Seat) -> Result<u32, Full>
    ensures { reply_of result ≡ answer_in seat.now.spare seat.now.phase }
{
    match seat.phase {
        Phase::Swapping { .. } => Ok(seat.spare),
        Phase::AtTwo { node, .. } => Ok(node),
        _ => Err(Full),
    }
}
