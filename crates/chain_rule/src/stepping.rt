//! One step of one kind: each takes the pass's next step, and raises the counter by one.
//!
//! `TookTurn` says what a step does. The words were as some legal history had left them, which begins with all that the pass had
//! seen. The pass has then seen that history, and the entry that the step makes, if it makes one.
ghost use Rattle.std.specs.Prelude.{◌≡◌, ◌+◌, ◌<◌, ◌≤◌, ◌++◌, ◌∷◌, [], ℕ};
ghost use Rattle.intern_core.specs.declared.seat.Phase.TheVariants.{Idle, Claiming, StoringOne, StoringTwo, LookingOne};
ghost use Rattle.intern_core.specs.History.{known, uses};
ghost use Rattle.chain_rule.specs.Rule.{IsFront};
ghost use Rattle.chain_rule.specs.Told.{TookTurn};
ghost use Rattle.chain_rule.specs.Passes.{Belongs, Stays};
ghost use Rattle.chain_rule.specs.Stepping.{ask_phase, asking, looking, IsLinking, IsSwapping, IsAtOne, IsAtTwo, HasSpareOrMark, MayFind};
ghost use Rattle.intern_core.specs.declared.history.Reply.TheVariants.{Num};
ghost use Rattle.intern_core.specs.declared.history.Entry.TheVariants.{Call};
ghost use Rattle.intern_core.specs.Layout.{one_at, two_at};
ghost use Rattle.intern_core.specs.Turns.{next_place};

use crate::meaning::Meaning;
use crate::pass::{Pass, advance};
use crate::steps::Steps;
use crate::table::Table;
use intern_core::{Key, Phase, first_phase};
use std::marker::Brand;
use std::sync::ledger::Ledger;

/// Kind 1 adds one to the claim word of the nodes: the pass has then a spare, or is marked full.
///
/// It begins a call for the key where the pass is idle.
pub fn step_claim<M: Meaning, L: Ledger>(
    table: &Table<M>,
    pass: &mut Pass<M>,
    key: Key,
    steps: &mut Steps<L>,
)
    requires own { Belongs pass.old table.now.table_id table.now.setting }
    requires next { (asking key pass.old.view.seat).phase ≡ Claiming key }
    requires lawful { pass.old.view.seat.phase ≡ Idle
        → M.lawful table.now.setting.meaning pass.old.view.front key }
    requires allowed { pass.old.view.seat.phase ≡ Idle → M.allowed table.now.setting.meaning key }
    ensures own { Belongs pass.new table.now.table_id table.now.setting }
    ensures step { (was : ℕ) × TookTurn M.lawful M.allowed M.stands table.now.setting
        (ask_phase key pass.old.view.seat) pass.old.view was pass.new.view }
    ensures front { IsFront pass.old.view.front pass.new.view.front }
    ensures stays { Stays M.lawful M.allowed M.stands table.now.setting pass.new.view }
    ensures claimed { HasSpareOrMark pass.new.view.seat }
    ensures count { steps.new ≡ steps.old + 1 }
{
    steps.tick();
    let begins = first_phase(&pass.seat(), key);
    advance::<M, Brand>(&table.desk, pass, &begins, 0, 0);
    pass.valid();
}

/// Kind 2 stores the first key word of the spare. It begins a call for the key where the pass is idle.
pub fn step_store_one<M: Meaning, L: Ledger>(
    table: &Table<M>,
    pass: &mut Pass<M>,
    key: Key,
    steps: &mut Steps<L>,
)
    requires own { Belongs pass.old table.now.table_id table.now.setting }
    requires next { (asking key pass.old.view.seat).phase ≡ StoringOne key }
    requires lawful { pass.old.view.seat.phase ≡ Idle
        → M.lawful table.now.setting.meaning pass.old.view.front key }
    requires allowed { pass.old.view.seat.phase ≡ Idle → M.allowed table.now.setting.meaning key }
    ensures own { Belongs pass.new table.now.table_id table.now.setting }
    ensures step { (was : ℕ) × TookTurn M.lawful M.allowed M.stands table.now.setting
        (ask_phase key pass.old.view.seat) pass.old.view was pass.new.view }
    ensures front { IsFront pass.old.view.front pass.new.view.front }
    ensures stays { Stays M.lawful M.allowed M.stands table.now.setting pass.new.view }
    ensures count { steps.new ≡ steps.old + 1 }
{
    steps.tick();
    let begins = first_phase(&pass.seat(), key);
    advance::<M, Brand>(&table.desk, pass, &begins, 0, 0);
    pass.valid();
}

/// Kind 3 stores the second key word of the spare.
pub fn step_store_two<M: Meaning, L: Ledger>(
    table: &Table<M>,
    pass: &mut Pass<M>,
    key: Key,
    steps: &mut Steps<L>,
)
    requires own { Belongs pass.old table.now.table_id table.now.setting }
    requires next { pass.old.view.seat.phase ≡ StoringTwo key }
    ensures own { Belongs pass.new table.now.table_id table.now.setting }
    ensures step { (was : ℕ) × TookTurn M.lawful M.allowed M.stands table.now.setting
        Idle pass.old.view was pass.new.view }
    ensures front { IsFront pass.old.view.front pass.new.view.front }
    ensures stays { Stays M.lawful M.allowed M.stands table.now.setting pass.new.view }
    ensures count { steps.new ≡ steps.old + 1 }
{
    steps.tick();
    let _ = key;
    let begins = Phase::Idle;
    advance::<M, Brand>(&table.desk, pass, &begins, 0, 0);
    pass.valid();
}

/// Kind 4 loads the link that the call has reached: 0, or the node found.
///
/// It begins a call for the key where the pass is idle. At 0 it ends the call of a pass that is marked full, with `Full`.
pub fn step_load_link<M: Meaning, L: Ledger>(
    table: &Table<M>,
    pass: &mut Pass<M>,
    key: Key,
    steps: &mut Steps<L>,
) -> u32
    requires own { Belongs pass.old table.now.table_id table.now.setting }
    requires next { IsLinking key (asking key pass.old.view.seat).phase }
    requires lawful { pass.old.view.seat.phase ≡ Idle
        → M.lawful table.now.setting.meaning pass.old.view.front key }
    requires allowed { pass.old.view.seat.phase ≡ Idle → M.allowed table.now.setting.meaning key }
    ensures own { Belongs pass.new table.now.table_id table.now.setting }
    ensures step { TookTurn M.lawful M.allowed M.stands table.now.setting
        (ask_phase key pass.old.view.seat) pass.old.view result pass.new.view }
    ensures front { IsFront pass.old.view.front pass.new.view.front }
    ensures stays { Stays M.lawful M.allowed M.stands table.now.setting pass.new.view }
    ensures word { MayFind table.now.setting.shape pass.new.view.front
        (next_place table.now.setting.shape (asking key pass.old.view.seat)) result }
    ensures count { steps.new ≡ steps.old + 1 }
{
    steps.tick();
    let begins = first_phase(&pass.seat(), key);
    let found = advance::<M, Brand>(&table.desk, pass, &begins, 0, 0);
    pass.valid();
    number_of(found)
}

/// Kind 5 loads the first key word of a node. It begins a look at a number that the front knows where the pass is idle.
#[tactic(auto, using(crate::proofs::Finding::took_word, crate::proofs::Finding::one_loads))]
pub fn step_load_one<M: Meaning, L: Ledger>(
    table: &Table<M>,
    pass: &mut Pass<M>,
    number: u32,
    steps: &mut Steps<L>,
) -> u64
    requires own { Belongs pass.old table.now.table_id table.now.setting }
    requires next { IsAtOne number (looking number pass.old.view.seat).phase }
    requires known { pass.old.view.seat.phase ≡ Idle → 0 < uses number (known pass.old.view.front) }
    ensures own { Belongs pass.new table.now.table_id table.now.setting }
    ensures step { TookTurn M.lawful M.allowed M.stands table.now.setting
        (LookingOne number) pass.old.view result pass.new.view }
    ensures front { IsFront pass.old.view.front pass.new.view.front }
    ensures stays { Stays M.lawful M.allowed M.stands table.now.setting pass.new.view }
    ensures word { MayFind table.now.setting.shape pass.new.view.front (one_at number) result }
    ensures count { steps.new ≡ steps.old + 1 }
{
    steps.tick();
    let begins = Phase::LookingOne(number);
    let found = advance::<M, Brand>(&table.desk, pass, &begins, 0, 0);
    pass.valid();
    found
}

/// Kind 6 loads the second key word of a node. It ends the call where the node's key is the call's.
pub fn step_load_two<M: Meaning, L: Ledger>(
    table: &Table<M>,
    pass: &mut Pass<M>,
    number: u32,
    steps: &mut Steps<L>,
) -> u64
    requires own { Belongs pass.old table.now.table_id table.now.setting }
    requires next { IsAtTwo number pass.old.view.seat.phase }
    ensures own { Belongs pass.new table.now.table_id table.now.setting }
    ensures step { TookTurn M.lawful M.allowed M.stands table.now.setting
        Idle pass.old.view result pass.new.view }
    ensures front { IsFront pass.old.view.front pass.new.view.front }
    ensures stays { Stays M.lawful M.allowed M.stands table.now.setting pass.new.view }
    ensures word { MayFind table.now.setting.shape pass.new.view.front (two_at number) result }
    ensures count { steps.new ≡ steps.old + 1 }
{
    steps.tick();
    let _ = number;
    let begins = Phase::Idle;
    let found = advance::<M, Brand>(&table.desk, pass, &begins, 0, 0);
    pass.valid();
    found
}

/// Kind 7 exchanges the link that the call has reached from 0 to the spare, which ends the call: 0 where it won, else the node found.
#[tactic(auto, using(crate::proofs::Finding::lost_word, crate::proofs::Finding::won_entry))]
pub fn step_swap_link<M: Meaning, L: Ledger>(
    table: &Table<M>,
    pass: &mut Pass<M>,
    key: Key,
    steps: &mut Steps<L>,
) -> u32
    requires own { Belongs pass.old table.now.table_id table.now.setting }
    requires next { IsSwapping key pass.old.view.seat.phase }
    ensures own { Belongs pass.new table.now.table_id table.now.setting }
    ensures step { TookTurn M.lawful M.allowed M.stands table.now.setting
        Idle pass.old.view result pass.new.view }
    ensures front { IsFront pass.old.view.front pass.new.view.front }
    ensures stays { Stays M.lawful M.allowed M.stands table.now.setting pass.new.view }
    ensures lost { 0 < result → MayFind table.now.setting.shape pass.new.view.front
        (next_place table.now.setting.shape pass.old.view.seat) result }
    ensures won { result ≡ 0 → pass.new.view.mine
        ≡ pass.old.view.mine ++ Call pass.old.view.seat.pass key (Num pass.old.view.seat.spare) ∷ [] }
    ensures count { steps.new ≡ steps.old + 1 }
{
    steps.tick();
    let _ = key;
    let begins = Phase::Idle;
    let found = advance::<M, Brand>(&table.desk, pass, &begins, 0, 0);
    pass.valid();
    number_of(found)
}

// A word that is a number of the table.
fn number_of(word: u64) -> u32
    requires { word ≤ 4194304 }
    ensures { result ≡ word }
{
    word as u32
}
