//! One step of one kind of the calls on lists: each takes the pass's next step.
//!
//! `TookTurn` says what a step does, as in `stepping`. A list is published for good, so what a step tells of one stays true.
ghost use Rattle.std.specs.Prelude.{◌≡◌, ◌+◌, ◌*◌, ◌<◌, ◌≤◌, ◌^◌, ◌++◌, ◌∷◌, ◌==◌, [], ℕ, true, false, length, nat_le};
ghost use Rattle.intern_core.specs.declared.seat.Phase.TheVariants.{Idle};
ghost use Rattle.intern_core.specs.declared.history.Entry.TheVariants as entry;
ghost use Rattle.intern_core.specs.Layout.{list_at};
ghost use Rattle.chain_rule.specs.Rule.{IsFront};
ghost use Rattle.chain_rule.specs.Told.{TookTurn, TookClaim};
ghost use Rattle.chain_rule.specs.Passes.{Belongs, Stays};
ghost use Rattle.chain_rule.specs.Stepping.{MayBeginList, MayFind, IsReading, IsListedWord, IsClaimingBlock, IsStoringWord, IsSwappingList, LacksRoom};
ghost use Rattle.chain_rule.specs.Stepping as stepping_words;

use crate::begins::Begins;
use crate::desk::Desk;
use crate::meaning::Meaning;
use crate::pass::{Pass, advance};
use crate::plays::Beginning;
use crate::table::Table;
use intern_core::{EntryWords, Phase, offered_word};
use std::marker::Brand;

/// Kind 11 loads the list word of a number, which begins a call on its list.
///
/// It ends a call for the length. It ends an offer where the number has a list, and where the pass was answered before that there
/// is no room.
pub fn step_load_list<M: Meaning>(
    table: &Table<M>,
    pass: &mut Pass<M>,
    number: u32,
    begins: Begins,
) -> u64
    requires own { Belongs pass.old table.now.table_id table.now.setting }
    requires idle { pass.old.view.seat.phase ≡ Idle }
    requires may { MayBeginList pass.old.view.front number begins }
    ensures own { Belongs pass.new table.now.table_id table.now.setting }
    ensures step { TookTurn M.lawful M.allowed M.stands table.now.setting
        (stepping_words.list_phase number begins) pass.old.view result pass.new.view }
    ensures front { IsFront pass.old.view.front pass.new.view.front }
    ensures stays { Stays M.lawful M.allowed M.stands table.now.setting pass.new.view }
    ensures word { MayFind table.now.setting.shape pass.new.view.front (list_at number) result }
{
    let phase = list_phase(number, begins);
    let found = advance::<M, Brand>(&table.desk, pass, &phase, 0, 0);
    pass.valid();
    found
}

// The phase in which a call on the list of a number begins.
fn list_phase(number: u32, begins: Begins) -> Phase
    ensures { result ≡ stepping_words.list_phase number begins }
{
    match begins {
        Begins::FetchLen => Phase::MeasuringList(number),
        Begins::FetchEntry(at) => Phase::FindingEntry { number, at },
        Begins::Offer => Phase::Offering { number, length: 0 },
    }
}

/// Kind 12 loads the next word of the entry asked for: this word of the number's list, with three for each entry.
pub fn step_load_word<M: Meaning>(table: &Table<M>, pass: &mut Pass<M>, number: u32, at: u32) -> u64
    requires own { Belongs pass.old table.now.table_id table.now.setting }
    requires next { IsReading number at pass.old.view.seat.phase }
    ensures own { Belongs pass.new table.now.table_id table.now.setting }
    ensures step { TookTurn M.lawful M.allowed M.stands table.now.setting
        Idle pass.old.view result pass.new.view }
    ensures front { IsFront pass.old.view.front pass.new.view.front }
    ensures stays { Stays M.lawful M.allowed M.stands table.now.setting pass.new.view }
    ensures word { IsListedWord pass.new.view.front number at result }
{
    let _ = (number, at);
    let begins = Phase::Idle;
    let found = advance::<M, Brand>(&table.desk, pass, &begins, 0, 0);
    pass.valid();
    found
}

/// Kind 9 claims a block for the words that are offered, or answers that there is no room, which ends the call.
///
/// The words stand for the number. There is no room where the claim word and their length are together above the entries.
pub fn step_claim_block<M: Meaning>(
    table: &Table<M>,
    pass: &mut Pass<M>,
    number: u32,
    words: &[EntryWords],
) -> bool
    requires own { Belongs pass.old table.now.table_id table.now.setting }
    requires next { IsClaimingBlock number pass.old.view.seat.phase }
    requires short { length words.now ≤ 4096 }
    requires stands { M.stands table.now.setting.meaning pass.old.view.front number words.now }
    ensures own { Belongs pass.new table.now.table_id table.now.setting }
    ensures step { (was : ℕ) × TookClaim M.lawful M.allowed M.stands table.now.setting
        words.now pass.old.view was pass.new.view
        × (result ≡ nat_le (was + length words.now) table.now.setting.shape.entries) }
    ensures front { IsFront pass.old.view.front pass.new.view.front }
    ensures stays { Stays M.lawful M.allowed M.stands table.now.setting pass.new.view }
    ensures room { result ≡ false → LacksRoom table.now.setting.shape words.now pass.new.view.front }
{
    let found = claim_told::<M, Brand>(&table.desk, pass, number, words);
    pass.valid();
    found + words.len() as u64 <= u64::from(table.desk.setting.shape.entries)
}

// The block of the words that are told is claimed.
fn claim_told<M: Meaning, J: Beginning>(
    table: &Desk<M>,
    pass: &mut Pass<M>,
    number: u32,
    words: &[EntryWords],
) -> u64
    requires own { Belongs pass.old table.now.table.shared.table_id table.now.setting }
    requires told { (J.begins ≡ Idle) × (J.told ≡ words.now) }
    requires next { IsClaimingBlock number pass.old.view.seat.phase }
    requires short { length words.now ≤ 4096 }
    requires stands { M.stands table.now.setting.meaning pass.old.view.front number words.now }
    ensures own { Belongs pass.new table.now.table.shared.table_id table.now.setting }
    ensures step { TookClaim M.lawful M.allowed M.stands table.now.setting words.now pass.old.view result pass.new.view }
    ensures fits { result + length words.now < 2 ^ 64 }
{
    let _ = number;
    let begins = Phase::Idle;
    advance::<M, J>(table, pass, &begins, count(words), 0)
}

fn count(words: &[EntryWords]) -> u32
    requires { length words.now ≤ 4096 }
    ensures { result ≡ length words.now }
{
    words.len() as u32
}

/// Kind 10 stores the next word of the own block, which is this word of those that are offered, with three for each entry.
pub fn step_store_word<M: Meaning>(
    table: &Table<M>,
    pass: &mut Pass<M>,
    words: &[EntryWords],
    at: u32,
)
    requires own { Belongs pass.old table.now.table_id table.now.setting }
    requires next { IsStoringWord at pass.old.view.seat.phase }
    requires words { words.now ≡ pass.old.view.offer }
    requires low { at < 3 * length words.now }
    ensures own { Belongs pass.new table.now.table_id table.now.setting }
    ensures step { (was : ℕ) × TookTurn M.lawful M.allowed M.stands table.now.setting
        Idle pass.old.view was pass.new.view }
    ensures front { IsFront pass.old.view.front pass.new.view.front }
    ensures stays { Stays M.lawful M.allowed M.stands table.now.setting pass.new.view }
{
    let begins = Phase::Idle;
    let word = offered_word(words, at);
    advance::<M, Brand>(&table.desk, pass, &begins, 0, word);
    pass.valid();
}

/// Kind 13 exchanges the list word of a number from 0 to the own block, which ends the offer: whether it won.
///
/// Where it won, the words that were offered are the number's list; else another list was published before.
pub fn step_swap_list<M: Meaning>(table: &Table<M>, pass: &mut Pass<M>, number: u32) -> bool
    requires own { Belongs pass.old table.now.table_id table.now.setting }
    requires next { IsSwappingList number pass.old.view.seat.phase }
    ensures own { Belongs pass.new table.now.table_id table.now.setting }
    ensures step { (was : ℕ) × TookTurn M.lawful M.allowed M.stands table.now.setting
        Idle pass.old.view was pass.new.view × (result ≡ (was == 0)) }
    ensures front { IsFront pass.old.view.front pass.new.view.front }
    ensures stays { Stays M.lawful M.allowed M.stands table.now.setting pass.new.view }
    ensures won { result ≡ true → pass.new.view.mine
        ≡ pass.old.view.mine ++ entry.List pass.old.view.seat.pass number pass.old.view.offer ∷ [] }
    ensures lost { result ≡ false → pass.new.view.mine
        ≡ pass.old.view.mine ++ entry.Lost pass.old.view.seat.pass number (length pass.old.view.offer) ∷ [] }
{
    let _ = number;
    let begins = Phase::Idle;
    let found = advance::<M, Brand>(&table.desk, pass, &begins, 0, 0);
    pass.valid();
    found == 0
}
