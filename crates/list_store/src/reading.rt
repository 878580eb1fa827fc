//! The list of a number is read.
ghost use Rattle.std.specs.Prelude.{◌≡◌, ◌+◌, ◌*◌, ◌<◌, ℕ, None, IfSome};
ghost use Rattle.intern_core.specs.declared.seat.Phase.TheVariants.{Idle};
ghost use Rattle.intern_core.specs.History.{known, uses, listing_in};
ghost use Rattle.intern_core.specs.Blocks.{IsLongerThan};
ghost use Rattle.intern_core.specs.Offers.{IsPublished};
ghost use Rattle.chain_rule.specs.Rule.{IsFront};
ghost use Rattle.chain_rule.specs.Passes.{Belongs, Stays};
ghost use Rattle.list_store.specs.Lists.{length_of_list};

use chain_rule::{Begins, Meaning, Pass, Table, step_load_list, step_load_word};
use intern_core::{EntryWords, list_length};

/// The length of the list that the returned front has for a number, or `None` where it has none; then the pass has published none.
///
/// An entry at a place below the length may be asked for by `list_entry`.
pub fn list_len<M: Meaning>(table: &Table<M>, pass: &mut Pass<M>, number: u32) -> Option<u32>
    requires own { Belongs pass.old table.now.table_id table.now.setting }
    requires idle { pass.old.view.seat.phase ≡ Idle }
    requires known { 0 < uses number (known pass.old.view.front) }
    ensures own { Belongs pass.new table.now.table_id table.now.setting }
    ensures length { result ≡ length_of_list pass.new.view.front number }
    ensures entries { IfSome result (λ length. (at : ℕ) → at < length
        → IsLongerThan at (listing_in pass.new.view.front number)) }
    ensures unlisted { result ≡ None → listing_in pass.new.view.mine number ≡ None }
    ensures front { IsFront pass.old.view.front pass.new.view.front }
    ensures mine { pass.new.view.mine ≡ pass.old.view.mine }
    ensures same { pass.new.view.seat ≡ pass.old.view.seat }
    ensures stays { Stays M.lawful M.allowed M.stands table.now.setting pass.new.view }
{
    let word = step_load_list(table, pass, number, Begins::FetchLen);
    list_length(word)
}

/// An entry of the list that the front has for a number, from 0.
pub fn list_entry<M: Meaning>(
    table: &Table<M>,
    pass: &mut Pass<M>,
    number: u32,
    at: u32,
) -> EntryWords
    requires own { Belongs pass.old table.now.table_id table.now.setting }
    requires idle { pass.old.view.seat.phase ≡ Idle }
    requires longer { IsLongerThan at (listing_in pass.old.view.front number) }
    ensures own { Belongs pass.new table.now.table_id table.now.setting }
    ensures entry { IsPublished pass.new.view.front number at result }
    ensures front { IsFront pass.old.view.front pass.new.view.front }
    ensures mine { pass.new.view.mine ≡ pass.old.view.mine }
    ensures same { pass.new.view.seat ≡ pass.old.view.seat }
    ensures stays { Stays M.lawful M.allowed M.stands table.now.setting pass.new.view }
{
    step_load_list(table, pass, number, Begins::FetchEntry(at));
    let first = 3 * at;
    let one = step_load_word(table, pass, number, first);
    let two = step_load_word(table, pass, number, first + 1);
    let three = step_load_word(table, pass, number, first + 2);
    EntryWords([one, two, three])
}
