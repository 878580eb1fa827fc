//! A list is published.
ghost use Rattle.std.specs.Prelude.{◌≡◌, ◌+◌, ◌*◌, ◌<◌, ◌≤◌, ℕ, None, length};
ghost use Rattle.intern_core.specs.declared.seat.Phase.TheVariants.{Idle};
ghost use Rattle.intern_core.specs.History.{known, uses, listing_in};
ghost use Rattle.chain_rule.specs.declared.view.View.{View};
ghost use Rattle.chain_rule.specs.Rule.{IsFront};
ghost use Rattle.chain_rule.specs.Passes.{Belongs, Stays};
ghost use Rattle.list_store.specs.Lists.{IsOfferAnswer, HasKept, IsStoring};

use chain_rule::{
    Begins, Meaning, Pass, Table, step_claim_block, step_load_list, step_store_word, step_swap_list,
};
use intern_core::{EntryWords, Published};

/// Offers a list for a number, which has at most one. It waits for nobody.
///
/// `First`: the list is published. `Already`: another pass has published one. `NoRoom`: there was no room for it, or for an earlier
/// one of this pass, which then publishes no more.
pub fn publish<M: Meaning>(
    table: &Table<M>,
    pass: &mut Pass<M>,
    number: u32,
    words: &[EntryWords],
) -> Published
    requires own { Belongs pass.old table.now.table_id table.now.setting }
    requires idle { pass.old.view.seat.phase ≡ Idle }
    requires known { 0 < uses number (known pass.old.view.front) }
    requires unlisted { listing_in pass.old.view.mine number ≡ None }
    requires short { length words.now ≤ 4096 }
    requires stands { M.stands table.now.setting.meaning pass.old.view.front number words.now }
    ensures own { Belongs pass.new table.now.table_id table.now.setting }
    ensures published { IsOfferAnswer table.now.setting.shape number words.now result
        pass.old.view pass.new.view }
    ensures front { IsFront pass.old.view.front pass.new.view.front }
    ensures seat { HasKept pass.old.view.seat pass.new.view.seat }
    ensures stays { Stays M.lawful M.allowed M.stands table.now.setting pass.new.view }
{
    if step_load_list(table, pass, number, Begins::Offer) != 0 {
        return Published::Already;
    }
    if pass.no_room() {
        return Published::NoRoom;
    }
    if !step_claim_block(table, pass, number, words) {
        return Published::NoRoom;
    }
    store_all(table, pass, words);
    if step_swap_list(table, pass, number) {
        Published::First
    } else {
        Published::Already
    }
}

// The words are stored in the block, one after another.
fn store_all<M: Meaning>(table: &Table<M>, pass: &mut Pass<M>, words: &[EntryWords])
    requires own { Belongs pass.old table.now.table_id table.now.setting }
    requires short { length words.now ≤ 4096 }
    requires storing { (number : ℕ) × (v : View M.row.Denot)
        × IsStoring number words.now 0 v pass.old.view }
    ensures own { Belongs pass.new table.now.table_id table.now.setting }
    ensures stored { (number : ℕ) (v : View M.row.Denot) → IsStoring number words.now 0 v pass.old.view
        → IsStoring number words.now (3 * length words.now) v pass.new.view }
{
    for at in 0..3 * words.len() as u32 {
        step_store_word(table, pass, words, at);
    }
}
