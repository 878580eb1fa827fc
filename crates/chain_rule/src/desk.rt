//! The words of a table, and the one step of each kind.
ghost use Rattle.std.specs.Prelude.{◌≡◌, ℕ, ◌<◌, []};
ghost use Rattle.intern_core.specs.Layout.{word_count};
ghost use Rattle.chain_rule.specs.Told.{MayTurn, IsLoad, IsClaim, IsStore, IsSwap, Turned, view_begun};

use crate::meaning::{Meaning, Setting};
use crate::plays::{Beginning, Storing, Turning};
use crate::rule::Chain;
use crate::view::View;
use std::alloc::Global;

/// A seat at the words of a table.
pub type Place<M> = atomic_table::Seat<(), View<M>>;

/// The shared words under the rule, with what the table was told.
#[derive(Drop)]
pub struct Desk<M: Meaning> {
    pub(crate) table: atomic_table::Table<(), View<M>, Setting<M>, Chain, Global>,
    pub(crate) setting: Setting<M>,
    ghost told: { table.shared.key ≡ setting },
    ghost sized: { table.shared.table_id.words ≡ word_count setting.shape },
}

// A load, as the turn of a pass.
pub(crate) fn load_turn<M: Meaning, J: Beginning>(
    table: &Desk<M>,
    place: &mut Place<M>,
    word: usize,
) -> u64
    requires own { place.old.table_id ≡ table.now.table.shared.table_id }
    requires word { word < table.now.table.shared.table_id.words }
    requires turn { (place.old.me.1 ≡ []) × MayTurn M.lawful M.allowed M.stands table.now.setting J.begins J.told place.old.me.0 word }
    requires load { IsLoad (view_begun J.begins J.told place.old.me.0).seat.phase }
    ensures same { (place.new.table_id ≡ place.old.table_id) × (place.new.id ≡ place.old.id) × (place.new.me.1 ≡ []) }
    ensures turned { Turned M.lawful M.allowed M.stands table.now.setting (view_begun J.begins J.told place.old.me.0) word result place.new.me.0 }
{
    table.table.shared.load::<Turning<J>>(place, word)
}

// A claim of a number, or of so many entries.
pub(crate) fn claim_turn<M: Meaning, J: Beginning>(
    table: &Desk<M>,
    place: &mut Place<M>,
    word: usize,
    more: u64,
) -> u64
    requires own { place.old.table_id ≡ table.now.table.shared.table_id }
    requires word { word < table.now.table.shared.table_id.words }
    requires turn { (place.old.me.1 ≡ []) × MayTurn M.lawful M.allowed M.stands table.now.setting J.begins J.told place.old.me.0 word }
    requires claim { IsClaim (view_begun J.begins J.told place.old.me.0).seat.phase more }
    ensures same { (place.new.table_id ≡ place.old.table_id) × (place.new.id ≡ place.old.id) × (place.new.me.1 ≡ []) }
    ensures turned { Turned M.lawful M.allowed M.stands table.now.setting (view_begun J.begins J.told place.old.me.0) word result place.new.me.0 }
{
    table
        .table
        .shared
        .fetch_add::<Turning<J>>(place, word, more)
}

// A store of a key word, or of a word of a block.
pub(crate) fn store_turn<M: Meaning, J: Beginning>(
    table: &Desk<M>,
    place: &mut Place<M>,
    word: usize,
    new: u64,
)
    requires own { place.old.table_id ≡ table.now.table.shared.table_id }
    requires word { word < table.now.table.shared.table_id.words }
    requires turn { (place.old.me.1 ≡ []) × MayTurn M.lawful M.allowed M.stands table.now.setting J.begins J.told place.old.me.0 word }
    requires store { IsStore (view_begun J.begins J.told place.old.me.0).offer (view_begun J.begins J.told place.old.me.0).seat.phase new }
    ensures same { (place.new.table_id ≡ place.old.table_id) × (place.new.id ≡ place.old.id) × (place.new.me.1 ≡ []) }
    ensures turned { (was : ℕ) × Turned M.lawful M.allowed M.stands table.now.setting (view_begun J.begins J.told place.old.me.0) word was place.new.me.0 }
{
    table.table.shared.store::<Storing<J>>(place, word, new)
}

// A link of the spare where 0 is, or a list word.
pub(crate) fn swap_turn<M: Meaning, J: Beginning>(
    table: &Desk<M>,
    place: &mut Place<M>,
    word: usize,
    new: u64,
) -> u64
    requires own { place.old.table_id ≡ table.now.table.shared.table_id }
    requires word { word < table.now.table.shared.table_id.words }
    requires turn { (place.old.me.1 ≡ []) × MayTurn M.lawful M.allowed M.stands table.now.setting J.begins J.told place.old.me.0 word }
    requires swap { IsSwap place.old.me.0.seat.spare (view_begun J.begins J.told place.old.me.0).seat.phase new }
    ensures same { (place.new.table_id ≡ place.old.table_id) × (place.new.id ≡ place.old.id) × (place.new.me.1 ≡ []) }
    ensures turned { Turned M.lawful M.allowed M.stands table.now.setting (view_begun J.begins J.told place.old.me.0) word result place.new.me.0 }
{
    table
        .table
        .shared
        .compare_exchange::<Turning<J>>(place, word, 0, new)
}
