//! A pass, and its next turn.
ghost use Rattle.std.specs.Prelude.{◌≡◌, ℕ, ◌<◌, [], List, Some};
ghost use Rattle.std.specs.Prelude.{length as list_length};
ghost use Rattle.intern_core.specs.declared.history.EntryWords.{EntryWords};
ghost use Rattle.intern_core.specs.declared.seat.Phase.TheVariants.{Idle};
ghost use Rattle.intern_core.specs.Kept.{IsShape};
ghost use Rattle.intern_core.specs.Turns.{next_place, FitsTurn};
ghost use Rattle.chain_rule.specs.Rule as rule_words;
ghost use Rattle.intern_core.specs.Image as image;
ghost use Rattle.intern_core.specs.Turns as turns;
ghost use Rattle.chain_rule.specs.Told.{MayTurn, MayBeginCall, MayTell, Finds, IsOfferedWord, Turned, view_begun, seat_begun};
ghost use Rattle.chain_rule.specs.declared.meaning.Setting.{Setting};
ghost use Rattle.chain_rule.specs.Pacing.{IsPaced, FitsListWord};
ghost use Rattle.chain_rule.specs.Passes.{Belongs, Stays};
ghost use Rattle.chain_rule.specs.Stepping.{IsSpare};

use crate::desk::{Desk, Place, claim_turn, load_turn, store_turn, swap_turn};
use crate::meaning::Meaning;
use crate::plays::Beginning;
use intern_core::{Phase, Seat, place, turned};
use std::marker::Model;

/// The right to take turns at a table, and what was seen of its history.
#[derive(Drop)]
pub struct Pass<M: Meaning> {
    pub(crate) place: Place<M>,
    pub(crate) seat: Seat,
}

impl<M: Meaning> Model for Pass<M> {
    ghost use Rattle.std.specs.Prelude.{◌≡◌, Some};
    ghost use Rattle.chain_rule.specs.declared.meaning.Setting.{Setting};
    ghost use Rattle.chain_rule.specs.Passes.{Walker, IsPassOf};

    ghost Value = { Walker M };

    ghost view = { λ p. record { table_id = p.place.table_id; view = p.place.me.0 } };

    ghost invariant = { λ p. IsPassOf M.lawful M.allowed M.stands p.place.me p.seat };
}

// The step of a phase.
fn act<M: Meaning, J: Beginning>(
    table: &Desk<M>,
    place: &mut Place<M>,
    seat: &Seat,
    word: usize,
    offered: u64,
) -> u64
    requires own { place.old.table_id ≡ table.now.table.shared.table_id }
    requires word { word < table.now.table.shared.table_id.words }
    requires turn { (place.old.me.1 ≡ []) × MayTurn M.lawful M.allowed M.stands table.now.setting J.begins J.told place.old.me.0 word }
    requires seat { seat.now ≡ seat_begun J.begins J.told place.old.me.0.seat }
    requires offered { IsOfferedWord (view_begun J.begins J.told place.old.me.0).offer seat.now.phase offered }
    requires fit { FitsListWord seat.now.phase }
    ensures same { (place.new.table_id ≡ place.old.table_id) × (place.new.id ≡ place.old.id) × (place.new.me.1 ≡ []) }
    ensures turned { (was : ℕ) × Turned M.lawful M.allowed M.stands table.now.setting (view_begun J.begins J.told place.old.me.0) word was place.new.me.0 × (Finds seat.now.phase → result ≡ was) }
{
    match seat.phase {
        Phase::Claiming(_) => claim_turn::<M, J>(table, place, word, 1),
        Phase::ClaimingBlock { length, .. } => claim_turn::<M, J>(
            table,
            place,
            word,
            length as u64,
        ),
        Phase::StoringOne(key) => {
            store_turn::<M, J>(table, place, word, key.one);
            0
        }
        Phase::StoringTwo(key) => {
            store_turn::<M, J>(table, place, word, key.two);
            0
        }
        Phase::StoringWord { .. } => {
            store_turn::<M, J>(table, place, word, offered);
            0
        }
        Phase::Swapping { .. } => swap_turn::<M, J>(table, place, word, seat.spare as u64),
        Phase::SwappingList { start, length, .. } => {
            swap_turn::<M, J>(table, place, word, list_word(start, length))
        }
        Phase::Idle => load_turn::<M, J>(table, place, word),
        Phase::Linking { .. } => load_turn::<M, J>(table, place, word),
        Phase::AtOne { .. } => load_turn::<M, J>(table, place, word),
        Phase::AtTwo { .. } => load_turn::<M, J>(table, place, word),
        Phase::LookingOne(_) => load_turn::<M, J>(table, place, word),
        Phase::LookingTwo(_, _) => load_turn::<M, J>(table, place, word),
        Phase::MeasuringList(_) => load_turn::<M, J>(table, place, word),
        Phase::FindingEntry { .. } => load_turn::<M, J>(table, place, word),
        Phase::ReadingOne { .. } => load_turn::<M, J>(table, place, word),
        Phase::ReadingTwo { .. } => load_turn::<M, J>(table, place, word),
        Phase::ReadingThree { .. } => load_turn::<M, J>(table, place, word),
        Phase::Offering { .. } => load_turn::<M, J>(table, place, word),
    }
}

// The list word of the block of so many entries from this one on.
fn list_word(start: u32, length: u32) -> u64
    requires { start < 4294967295 }
    ensures { result ≡ image.list_word start length }
{
    u64::from(length) + ((u64::from(start) + 1) << 32)
}

impl<M: Meaning> Pass<M> {
    /// Its number, its spare, its mark and its call, as contracts see them.
    pub fn seat(&self) -> Seat
        ensures same { result ≡ self.now.view.seat }
        ensures paced { (key : Setting M) → self.now.view.setting ≡ Some key
            → IsPaced key.shape.nodes result }
    {
        self.seat
    }

    /// The number that the pass keeps to give away, if it keeps one.
    pub fn spare(&self) -> Option<u32>
        ensures { IsSpare result self.now.view.seat.spare }
    {
        if self.seat.spare == 0 {
            None
        } else {
            Some(self.seat.spare)
        }
    }

    /// Whether the pass found all numbers given out.
    pub fn marked(&self) -> bool
        ensures { result ≡ self.now.view.seat.marked }
    {
        self.seat.marked
    }

    /// Whether an offer of the pass was answered that there is no room.
    pub fn no_room(&self) -> bool
        ensures { result ≡ rule_words.no_room self.now.view.seat }
    {
        self.seat.refused.is_some()
    }

    /// Costs nothing, and tells a proof what every pass keeps.
    pub fn valid(&self)
        ensures { (key : Setting M) → self.now.view.setting ≡ Some key
            → Stays M.lawful M.allowed M.stands key self.now.view }
    {
        let _ = &self.seat;
    }
}

// The next turn, which begins a call where the pass is idle. Of an offer it is told the length where the block is claimed, and the word
// where one is stored.
pub(crate) fn advance<M: Meaning, J: Beginning>(
    table: &Desk<M>,
    pass: &mut Pass<M>,
    begins: &Phase,
    length: u32,
    offered: u64,
) -> u64
    requires own { Belongs pass.old table.now.table.shared.table_id table.now.setting }
    requires begins { begins.now ≡ J.begins }
    requires length { list_length J.told ≡ length }
    requires may { pass.old.view.seat.phase ≡ Idle → MayBeginCall M.lawful M.allowed M.stands table.now.setting pass.old.view J.begins J.told }
    requires tells { MayTell M.lawful M.allowed M.stands table.now.setting pass.old.view.front J.told pass.old.view.seat.phase }
    requires offered { IsOfferedWord pass.old.view.offer pass.old.view.seat.phase offered }
    ensures own { (pass.new.table_id ≡ pass.old.table_id) × (pass.new.view.setting ≡ pass.old.view.setting) × (pass.new.view.made ≡ pass.old.view.made) }
    ensures turned { (was : ℕ) × Turned M.lawful M.allowed M.stands table.now.setting (view_begun J.begins J.told pass.old.view) (next_place table.now.setting.shape (seat_begun J.begins J.told pass.old.view.seat)) was pass.new.view × (Finds (seat_begun J.begins J.told pass.old.view.seat).phase → result ≡ was) }
    ensures fits { FitsTurn table.now.setting.shape (view_begun J.begins J.told pass.old.view).offer (seat_begun J.begins J.told pass.old.view.seat).phase result }
    ensures ranges { IsShape table.now.setting.shape }
{
    let seat = begin(begins, length, &pass.seat);
    let word = place(&table.setting.shape, &seat);
    let found = act::<M, J>(table, &mut pass.place, &seat, word, offered);
    pass.seat = turned(&table.setting.shape, &seat, found);
    found
}

// The seat once its call has begun, or the words of its offer are told.
fn begin(begins: &Phase, length: u32, seat: &Seat) -> Seat
    ensures { (told : List EntryWords) → list_length told ≡ length → result ≡ seat_begun begins.now told seat.now }
{
    match seat.phase {
        Phase::Idle => with_phase(seat, *begins),
        Phase::ClaimingBlock { number, .. } => {
            with_phase(seat, Phase::ClaimingBlock { number, length })
        }
        _ => *seat,
    }
}

fn with_phase(seat: &Seat, phase: Phase) -> Seat
    ensures { result ≡ turns.seat seat.now.pass seat.now.refused seat.now.spare seat.now.marked phase }
{
    Seat {
        pass: seat.pass,
        refused: seat.refused,
        spare: seat.spare,
        marked: seat.marked,
        phase,
    }
}
