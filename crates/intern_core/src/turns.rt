//! What a seat's next act does, as functions of the seat and of the word found.
ghost use Rattle.std.specs.Prelude.{◌≡◌, ◌+◌, ◌*◌, ◌^◌, ◌<◌, ◌≤◌, [], ◌∷◌, List, IsTrue, IfOk, if◌then◌else◌, length, slice_index, option_to_list};
ghost use Rattle.intern_core.specs.declared.shape.Shape.{Shape};
ghost use Rattle.intern_core.specs.declared.history.EntryWords.{EntryWords};
ghost use Rattle.intern_core.specs.declared.history.Entry.TheVariants.{Call};
ghost use Rattle.intern_core.specs.declared.outcome.Outcome2.TheVariants.{Answered, Going};
ghost use Rattle.intern_core.specs.Image.{flat};
ghost use Rattle.intern_core.specs.Turns.{turn_of, FitsTurn, is_on_lists};
ghost use Rattle.intern_core.specs.Turns as turns;
ghost use Rattle.intern_core.specs.declared.seat.Phase.TheVariants.{Linking, AtOne};

use crate::history::{Entry, EntryWords, Key, Reply};
use crate::outcome::{Outcome2, Published};
use crate::seat::{Phase, Seat};
use crate::shape::Shape;
use sqlite_items::Items;
use std::alloc::{AllocError, Global};

/// The phase in which a call for a key begins.
pub fn first_phase(seat: &Seat, key: Key) -> Phase
    ensures { result ≡ turns.first_phase seat.now.spare seat.now.marked key }
{
    if seat.marked {
        first_link(key)
    } else if seat.spare == 0 {
        Phase::Claiming(key)
    } else {
        Phase::StoringOne(key)
    }
}

/// The seat after its turn, which found a word.
pub fn turned(shape: &Shape, seat: &Seat, found: u64) -> Seat
    requires fit { shape.now.nodes ≤ 4194304 }
    requires go { (offer : List EntryWords) × FitsTurn shape.now offer seat.now.phase found }
    ensures { (offer : List EntryWords) → result ≡ (turn_of shape.now offer seat.now found).seat }
{
    match seat.phase {
        Phase::Idle => *seat,
        Phase::Claiming(key) => claimed(shape, seat, key, found),
        Phase::StoringOne(key) => with_phase(seat, Phase::StoringTwo(key)),
        Phase::StoringTwo(key) => with_phase(seat, first_link(key)),
        Phase::Linking { key, from, passed } => {
            if found != 0 {
                with_phase(seat, at_node(key, found as u32, passed))
            } else if seat.marked {
                with_phase(seat, Phase::Idle)
            } else {
                with_phase(seat, Phase::Swapping { key, from, passed })
            }
        }
        Phase::Swapping { key, passed, .. } => swapped(seat, key, passed, found),
        Phase::AtOne { key, node, passed } => {
            if found == key.one {
                with_phase(seat, Phase::AtTwo { key, node, passed })
            } else {
                with_phase(seat, next_link(key, node, passed))
            }
        }
        Phase::AtTwo { key, node, passed } => {
            if found == key.two {
                with_phase(seat, Phase::Idle)
            } else {
                with_phase(seat, next_link(key, node, passed))
            }
        }
        Phase::LookingOne(node) => with_phase(seat, Phase::LookingTwo(node, found)),
        Phase::LookingTwo(_, _) => with_phase(seat, Phase::Idle),
        _ => listed(shape, seat, found),
    }
}

pub(crate) fn with_phase(seat: &Seat, phase: Phase) -> Seat
    ensures { result ≡ turns.seat seat.now.pass seat.now.refused seat.now.spare seat.now.marked phase }
{
    Seat {
        pass: seat.pass,
        refused: seat.refused,
        spare: seat.spare,
        marked: seat.marked,
        phase,
    }
}

// The walk begins at the head of the key's bucket.
fn first_link(key: Key) -> Phase
    ensures { result ≡ Linking key 0 0 }
{
    Phase::Linking {
        key,
        from: 0,
        passed: 0,
    }
}

fn at_node(key: Key, node: u32, passed: u32) -> Phase
    ensures { result ≡ AtOne key node passed }
{
    Phase::AtOne { key, node, passed }
}

// One node more was passed.
fn next_link(key: Key, node: u32, passed: u32) -> Phase
    requires { passed < 4194304 }
    ensures { result ≡ Linking key node (passed + 1) }
{
    Phase::Linking {
        key,
        from: node,
        passed: passed + 1,
    }
}

// The claim word gave out a number, or the table is full.
fn claimed(shape: &Shape, seat: &Seat, key: Key, found: u64) -> Seat
    requires { found < 4294967296 }
    ensures { result ≡ (turns.claimed shape.now seat.now.pass seat.now.refused seat.now.spare seat.now.marked key found).seat }
{
    if found < u64::from(shape.nodes) {
        Seat {
            pass: seat.pass,
            refused: seat.refused,
            spare: found as u32 + 1,
            marked: seat.marked,
            phase: Phase::StoringOne(key),
        }
    } else {
        Seat {
            pass: seat.pass,
            refused: seat.refused,
            spare: seat.spare,
            marked: true,
            phase: first_link(key),
        }
    }
}

// The exchange was won, or it found a node.
fn swapped(seat: &Seat, key: Key, passed: u32, found: u64) -> Seat
    requires { found ≤ 4194304 }
    ensures { result ≡ (turns.swapped seat.now.pass seat.now.refused seat.now.spare seat.now.marked key passed found).seat }
{
    if found == 0 {
        Seat {
            pass: seat.pass,
            refused: seat.refused,
            spare: 0,
            marked: seat.marked,
            phase: Phase::Idle,
        }
    } else {
        with_phase(seat, at_node(key, found as u32, passed))
    }
}

// The turns of calls on lists.
fn listed(shape: &Shape, seat: &Seat, found: u64) -> Seat
    requires lists { IsTrue (is_on_lists seat.now.phase) }
    requires go { (offer : List EntryWords) × FitsTurn shape.now offer seat.now.phase found }
    ensures { (offer : List EntryWords) → result ≡ (turn_of shape.now offer seat.now found).seat }
{
    match seat.phase {
        Phase::FindingEntry { number, at } => {
            let index = (found / (1 << 32) - 1) as u32 + at;
            with_phase(seat, Phase::ReadingOne { number, at, index })
        }
        Phase::ReadingOne { number, at, index } => {
            let one = found;
            with_phase(
                seat,
                Phase::ReadingTwo {
                    number,
                    at,
                    index,
                    one,
                },
            )
        }
        Phase::ReadingTwo {
            number,
            at,
            index,
            one,
        } => {
            let two = found;
            with_phase(
                seat,
                Phase::ReadingThree {
                    number,
                    at,
                    index,
                    one,
                    two,
                },
            )
        }
        Phase::Offering { number, length } => {
            if found == 0 && seat.refused.is_none() {
                with_phase(seat, Phase::ClaimingBlock { number, length })
            } else {
                with_phase(seat, Phase::Idle)
            }
        }
        Phase::ClaimingBlock { number, length } => block_claimed(
            shape, seat, number, length, found,
        ),
        Phase::StoringWord {
            number,
            start,
            length,
            stored,
        } => { with_phase(seat, storing(number, start, length, stored + 1)) }
        _ => with_phase(seat, Phase::Idle),
    }
}

// Once so many words of a block are stored.
fn storing(number: u32, start: u32, length: u32, stored: u32) -> Phase
    ensures { result ≡ turns.storing number start length stored }
{
    if u64::from(stored) < 3 * u64::from(length) {
        Phase::StoringWord {
            number,
            start,
            length,
            stored,
        }
    } else {
        Phase::SwappingList {
            number,
            start,
            length,
        }
    }
}

// The claim word of the entries gave out a block, or has no room.
fn block_claimed(shape: &Shape, seat: &Seat, number: u32, length: u32, found: u64) -> Seat
    requires room { found + length < 2 ^ 64 }
    requires fit { found + length ≤ shape.now.entries → found < 4294967296 }
    ensures { result ≡ (turns.block_claimed shape.now seat.now.pass seat.now.refused seat.now.spare seat.now.marked number length found).seat }
{
    if found + u64::from(length) <= u64::from(shape.entries) {
        with_phase(seat, storing(number, found as u32, length, 0))
    } else {
        Seat {
            pass: seat.pass,
            refused: Some(length),
            spare: seat.spare,
            marked: seat.marked,
            phase: Phase::Idle,
        }
    }
}

/// The word that a seat's turn leaves where it found a word. The seat offers these entries.
pub fn left(seat: &Seat, offer: &[EntryWords], found: u64) -> u64
    requires { (shape : Shape) × FitsTurn shape offer.now seat.now.phase found }
    ensures { (shape : Shape) → result ≡ (turn_of shape offer.now seat.now found).word }
{
    match seat.phase {
        Phase::Claiming(_) => found + 1,
        Phase::StoringOne(key) => key.one,
        Phase::StoringTwo(key) => key.two,
        Phase::Swapping { .. } => { if found == 0 { seat.spare as u64 } else { found } }
        Phase::ClaimingBlock { length, .. } => found + u64::from(length),
        Phase::StoringWord { stored, .. } => offered_word(offer, stored),
        Phase::SwappingList { start, length, .. } => {
            if found == 0 {
                u64::from(length) + ((u64::from(start) + 1) << 32)
            } else {
                found
            }
        }
        _ => found,
    }
}

/// A word of the offered entries, three for each.
pub fn offered_word(offer: &[EntryWords], stored: u32) -> u64
    requires { stored < 3 * length offer.now }
    ensures { result ≡ slice_index (flat offer.now) stored }
{
    offer[(stored / 3) as usize].0[(stored % 3) as usize]
}

/// The entry that a seat's turn makes. The seat offers these entries.
pub(crate) fn made(
    alloc: Global,
    seat: &Seat,
    offer: &[EntryWords],
    found: u64,
) -> Result<Option<Entry>, AllocError>
    ensures { IfOk result (λ e. (shape : Shape) → option_to_list e ≡ (turn_of shape offer.now seat.now found).made) }
{
    match seat.phase {
        Phase::SwappingList { number, length, .. } => {
            if found != 0 {
                return Ok(Some(Entry::Lost {
                    pass: seat.pass,
                    number,
                    length,
                }));
            }
            let words = Items::from_slice(alloc, offer)?;
            Ok(Some(Entry::List {
                pass: seat.pass,
                number,
                words,
            }))
        }
        Phase::Linking { key, .. } => Ok(call_if(
            found == 0 && seat.marked,
            seat.pass,
            key,
            Reply::Full,
        )),
        Phase::Swapping { key, .. } => Ok(call_if(
            found == 0,
            seat.pass,
            key,
            Reply::Num(seat.spare),
        )),
        Phase::AtTwo { key, node, .. } => Ok(call_if(
            found == key.two,
            seat.pass,
            key,
            Reply::Num(node),
        )),
        _ => Ok(None),
    }
}

// A call's entry, where it is answered.
fn call_if(answered: bool, pass: u32, key: Key, answer: Reply) -> Option<Entry>
    ensures { option_to_list result ≡ (if answered then Call pass key answer ∷ [] else []) }
{
    if answered {
        Some(Entry::Call { pass, key, answer })
    } else {
        None
    }
}

/// What a seat's turn answers.
pub fn outcome_of(shape: &Shape, seat: &Seat, found: u64) -> Outcome2
    ensures { (offer : List EntryWords) → result ≡ (turn_of shape.now offer seat.now found).outcome }
{
    match seat.phase {
        Phase::Linking { .. } => answered_if(found == 0 && seat.marked, Reply::Full),
        Phase::Swapping { .. } => answered_if(found == 0, Reply::Num(seat.spare)),
        Phase::AtTwo { key, node, .. } => answered_if(found == key.two, Reply::Num(node)),
        Phase::LookingTwo(_, one) => Outcome2::Found(Key { one, two: found }),
        Phase::MeasuringList(_) => Outcome2::Length(list_length(found)),
        Phase::ReadingThree { one, two, .. } => Outcome2::Got(EntryWords([one, two, found])),
        Phase::Offering { .. } => {
            if found != 0 {
                Outcome2::Offered(Published::Already)
            } else if seat.refused.is_some() {
                Outcome2::Offered(Published::NoRoom)
            } else {
                Outcome2::Going
            }
        }
        Phase::ClaimingBlock { length, .. } => {
            if u128::from(found) + u128::from(length) <= u128::from(shape.entries) {
                Outcome2::Going
            } else {
                Outcome2::Offered(Published::NoRoom)
            }
        }
        Phase::SwappingList { .. } => {
            if found == 0 {
                Outcome2::Offered(Published::First)
            } else {
                Outcome2::Offered(Published::Already)
            }
        }
        _ => Outcome2::Going,
    }
}

fn answered_if(answered: bool, reply: Reply) -> Outcome2
    ensures { result ≡ (if answered then Answered reply else Going) }
{
    if answered {
        Outcome2::Answered(reply)
    } else {
        Outcome2::Going
    }
}

/// How long the list is that a list word names.
pub fn list_length(word: u64) -> Option<u32>
    ensures { result ≡ turns.length_in word }
{
    if word == 0 {
        None
    } else {
        Some((word % (1 << 32)) as u32)
    }
}
