//! Events on an interner, one and many.
ghost use Rattle.std.specs.Prelude.{◌≡◌, ◌≤◌, ℕ, ◌+◌, ◌*◌, ◌++◌, ◌∷◌, [], List, length, Some, None, Err, IfOk, IfErr, OnErr};
ghost use Rattle.intern_core.specs.declared.event.Event.{Event};
ghost use Rattle.intern_core.specs.declared.history.Key.{Key};
ghost use Rattle.intern_core.specs.declared.history.Entry.{Entry};
ghost use Rattle.intern_core.specs.declared.outcome.CoreFault.TheVariants.{NotEnabled};
ghost use Rattle.intern_core.specs.History.{IsLegal, HasOneNumberPerKey};
ghost use Rattle.intern_core.specs.Blocks.{KeptLists};
ghost use Rattle.intern_core.specs.Image.{IsImage};
ghost use Rattle.intern_core.specs.Kept.{IsShape};
ghost use Rattle.intern_core.specs.Pace.{AsksTakeAtMost};
ghost use Rattle.intern_core.specs.Machine.{Machine, fresh, happened, after_event, after_all, IsOutcomeOf, IsRefusedAt};
ghost use Rattle.intern_core.specs.Machine as machine_words;

use crate::event::{Act, Event, RunCoreFault};
use crate::machine::Core;
use crate::outcome::{CoreFault, Outcome2};
use crate::seat::{Phase, Seat};
use crate::shape::Shape;
use crate::turns::first_phase;
use sqlite_items::Items;
use std::alloc::Global;

/// One event, if it is its seat's next one.
///
/// The answer is the event's outcome, which is that of the entry made, if one is made. `NotEnabled` comes exactly where the event
/// isn't its seat's next one. After an error nothing has changed.
pub fn core_step(alloc: Global, core: &mut Core, event: &Event) -> Result<Outcome2, CoreFault>
    ensures ok { IfOk result (λ o. after_event core.old event.now ≡ Some (happened core.new o)) }
    ensures entry { IfOk result (λ o. (made : List Entry) × (core.new.history ≡ core.old.history ++ made) × IsOutcomeOf event.now.seat made o) }
    ensures err { OnErr result (core.new ≡ core.old) }
    ensures refused { result ≡ Err NotEnabled → after_event core.old event.now ≡ None }
    ensures enabled { after_event core.old event.now ≡ None → result ≡ Err NotEnabled }
{
    core.kept();
    step(alloc, core, event)
}

fn step(alloc: Global, core: &mut Core, event: &Event) -> Result<Outcome2, CoreFault>
    ensures ok { IfOk result (λ o. after_event core.old event.now ≡ Some (happened core.new o)) }
    ensures err { OnErr result (core.new ≡ core.old) }
    ensures refused { result ≡ Err NotEnabled → after_event core.old event.now ≡ None }
    ensures enabled { after_event core.old event.now ≡ None → result ≡ Err NotEnabled }
{
    core.kept();
    let i = event.seat;
    let Some(place) = core.seat(i) else {
        return Err(CoreFault::NotEnabled);
    };
    let seat = place.seat;
    let idle = is_idle(&seat);
    match &event.act {
        Act::Ask(key) => {
            if !idle {
                return Err(CoreFault::NotEnabled);
            }
            core.begin(i, first_phase(&seat, *key));
            Ok(Outcome2::Going)
        }
        Act::Look(number) => {
            if !idle || !core.is_known(*number) {
                return Err(CoreFault::NotEnabled);
            }
            core.begin(i, Phase::LookingOne(*number));
            Ok(Outcome2::Going)
        }
        Act::FetchLen(number) => {
            if !idle || !core.is_known(*number) {
                return Err(CoreFault::NotEnabled);
            }
            core.begin(i, Phase::MeasuringList(*number));
            Ok(Outcome2::Going)
        }
        Act::FetchEntry(number, at) => {
            if !idle || !core.is_longer(*number, *at) {
                return Err(CoreFault::NotEnabled);
            }
            let (number, at) = (*number, *at);
            core.begin(i, Phase::FindingEntry { number, at });
            Ok(Outcome2::Going)
        }
        Act::Offer { number, words } => {
            if !idle || !core.is_known(*number) || words.len() > 4096 {
                return Err(CoreFault::NotEnabled);
            }
            let Ok(offer) = Items::from_slice(alloc, words.as_slice()) else {
                return Err(CoreFault::Memory);
            };
            let length = words.len() as u32;
            core.begin_offer(
                i,
                Phase::Offering {
                    number: *number,
                    length,
                },
                offer,
            );
            Ok(Outcome2::Going)
        }
        act => {
            if !is_next(&seat, act) {
                return Err(CoreFault::NotEnabled);
            }
            core.turn(alloc, i)
        }
    }
}

/// The interner that all events make of one with no entry, in order.
///
/// `NotEnabled` carries the number, from 0, of the first event that isn't its seat's next one.
pub fn run_core(alloc: Global, shape: Shape, events: &[Event]) -> Result<Core, RunCoreFault>
    requires { IsShape shape }
    ensures ok { IfOk result (λ c. after_all (fresh shape) events.now ≡ Some c) }
    ensures legal { IfOk result (λ c. IsLegal shape c.history) }
    ensures image { IfOk result (λ c. IsImage shape c.words c.history) }
    ensures keys { IfOk result (λ c. HasOneNumberPerKey c.history) }
    ensures lists { IfOk result (λ c. KeptLists shape c.words c.seats c.history) }
    ensures steps { AsksTakeAtMost (λ k. 4 * k + 3) shape events.now }
    ensures err { IfErr result (λ e. IsRefusedAt (fresh shape) events.now e) }
{
    let Ok(mut core) = Core::make(alloc, shape) else {
        return Err(RunCoreFault::Memory);
    };
    let mut k = 0;
    while k < events.len() {
        match core_step(alloc, &mut core, &events[k]) {
            Ok(_) => k += 1,
            Err(CoreFault::NotEnabled) => return Err(RunCoreFault::NotEnabled(k as u64)),
            Err(CoreFault::Memory) => return Err(RunCoreFault::Memory),
        }
    }
    core.valid();
    Ok(core)
}

fn is_idle(seat: &Seat) -> bool
    ensures { result ≡ machine_words.is_idle seat.now.phase }
{
    matches!(seat.phase, Phase::Idle)
}

// Whether the act is the one that the seat's call does next.
fn is_next(seat: &Seat, act: &Act) -> bool
    ensures { result ≡ machine_words.is_next seat.now.phase act.now }
{
    match seat.phase {
        Phase::Idle => false,
        Phase::Claiming(_) => matches!(act, Act::Claim),
        Phase::StoringOne(_) => matches!(act, Act::StoreOne),
        Phase::StoringTwo(_) => matches!(act, Act::StoreTwo),
        Phase::Linking { .. } => matches!(act, Act::LoadLink),
        Phase::Swapping { .. } => matches!(act, Act::SwapLink),
        Phase::AtOne { .. } | Phase::LookingOne(_) => matches!(act, Act::LoadOne),
        Phase::AtTwo { .. } | Phase::LookingTwo(_, _) => matches!(act, Act::LoadTwo),
        Phase::MeasuringList(_) | Phase::FindingEntry { .. } => matches!(act, Act::LoadList),
        Phase::Offering { .. } => matches!(act, Act::LoadList),
        Phase::ReadingOne { .. } | Phase::ReadingTwo { .. } => matches!(act, Act::LoadWord),
        Phase::ReadingThree { .. } => matches!(act, Act::LoadWord),
        Phase::ClaimingBlock { .. } => matches!(act, Act::ClaimBlock),
        Phase::StoringWord { .. } => matches!(act, Act::StoreWord),
        Phase::SwappingList { .. } => matches!(act, Act::SwapList),
    }
}
