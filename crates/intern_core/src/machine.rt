//! The interner's words, seats and history.
ghost use Rattle.std.specs.Prelude.{◌≡◌, ◌<◌, [], ◌∷◌, Some, Err, IfOk, OnOk, OnErr, length, slice_get, slice_index, option_copied};
ghost use Rattle.intern_core.specs.declared.outcome.CoreFault.TheVariants.{Memory};
ghost use Rattle.intern_core.specs.declared.seat.SeatWithOffer.{SeatWithOffer};
ghost use Rattle.intern_core.specs.History.{IsLegal, HasOneNumberPerKey, listing_in};
ghost use Rattle.intern_core.specs.Blocks.{KeptLists};
ghost use Rattle.intern_core.specs.Image.{IsImage};
ghost use Rattle.intern_core.specs.Kept.{IsShape};
ghost use Rattle.intern_core.specs.Turns.{next_place};
ghost use Rattle.intern_core.specs.Machine.{fresh, begun, taken, next_turn, happened, some_keeps, IsKept};
ghost use Rattle.intern_core.specs.Machine as machine_words;
ghost use Rattle.intern_core.specs.Nexts.{MayBegin, IsNext, IsPut};

use crate::history::{Entry, Words};
use crate::outcome::{CoreFault, Outcome2};
use crate::places::{place, word_count};
use crate::seat::{Phase, Seat, SeatWithOffer};
use crate::shape::Shape;
use crate::turns::{left, made, outcome_of, turned, with_phase};
use std::alloc::{AllocError, Global};
use std::marker::Model;

/// The words, the seats and the history of an interner. Contracts see it as these and its shape.
#[derive(Drop)]
pub struct Core {
    shape: Shape,
    words: Vec<u64>,
    seats: Vec<SeatWithOffer>,
    history: Vec<Entry>,
}

impl Model for Core {
    ghost use Rattle.intern_core.specs.Machine.{Machine, IsKept};

    ghost Value = { Machine };

    ghost view = { λ c. record { shape = c.shape; words = c.words.items; seats = c.seats.items; history = c.history.items } };

    ghost invariant = { λ c. IsKept (record { shape = c.shape; words = c.words.items; seats = c.seats.items; history = c.history.items }) };
}

impl Core {
    /// An interner with no entry: all words are 0 and all seats idle.
    pub fn make(alloc: Global, shape: Shape) -> Result<Core, AllocError>
        requires { IsShape shape }
        ensures { IfOk result (λ c. c ≡ fresh shape) }
    {
        let words = vec![in alloc; 0u64; word_count(&shape)]?;
        let seats = idle_seats(alloc, shape.passes)?;
        Ok(Core {
            shape,
            words,
            seats,
            history: Vec::new(alloc),
        })
    }

    /// The entries so far.
    pub fn history(&self) -> &[Entry]
        ensures { result.now ≡ self.now.history }
    {
        &self.history
    }

    /// The words now.
    pub fn words(&self) -> &[u64]
        ensures { result.now ≡ self.now.words }
    {
        &self.words
    }

    /// Costs nothing, and tells a proof what every core keeps: its history is legal, its words are the history's image, two known
    /// numbers have different keys, and no entry of the table is in two blocks.
    pub fn valid(&self)
        ensures legal { IsLegal self.now.shape self.now.history }
        ensures image { IsImage self.now.shape self.now.words self.now.history }
        ensures keys { HasOneNumberPerKey self.now.history }
        ensures lists { KeptLists self.now.shape self.now.words self.now.seats self.now.history }
    {
        let _ = &self.shape;
    }

    // Costs nothing, and tells a proof the whole invariant.
    pub(crate) fn kept(&self)
        ensures { IsKept self.now }
    {
        let _ = &self.shape;
    }

    // The seat with this number.
    pub(crate) fn seat(&self, i: u32) -> Option<&SeatWithOffer>
        ensures { option_copied result ≡ slice_get self.now.seats i }
    {
        self.seats.get(i as usize)
    }

    // The word that the seat's next turn finds.
    fn found(&self, i: u32, s: &SeatWithOffer) -> u64
        requires { slice_get self.now.seats i ≡ Some s.now }
        ensures { result ≡ slice_index self.now.words (next_place self.now.shape s.now.seat) }
    {
        self.words[place(&self.shape, &s.seat)]
    }

    // What the seat's next turn finds, leaves, makes and answers.
    fn next(&self, alloc: Global, i: u32) -> Result<Next, AllocError>
        requires { i < length self.now.seats }
        ensures { IfOk result (λ next. (s : SeatWithOffer) → slice_get self.now.seats i ≡ Some s → IsNext self.now s next) }
    {
        let s = &self.seats[i as usize];
        let found = self.found(i, s);
        Ok(Next {
            at: place(&self.shape, &s.seat),
            word: left(&s.seat, s.offer.as_slice(), found),
            seat: turned(&self.shape, &s.seat, found),
            made: made(alloc, &s.seat, s.offer.as_slice(), found)?,
            outcome: outcome_of(&self.shape, &s.seat, found),
        })
    }

    // The next turn of a seat.
    pub(crate) fn turn(&mut self, alloc: Global, i: u32) -> Result<Outcome2, CoreFault>
        requires { i < length self.old.seats }
        ensures ok { IfOk result (λ o. (s : SeatWithOffer) → slice_get self.old.seats i ≡ Some s → happened self.new o ≡ machine_words.turn_taken self.old i s) }
        ensures err { OnErr result ((self.new ≡ self.old) × (result ≡ Err Memory)) }
    {
        let Ok(next) = self.next(alloc, i) else {
            return Err(CoreFault::Memory);
        };
        let Next {
            at,
            word,
            seat,
            made,
            outcome,
        } = next;
        match made {
            Some(entry) => self.put_with(i, at, word, seat, entry)?,
            None => self.put(i, at, word, seat),
        }
        Ok(outcome)
    }

    // A turn that makes no entry.
    fn put(&mut self, i: u32, at: usize, word: u64, seat: Seat)
        requires low { i < length self.old.seats }
        requires next { (s : SeatWithOffer) → slice_get self.old.seats i ≡ Some s → IsPut self.old s at word seat [] }
        ensures { (s : SeatWithOffer) → slice_get self.old.seats i ≡ Some s → self.new ≡ taken self.old i s (next_turn self.old s) }
    {
        self.words[at] = word;
        self.seats[i as usize].seat = seat;
    }

    // A turn that makes an entry.
    fn put_with(
        &mut self,
        i: u32,
        at: usize,
        word: u64,
        seat: Seat,
        entry: Entry,
    ) -> Result<(), CoreFault>
        requires low { i < length self.old.seats }
        requires next { (s : SeatWithOffer) → slice_get self.old.seats i ≡ Some s → IsPut self.old s at word seat (entry ∷ []) }
        ensures ok { OnOk result ((s : SeatWithOffer) → slice_get self.old.seats i ≡ Some s → self.new ≡ taken self.old i s (next_turn self.old s)) }
        ensures err { OnErr result ((self.new ≡ self.old) × (result ≡ Err Memory)) }
    {
        if self.history.push(entry).is_err() {
            return Err(CoreFault::Memory);
        }
        self.words[at] = word;
        self.seats[i as usize].seat = seat;
        Ok(())
    }

    // A call begins, which touches no word.
    pub(crate) fn begin(&mut self, i: u32, phase: Phase)
        requires low { i < length self.old.seats }
        requires may { (s : SeatWithOffer) → slice_get self.old.seats i ≡ Some s → MayBegin self.old s phase s.offer }
        ensures { (s : SeatWithOffer) → slice_get self.old.seats i ≡ Some s → self.new ≡ begun self.old i s phase s.offer }
    {
        let seat = self.seats[i as usize].seat;
        self.seats[i as usize].seat = with_phase(&seat, phase);
    }

    // A list is offered, which touches no word.
    pub(crate) fn begin_offer(&mut self, i: u32, phase: Phase, offer: Words)
        requires low { i < length self.old.seats }
        requires may { (s : SeatWithOffer) → slice_get self.old.seats i ≡ Some s → MayBegin self.old s phase offer }
        ensures { (s : SeatWithOffer) → slice_get self.old.seats i ≡ Some s → self.new ≡ begun self.old i s phase offer }
    {
        let seat = with_phase(&self.seats[i as usize].seat, phase);
        self.seats[i as usize] = SeatWithOffer { seat, offer };
    }

    // Whether a number has a list that is longer than this.
    pub(crate) fn is_longer(&self, number: u32, at: u32) -> bool
        ensures { result ≡ machine_words.is_longer at (listing_in self.now.history number) }
    {
        if number == 0 || number > self.shape.nodes {
            return false;
        }
        let word = self.words[4 * number as usize + 3];
        word != 0 && u64::from(at) < word % (1 << 32)
    }

    // Whether a number is known: the claim word has given it out, and no seat keeps it as its spare.
    pub(crate) fn is_known(&self, number: u32) -> bool
        ensures { result ≡ machine_words.is_known number self.now.history }
    {
        if number == 0 || number > self.shape.nodes {
            return false;
        }
        if u64::from(number) > self.words[0] {
            return false;
        }
        !is_spare(&self.seats, number)
    }
}

// Whether some seat keeps this spare.
fn is_spare(seats: &[SeatWithOffer], number: u32) -> bool
    ensures { result ≡ some_keeps number seats.now }
{
    for seat in seats {
        if seat.seat.spare == number {
            return true;
        }
    }
    false
}

// An idle seat for each pass.
fn idle_seats(alloc: Global, passes: u32) -> Result<Vec<SeatWithOffer>, AllocError>
    ensures { IfOk result (λ seats. seats.items ≡ machine_words.idle_seats passes) }
{
    let mut seats = Vec::new(alloc);
    for pass in 0..passes {
        let seat = Seat {
            pass,
            refused: None,
            spare: 0,
            marked: false,
            phase: Phase::Idle,
        };
        seats.push(SeatWithOffer {
            seat,
            offer: Words::new(alloc),
        })?;
    }
    Ok(seats)
}

// A turn: the word that it changes, what it leaves there, the seat, the entry made, and the outcome.
#[derive(Drop)]
pub(crate) struct Next {
    pub(crate) at: usize,
    pub(crate) word: u64,
    pub(crate) seat: Seat,
    pub(crate) made: Option<Entry>,
    pub(crate) outcome: Outcome2,
}
