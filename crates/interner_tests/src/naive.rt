//! An interner for the tests: a list of keys by their numbers, a list for each number, and what each seat is about. It knows no
//! links, no words and no blocks.

use crate::moves::{Move, Noted, entry_at};
use intern_core::{Key, Outcome2, Published, Reply, Shape};
use std::alloc::{AllocError, Global};

/// What a seat's call is about.
#[derive(Clone, Copy)]
enum Errand {
    Nothing,
    Asked(Key),
    Looked(u32),
    Measures(u32),
    Fetches(u32, u32),
    Offers {
        number: u32,
        length: u32,
        first: u64,
        stored: u32,
    },
}

/// What a seat of the naive interner keeps: its number to give away, whether it is marked full, whether an offer of it found no
/// room, its call, and how many events that has taken.
#[derive(Clone, Copy)]
struct Guest {
    spare: u32,
    marked: bool,
    refused: bool,
    errand: Errand,
    steps: u64,
}

/// A known key with its number, and its list if it has one.
#[derive(Clone, Copy)]
struct Named {
    key: Key,
    number: u32,
    list: Option<(u32, u64)>,
}

/// How often each ending came.
#[derive(Clone, Copy, Debug, PartialEq, Eq)]
pub struct Endings {
    pub full: u32,
    pub published: u32,
    pub lost: u32,
    pub no_room: u32,
    pub got: u32,
}

/// The naive interner.
#[derive(Drop)]
pub struct Naive {
    nodes: u32,
    passes: u32,
    entries: u64,
    claims: u32,
    taken: u64,
    guests: Vec<Guest>,
    named: Vec<Named>,
    noted: Vec<Noted>,
    endings: Endings,
}

impl Naive {
    pub fn make(alloc: Global, shape: &Shape) -> Result<Naive, AllocError> {
        let guest = Guest {
            spare: 0,
            marked: false,
            refused: false,
            errand: Errand::Nothing,
            steps: 0,
        };
        let mut guests = Vec::new(alloc);
        for _ in 0..shape.passes {
            guests.push(guest)?;
        }
        let endings = Endings {
            full: 0,
            published: 0,
            lost: 0,
            no_room: 0,
            got: 0,
        };
        Ok(Naive {
            nodes: shape.nodes,
            passes: shape.passes,
            entries: u64::from(shape.entries),
            claims: 0,
            taken: 0,
            guests,
            named: Vec::new(alloc),
            noted: Vec::new(alloc),
            endings,
        })
    }

    fn number_of(&self, key: Key) -> Option<u32> {
        for named in &self.named {
            if named.key == key {
                return Some(named.number);
            }
        }
        None
    }

    fn named(&self, number: u32) -> Option<Named> {
        for named in &self.named {
            if named.number == number {
                return Some(*named);
            }
        }
        None
    }

    fn list_of(&self, number: u32) -> Option<(u32, u64)> {
        match self.named(number) {
            Some(named) => named.list,
            None => None,
        }
    }

    pub fn is_idle(&self, seat: u32) -> bool {
        match self.guests.get(seat as usize) {
            Some(guest) => matches!(guest.errand, Errand::Nothing),
            None => false,
        }
    }

    pub fn noted(&self) -> &[Noted] {
        &self.noted
    }

    pub fn endings(&self) -> Endings {
        self.endings
    }

    /// Whether an idle seat may begin this call.
    pub fn may_begin(&self, step: Move) -> bool {
        match step {
            Move::Ask(_) => true,
            Move::Look(number) | Move::FetchLen(number) => self.named(number).is_some(),
            Move::Offer(number, length, _) => self.named(number).is_some() && length <= 4096,
            Move::FetchEntry(number, at) => match self.list_of(number) {
                Some((length, _)) => at < length,
                None => false,
            },
            _ => false,
        }
    }

    fn set(&mut self, seat: u32, guest: Guest) {
        if let Some(place) = self.guests.get_mut(seat as usize) {
            *place = guest;
        }
    }

    /// A call begins.
    pub fn begin(&mut self, seat: u32, step: Move) {
        let Some(guest) = self.guests.get(seat as usize).copied() else {
            return;
        };
        let errand = match step {
            Move::Ask(key) => Errand::Asked(key),
            Move::Look(number) => Errand::Looked(number),
            Move::FetchLen(number) => Errand::Measures(number),
            Move::FetchEntry(number, at) => Errand::Fetches(number, at),
            Move::Offer(number, length, first) => Errand::Offers {
                number,
                length,
                first,
                stored: 0,
            },
            _ => Errand::Nothing,
        };
        self.set(
            seat,
            Guest {
                errand,
                steps: 0,
                ..guest
            },
        );
    }

    /// A step of a call with its outcome: false where the naive interner says otherwise.
    pub fn agrees(&mut self, seat: u32, step: Move, outcome: Outcome2) -> Result<bool, AllocError> {
        let Some(guest) = self.guests.get(seat as usize).copied() else {
            return Ok(false);
        };
        let guest = Guest {
            steps: guest.steps.saturating_add(1),
            ..guest
        };
        match guest.errand {
            Errand::Nothing => Ok(false),
            Errand::Asked(key) => self.asked(seat, guest, key, step, outcome),
            Errand::Looked(number) => Ok(self.looked(seat, guest, number, outcome)),
            Errand::Measures(number) => Ok(self.measured(seat, guest, number, outcome)),
            Errand::Fetches(number, at) => Ok(self.fetched(seat, guest, number, at, outcome)),
            Errand::Offers {
                number,
                length,
                first,
                stored,
            } => self.offered(seat, guest, (number, length, first, stored), step, outcome),
        }
    }

    fn end(&mut self, seat: u32, guest: Guest) {
        self.set(
            seat,
            Guest {
                errand: Errand::Nothing,
                ..guest
            },
        );
    }

    fn looked(&mut self, seat: u32, guest: Guest, number: u32, outcome: Outcome2) -> bool {
        let Outcome2::Found(key) = outcome else {
            self.set(seat, guest);
            return outcome == Outcome2::Going;
        };
        self.end(seat, guest);
        guest.steps == 2 && self.number_of(key) == Some(number)
    }

    fn measured(&mut self, seat: u32, guest: Guest, number: u32, outcome: Outcome2) -> bool {
        self.end(seat, guest);
        let length = match self.list_of(number) {
            Some((length, _)) => Some(length),
            None => None,
        };
        outcome == Outcome2::Length(length)
    }

    fn fetched(
        &mut self,
        seat: u32,
        guest: Guest,
        number: u32,
        at: u32,
        outcome: Outcome2,
    ) -> bool {
        if guest.steps < 4 {
            self.set(seat, guest);
            return outcome == Outcome2::Going;
        }
        self.end(seat, guest);
        self.endings.got = self.endings.got.saturating_add(1);
        match self.list_of(number) {
            Some((_, first)) => outcome == Outcome2::Got(entry_at(first, at)),
            None => false,
        }
    }

    fn asked(
        &mut self,
        seat: u32,
        guest: Guest,
        key: Key,
        step: Move,
        outcome: Outcome2,
    ) -> Result<bool, AllocError> {
        let Outcome2::Answered(reply) = outcome else {
            let right = outcome == Outcome2::Going;
            let next = if step == Move::Claim {
                self.claimed(guest)
            } else {
                guest
            };
            self.set(seat, next);
            return Ok(right && (step != Move::Claim || (guest.spare == 0 && !guest.marked)));
        };
        self.noted.push(Noted::Call(seat, key, reply))?;
        let mut next = guest;
        let right = match (reply, self.number_of(key)) {
            (Reply::Num(number), Some(known)) => number == known,
            (Reply::Num(number), None) => {
                self.named.push(Named {
                    key,
                    number,
                    list: None,
                })?;
                next = Guest { spare: 0, ..next };
                number != 0 && number == guest.spare
            }
            (Reply::Full, Some(_)) => false,
            (Reply::Full, None) => {
                self.endings.full = self.endings.full.saturating_add(1);
                let most = (self.named.len() as u64).saturating_add(u64::from(self.passes));
                guest.marked && most >= u64::from(self.nodes)
            }
        };
        self.end(seat, next);
        let bound = (self.named.len() as u64)
            .saturating_mul(4)
            .saturating_add(3);
        Ok(right && guest.steps <= bound)
    }

    fn claimed(&mut self, guest: Guest) -> Guest {
        if self.claims < self.nodes {
            self.claims += 1;
            Guest {
                spare: self.claims,
                ..guest
            }
        } else {
            Guest {
                marked: true,
                ..guest
            }
        }
    }

    fn offered(
        &mut self,
        seat: u32,
        guest: Guest,
        offer: (u32, u32, u64, u32),
        step: Move,
        outcome: Outcome2,
    ) -> Result<bool, AllocError> {
        let (number, length, first, stored) = offer;
        let has_list = self.list_of(number).is_some();
        match step {
            Move::LoadList => Ok(self.found_list(seat, guest, has_list, outcome)),
            Move::ClaimBlock => Ok(self.block_claimed(seat, guest, length, outcome)),
            Move::StoreWord => {
                let errand = Errand::Offers {
                    number,
                    length,
                    first,
                    stored: stored.saturating_add(1),
                };
                self.set(seat, Guest { errand, ..guest });
                Ok(outcome == Outcome2::Going && u64::from(stored) < 3 * u64::from(length))
            }
            Move::SwapList => {
                self.end(seat, guest);
                let all = u64::from(stored) == 3 * u64::from(length);
                if has_list {
                    self.noted.push(Noted::Lost(seat, number, length))?;
                    self.endings.lost = self.endings.lost.saturating_add(1);
                    return Ok(all && outcome == Outcome2::Offered(Published::Already));
                }
                self.noted.push(Noted::List(seat, number, length, first))?;
                self.endings.published = self.endings.published.saturating_add(1);
                self.give(number, length, first);
                Ok(all && outcome == Outcome2::Offered(Published::First))
            }
            _ => Ok(false),
        }
    }

    fn give(&mut self, number: u32, length: u32, first: u64) {
        for named in &mut self.named {
            if named.number == number {
                named.list = Some((length, first));
            }
        }
    }

    fn found_list(&mut self, seat: u32, guest: Guest, has_list: bool, outcome: Outcome2) -> bool {
        if has_list {
            self.end(seat, guest);
            return outcome == Outcome2::Offered(Published::Already);
        }
        if guest.refused {
            self.end(seat, guest);
            return outcome == Outcome2::Offered(Published::NoRoom);
        }
        self.set(seat, guest);
        outcome == Outcome2::Going
    }

    fn block_claimed(&mut self, seat: u32, guest: Guest, length: u32, outcome: Outcome2) -> bool {
        self.taken = self.taken.saturating_add(u64::from(length));
        if self.taken > self.entries {
            self.endings.no_room = self.endings.no_room.saturating_add(1);
            self.end(
                seat,
                Guest {
                    refused: true,
                    ..guest
                },
            );
            return outcome == Outcome2::Offered(Published::NoRoom);
        }
        self.set(seat, guest);
        outcome == Outcome2::Going
    }
}
