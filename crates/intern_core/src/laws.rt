//! Laws of the words that contracts cite. Each function's contract is a law, and a call costs nothing.
ghost use Rattle.std.specs.Prelude.{◌≡◌, ◌↔◌, ℕ, ◌+◌, ◌*◌, ◌++◌, ◌∷◌, [], List, Some, length, slice_get, option_map};
ghost use Rattle.intern_core.specs.declared.event.Event.{Event};
ghost use Rattle.intern_core.specs.declared.history.EntryWords.{EntryWords};
ghost use Rattle.intern_core.specs.declared.history.Key.{Key};
ghost use Rattle.intern_core.specs.declared.outcome.Outcome2.TheVariants.{Length, Got, Offered};
ghost use Rattle.intern_core.specs.declared.outcome.Published.TheVariants.{NoRoom};
ghost use Rattle.intern_core.specs.declared.seat.Phase.TheVariants.{MeasuringList, ReadingThree};
ghost use Rattle.intern_core.specs.declared.seat.SeatWithOffer.{SeatWithOffer};
ghost use Rattle.intern_core.specs.declared.shape.Shape.{Shape};
ghost use Rattle.intern_core.specs.History.{listing_in};
ghost use Rattle.intern_core.specs.Machine.{Machine, IsKept, next_turn};
ghost use Rattle.intern_core.specs.Offers.{HasNoRoom, IsPublished};
ghost use Rattle.intern_core.specs.Pace.{IsAnsweredAsk, known_beside, own_events};

/// The bound on the events of a call is reached: two seats ask for one key, and the second loses its exchange.
pub fn bound_is_reached()
    ensures { (shape : Shape) × (before between : List Event) × (key : Key) × (last : Event) × (m : Machine)
        × IsAnsweredAsk shape before between 1 key last m
        × (length (own_events 1 (between ++ last ∷ [])) ≡ 4 * known_beside shape m.history key + 3) }
{}

/// An offer finds no room exactly where the claim word of the entries and its length are together above the entries, or its seat
/// was answered so before and the number has no list.
pub fn no_room_exactly()
    ensures { (m : Machine) (s : SeatWithOffer)
        → ((next_turn m s).outcome ≡ Offered NoRoom) ↔ HasNoRoom m.shape m.words s.seat.refused s.seat.phase }
{}

/// An entry that is fetched is that of the number's list.
pub fn fetched_entries_are_published()
    ensures { (m : Machine) → IsKept m → (i : ℕ) (s : SeatWithOffer) → slice_get m.seats i ≡ Some s
        → (number at index one two : ℕ) → s.seat.phase ≡ ReadingThree number at index one two
        → (w : EntryWords) → (next_turn m s).outcome ≡ Got w → IsPublished m.history number at w }
{}

/// A length that is fetched is that of the number's list, or there is none.
pub fn fetched_lengths_are_of_lists()
    ensures { (m : Machine) → IsKept m → (i : ℕ) (s : SeatWithOffer) → slice_get m.seats i ≡ Some s
        → (number : ℕ) → s.seat.phase ≡ MeasuringList number
        → (next_turn m s).outcome ≡ Length (option_map (λ l. length l.words) (listing_in m.history number)) }
{}
