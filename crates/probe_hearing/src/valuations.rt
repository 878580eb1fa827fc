//! The valuation of a table's guards for some counts.
ghost use Rattle.std.specs.Prelude.{◌≡◌, ◌≤◌, ◌<◌, ◌^◌, ◌↔◌, IsTrue, length, map};
ghost use Rattle.std.specs.List.{All};
ghost use Rattle.probe_words.specs.Guards.{AsksBelow};
ghost use Rattle.probe_words.specs.Twins.{condition_of};
ghost use Rattle.probe_automata.specs.TableMoves.{valuation_of};

use probe_words::Guard;

/// Whether none of these guards asks for any but the first `count` counts: what `valuation` asks for.
pub fn all_ask_below(guards: &[Guard], count: usize) -> bool
    ensures { IsTrue result ↔ All (λ g. AsksBelow count (condition_of g)) guards.now }
{
    guards.iter().all(|guard| guard.asks_below(count))
}

/// The valuation of these guards for these counts: bit j is the truth of guard j.
///
/// The caller sees to it that there are at most 4 guards, and that none asks for a count past their end.
pub fn valuation(guards: &[Guard], counts: &[u32]) -> u32
    requires few { length guards.now ≤ 4 }
    requires known { All (λ g. AsksBelow (length counts.now) (condition_of g)) guards.now }
    ensures bits { result ≡ valuation_of counts.now (map condition_of guards.now) }
    ensures small { result < 2 ^ length guards.now }
{
    let mut bits = 0u32;
    for (at, guard) in guards.iter().enumerate() {
        if guard.holds(counts) {
            bits += 1u32 << at;
        }
    }
    bits
}
