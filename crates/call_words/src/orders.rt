//! The order of a run, from the values of its options.
ghost use Rattle.std.specs.Prelude.{◌≡◌, MatchOption};
ghost use Rattle.clap.specs.Words.{first_value, found_of};
ghost use Rattle.call_words.specs.CommandWords.{IsOrderOf, IsRunOf};

use crate::numbers::{number, small_number, small_number_of};
use clap::ArgMatches;
use sim_replication::Order;

// The order and the size of a made model, if any, where the options have these values, or none where a
// number isn't in its range.
pub(crate) fn run_of(given: &ArgMatches) -> Option<(Order, Option<u32>)>
    ensures { let value = first_value (found_of given.now) in
        MatchOption result ((order : _) (made : _) → ¬ IsRunOf value order made)
        (λ run. IsRunOf value run.0 run.1) }
{
    let order = order_of(given)?;
    match given.get_str("made") {
        None => Some((order, None)),
        Some(text) => {
            let size = small_number_of(text, 1, 100)?;
            Some((order, Some(size)))
        }
    }
}

// The order where the options have these values, or none where a number isn't in its range.
fn order_of(given: &ArgMatches) -> Option<Order>
    ensures { let value = first_value (found_of given.now) in
        MatchOption result ((order : _) → ¬ IsOrderOf value order) (IsOrderOf value) }
{
    let order = Order {
        seed: number(given, "seed", 0, u64::MAX, 1)?,
        runs: number(given, "runs", 1, 1_000_000, 1_000)?,
        passages: number(given, "passages", 1, 1_000_000, 1)?,
        jumps: number(given, "jumps", 1, 1_000_000_000, 100_000)?,
        workers: small_number(given, "workers", 1, 64, 1)?,
        table: small_number(given, "table", 8, 4_194_304, 262_144)?,
        entries: small_number(given, "entries", 8, 16_777_216, 1_048_576)?,
        bin: small_number(given, "bin", 1, 1_000_000, 1)?,
        bins: small_number(given, "bins", 1, 10_000, 20)?,
    };
    if order.runs * order.passages <= 10_000_000 {
        Some(order)
    } else {
        None
    }
}
