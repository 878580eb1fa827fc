//! What is asked of a model's probes, from the values of the options.
ghost use Rattle.std.specs.Prelude.{◌≡◌, MatchResult};
ghost use Rattle.clap.specs.Words.{first_value, found_of};
ghost use Rattle.sim_report.specs.declared.probe_ask.ProbeAsk.{ProbeAsk};
ghost use Rattle.call_words.specs.CommandWords.{AreEventsIn, IsAskOf};

use crate::command::WordsFault;
use crate::events::event_names;
use crate::numbers::small_number_of;
use clap::ArgMatches;
use sim_report::ProbeAsk;
use std::alloc::Global;

// What is asked where the options have these values: both have one, or neither.
pub(crate) fn ask_of(alloc: Global, given: &ArgMatches) -> Result<ProbeAsk, WordsFault>
    ensures { let value = first_value (found_of given.now) in
        MatchResult result (IsAskOf value)
        (λ fault. fault ≡ WordsFault.Usage → (ask : ProbeAsk) → ¬ IsAskOf value ask) }
{
    let number = given.get_str("number");
    let events = given.get_str("events");
    match (number, events) {
        (None, None) => Ok(ProbeAsk::All),
        (Some(number), Some(events)) => events_of(alloc, number, events),
        _ => Err(WordsFault::Usage),
    }
}

// The events that one probe is asked for.
fn events_of(alloc: Global, number: &str, events: &str) -> Result<ProbeAsk, WordsFault>
    ensures { MatchResult result (AreEventsIn number.now events.now)
        (λ fault. fault ≡ WordsFault.Usage
        → (ask : ProbeAsk) → ¬ AreEventsIn number.now events.now ask) }
{
    let Some(number) = small_number_of(number, 1, 16) else {
        return Err(WordsFault::Usage);
    };
    let names = event_names(alloc, events)?;
    Ok(ProbeAsk::Events { number, names })
}
