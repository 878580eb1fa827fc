//! The command that the words of a call give.
ghost use Rattle.std.specs.Prelude.{◌≡◌, MatchOption, MatchResult, Option, ℕ, map, string_bytes};
ghost use Rattle.sim_replication.specs.declared.order.Order.{Order};
ghost use Rattle.sim_report.specs.declared.probe_ask.ProbeAsk.{ProbeAsk};
ghost use Rattle.call_words.specs.CommandWords.{AnswersWords, GivesAsk, GivesRun, GivesSize};

use crate::asks::ask_of;
use crate::command::{Command, WordsFault};
use crate::numbers::small_number_of;
use crate::option_words::given_values;
use crate::orders::run_of;
use sim_replication::Order;
use sim_report::ProbeAsk;
use std::alloc::Global;

/// The command that the words after the program's name give.
///
/// # Errors
///
/// `Usage` exactly where they give none, and else `Memory`.
pub fn read_words(alloc: Global, words: &[String]) -> Result<Command, WordsFault>
    ensures { AnswersWords (map string_bytes words.now) result }
{
    let Some((first, others)) = words.split_first() else {
        return Err(WordsFault::Usage);
    };
    match first.as_str() {
        "steps" if others.is_empty() => Ok(Command::Steps),
        "check" if others.is_empty() => Ok(Command::Check),
        "print" if others.is_empty() => Ok(Command::Print),
        "probe" => Ok(Command::Probe(read_ask(alloc, others)?)),
        "run" => {
            let (order, made) = read_run(alloc, others)?;
            Ok(Command::Run { order, made })
        }
        "gen" => match read_size(others) {
            Some(size) => Ok(Command::Gen(size)),
            None => Err(WordsFault::Usage),
        },
        _ => Err(WordsFault::Usage),
    }
}

// What the words after `probe` ask for.
fn read_ask(alloc: Global, words: &[String]) -> Result<ProbeAsk, WordsFault>
    ensures { let texts = map string_bytes words.now in
        MatchResult result (GivesAsk texts)
        (λ fault. fault ≡ WordsFault.Usage → (ask : ProbeAsk) → ¬ GivesAsk texts ask) }
{
    let given = given_values(alloc, ["number", "events"].as_slice(), words)?;
    ask_of(alloc, &given)
}

// What the words after `run` order, and the size of a made model, if any.
fn read_run(alloc: Global, words: &[String]) -> Result<(Order, Option<u32>), WordsFault>
    ensures { let texts = map string_bytes words.now in
        MatchResult result (λ run. GivesRun texts run.0 run.1)
        (λ fault. fault ≡ WordsFault.Usage
        → (order : Order) (made : Option ℕ) → ¬ GivesRun texts order made) }
{
    let names = [
        "seed", "runs", "passages", "jumps", "workers", "table", "entries", "bin", "bins", "made",
    ];
    let given = given_values(alloc, names.as_slice(), words)?;
    match run_of(&given) {
        Some(run) => Ok(run),
        None => Err(WordsFault::Usage),
    }
}

// The size of a made model, which is the one word after `gen`.
fn read_size(words: &[String]) -> Option<u32>
    ensures { let texts = map string_bytes words.now in
        MatchOption result ((size : _) → ¬ GivesSize texts size) (GivesSize texts) }
{
    match words {
        [word] => small_number_of(word.as_str(), 1, 100),
        _ => None,
    }
}
