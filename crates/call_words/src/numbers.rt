//! Numbers that options have.
ghost use Rattle.std.specs.Prelude.{◌≡◌, MatchOption};
ghost use Rattle.clap.specs.Words.{first_value, found_of};
ghost use Rattle.call_words.specs.OptionTable.{IsNumberText, NumberOption};
ghost use Rattle.call_words.specs.CommandWords.{HasNumber};

use clap::ArgMatches;

// The number of an option: that of its value, which has to be in the range, or the default.
pub(crate) fn number(
    given: &ArgMatches,
    name: &str,
    least: u64,
    most: u64,
    default: u64,
) -> Option<u64>
    ensures { let option : NumberOption =
        record { name = name.now; least = least; most = most; default = default } in
        let value = first_value (found_of given.now) in
        MatchOption result ((n : _) → ¬ HasNumber option value n) (HasNumber option value) }
{
    match given.get_str(name) {
        Some(text) => number_of(text, least, most),
        None => Some(default),
    }
}

// The number of an option with a range of 32 bits.
pub(crate) fn small_number(
    given: &ArgMatches,
    name: &str,
    least: u32,
    most: u32,
    default: u32,
) -> Option<u32>
    ensures { let option : NumberOption =
        record { name = name.now; least = least; most = most; default = default } in
        let value = first_value (found_of given.now) in
        MatchOption result ((n : _) → ¬ HasNumber option value n) (HasNumber option value) }
{
    match given.get_str(name) {
        Some(text) => small_number_of(text, least, most),
        None => Some(default),
    }
}

// The number of a text with a range of 32 bits.
pub(crate) fn small_number_of(text: &str, least: u32, most: u32) -> Option<u32>
    ensures { MatchOption result ((n : _) → ¬ IsNumberText least most text.now n)
        (IsNumberText least most text.now) }
{
    match text.parse::<u32>() {
        Ok(number) if least <= number && number <= most => Some(number),
        _ => None,
    }
}

// The number of a text that is from one number to another.
fn number_of(text: &str, least: u64, most: u64) -> Option<u64>
    ensures { MatchOption result ((n : _) → ¬ IsNumberText least most text.now n)
        (IsNumberText least most text.now) }
{
    match text.parse::<u64>() {
        Ok(number) if least <= number && number <= most => Some(number),
        _ => None,
    }
}
