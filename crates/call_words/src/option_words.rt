//! What values the words give to options, read by `clap`.
ghost use Rattle.std.specs.Prelude.{◌≡◌, IfOk, MatchResult, List, ℕ, Option, map, string_bytes, true};
ghost use Rattle.std.specs.List.{list_all};
ghost use Rattle.clap.specs.Words.{app_of, first_value, found_of};
ghost use Rattle.call_words.specs.OptionsApp.{is_option_name, options_app};
ghost use Rattle.call_words.specs.OptionUses.{GiveValues};

use crate::command::WordsFault;
use crate::hyphens::are_options_or_plain;
use clap::error::ErrorKind;
use clap::{Arg, ArgAction, ArgMatches, Command};
use std::alloc::{AllocError, Global};

// The values that the words give to options with these names, each at most once.
pub(crate) fn given_values<'a>(
    alloc: Global,
    names: &[&'a str],
    words: &'a [String],
) -> Result<ArgMatches<'a>, WordsFault>
    requires { list_all is_option_name (map (λ name. name.now) names.now) ≡ true }
    ensures { let texts = map (λ name. name.now) names.now in
        let given = map string_bytes words.entry.now in
        MatchResult result (λ matches. GiveValues texts given (first_value (found_of matches)))
        (λ fault. fault ≡ WordsFault.Usage
        → (value : List ℕ → Option (List ℕ)) → ¬ GiveValues texts given value) }
{
    if !are_options_or_plain(names, words) {
        return Err(WordsFault::Usage);
    }
    let Ok(command) = options_command(alloc, names) else {
        return Err(WordsFault::Memory);
    };
    match command.try_get_matches_from(words) {
        Ok(matches) => Ok(matches),
        Err(error) => {
            if error.kind() == ErrorKind::OutOfMemory {
                Err(WordsFault::Memory)
            } else {
                Err(WordsFault::Usage)
            }
        }
    }
}

// The options with these names, each with a value and each at most once.
fn options_command<'a>(alloc: Global, names: &[&'a str]) -> Result<Command<'a>, AllocError>
    ensures { IfOk result (λ c. app_of c ≡ options_app (map (λ name. name.now) names.now)) }
{
    let mut command = Command::new(alloc, "options")
        .no_binary_name(true)
        .disable_help_flag(true);
    for name in names {
        let option = Arg::new(alloc, name).long(name).action(ArgAction::Set);
        command = command.arg(option)?;
    }
    Ok(command)
}
