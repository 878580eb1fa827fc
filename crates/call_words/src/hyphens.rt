//! The test of each word before `clap` reads the words: what begins with `-` has to be an option.
ghost use Rattle.std.specs.Prelude.{◌≡◌, ◌↔◌, IsTrue, map, string_bytes};
ghost use Rattle.call_words.specs.HyphenTest.{AreOptionsOrPlain, is_option_or_plain};
ghost use Rattle.call_words.specs.HyphenTest.{spells_name, spells_one};

// Whether each word that begins with `-` is an option with one of the names, spelled in full, alone or
// with `=` and a value.
pub(crate) fn are_options_or_plain(names: &[&str], words: &[String]) -> bool
    ensures { IsTrue result
        ↔ AreOptionsOrPlain (map (λ name. name.now) names.now) (map string_bytes words.now) }
{
    for word in words {
        if !is_option_or_plain(names, word.as_bytes()) {
            return false;
        }
    }
    true
}

fn is_option_or_plain(names: &[&str], word: &[u8]) -> bool
    ensures { result ≡ is_option_or_plain (map (λ name. name.now) names.now) word.now }
{
    match word {
        [b'-', b'-', spelled @ ..] => spells_one(names, spelled),
        [b'-', ..] => false,
        _ => true,
    }
}

fn spells_one(names: &[&str], word: &[u8]) -> bool
    ensures { result ≡ spells_one (map (λ name. name.now) names.now) word.now }
{
    match names {
        [] => false,
        [name, more @ ..] => spells(name.as_bytes(), word) || spells_one(more, word),
    }
}

// Whether the bytes are this name, alone or followed by `=`.
fn spells(name: &[u8], word: &[u8]) -> bool
    ensures { result ≡ spells_name name.now word.now }
{
    match name {
        [] => matches!(word, [] | [b'=', ..]),
        [first, name @ ..] => match word {
            [] => false,
            [byte, word @ ..] => byte == first && spells(name, word),
        },
    }
}
