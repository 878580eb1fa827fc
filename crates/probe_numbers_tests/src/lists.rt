//! Names with numbers from a list.
ghost use Rattle.std.specs.Prelude.{◌≡◌};
ghost use Rattle.probe_numbers_tests.specs.ListedNames.{listed_number};

use pepa_lexer::Token;
use probe_numbers::ProbeNames;
use probe_words::Words32;
use std::alloc::{AllocError, Global};
use token_grammar::Text;

/// What the names of a text denote: for each of its tokens 0, or one more than a number.
#[derive(Debug, Drop)]
pub struct ListedNames {
    pub actions: Words32,
    pub labels: Words32,
    pub constants: Words32,
}

fn listed(list: &Words32, at: usize) -> Option<u32>
    ensures { result ≡ listed_number list.now at }
{
    match sqlite_items::at(list.as_slice(), at) {
        None | Some(0) => None,
        Some(entry) => Some(*entry - 1),
    }
}

impl ProbeNames for ListedNames {
    ghost use Rattle.probe_numbers_tests.specs.ListedNames.{listed_number};

    ghost meanings = { λ names. record {
      action = listed_number names.actions;
      label = listed_number names.labels;
      constant = listed_number names.constants;
    } };

    fn action(&self, at: usize) -> Option<u32> {
        listed(&self.actions, at)
    }

    fn label(&self, at: usize) -> Option<u32> {
        listed(&self.labels, at)
    }

    fn constant(&self, at: usize) -> Option<u32> {
        listed(&self.constants, at)
    }
}

// The entry of a name among names with their numbers.
fn entry(name: &[u8], table: &[(&str, u32)]) -> u32 {
    for (known, number) in table {
        if known.as_bytes() == name {
            return number.saturating_add(1);
        }
    }
    0
}

/// The names of a text: the actions a, b, c and d are 1 to 4; the labels start, stop, l and a are 0 to 3; the constants P, Q, R, S and
/// U are 7, 3, 9, 0 and 1.
pub fn names_of(alloc: Global, tokens: &[Token], input: &[u8]) -> Result<ListedNames, AllocError> {
    let text = Text { tokens, input };
    let mut names = ListedNames {
        actions: Words32::new(alloc),
        labels: Words32::new(alloc),
        constants: Words32::new(alloc),
    };
    for at in 0..tokens.len() {
        let name = text.name(at);
        names
            .actions
            .push(entry(name, &[("a", 1), ("b", 2), ("c", 3), ("d", 4)]))?;
        names.labels.push(entry(name, &[("start", 0), ("stop", 1), ("l", 2), ("a", 3)]))?;
        names.constants.push(entry(name, &[("P", 7), ("Q", 3), ("R", 9), ("S", 0), ("U", 1)]))?;
    }
    Ok(names)
}
