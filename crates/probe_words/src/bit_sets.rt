//! Sets of numbers below 64, as whole numbers: bit i is 1 where i is in the set.
ghost use Rattle.std.specs.Prelude.{◌≡◌, ◌==◌, ◌^◌, ◌<◌, ◌↔◌, ℕ, bit_or};
ghost use Rattle.std.specs.Int.{bit_at};
ghost use Rattle.probe_words.specs.MarkedLetters.{IsAmong};
ghost use Rattle.probe_words.specs.Sets.{HasMember};

use sqlite_items::Items;

/// Whether the number is in the set.
pub fn has(set: u64, at: usize) -> bool
    requires { at < 64 }
    ensures { result ≡ (bit_at set at == 1) }
{
    (set >> at) & 1 == 1
}

/// The set with the number.
pub fn with(set: u64, at: usize) -> u64
    requires { at < 64 }
    ensures { result ≡ bit_or set (2 ^ at) }
{
    set | (1u64 << at)
}

/// The set of these numbers.
pub(crate) fn set_of(numbers: &Items<usize>) -> u64
    requires { (j : ℕ) → IsAmong j numbers.now → j < 64 }
    ensures { (j : ℕ) → HasMember result j ↔ IsAmong j numbers.now }
{
    let mut set = 0u64;
    for number in numbers.as_slice() {
        set = with(set, *number);
    }
    set
}
