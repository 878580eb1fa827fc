//! Whole numbers among tokens.
ghost use Rattle.std.specs.Prelude.{◌≡◌, ◌≤◌, ◌*◌, ◌^◌, ℕ, MatchOption};
ghost use Rattle.probe_numbers.specs.WholeNumbers.{IsWholeAt, IsCountAt, whole_at};

use pepa_lexer::{Kind, Token};

/// The greatest number of a repeat.
pub(crate) const REPEAT_LIMIT: u32 = 63;

/// The greatest number of a guard.
pub(crate) const GUARD_LIMIT: u32 = 65_535;

/// The whole number that is these digits over 10 to the power of the scale, if it is one.
fn whole(digits: u128, scale: u32) -> Option<u128>
    ensures { MatchOption result (¬ ((n : ℕ) × (digits ≡ n * 10 ^ scale)))
        (λ n. digits ≡ n * 10 ^ scale) }
{
    if digits == 0 {
        return Some(0);
    }
    let mut value = digits;
    for _place in 0..scale {
        if value % 10 != 0 {
            return None;
        }
        value /= 10;
    }
    Some(value)
}

/// The number of the token at the index, if it is whole and at most the limit.
pub(crate) fn count_at(tokens: &[Token], at: usize, limit: u32) -> Option<u32>
    ensures { MatchOption result (¬ IsCountAt tokens.now limit at)
        (λ n. IsWholeAt tokens.now at n × (n ≤ limit)) }
{
    let token = sqlite_items::at(tokens, at)?;
    let Kind::Number { digits, scale } = token.kind else {
        return None;
    };
    let value = whole(digits, scale)?;
    if value > u128::from(limit) {
        return None;
    }
    Some(value as u32)
}

/// The number of the token at the index, which is whole and at most the limit.
pub(crate) fn count(tokens: &[Token], at: usize, limit: u32) -> u32
    requires { IsCountAt tokens.now limit at }
    ensures { result ≡ whole_at tokens.now at }
{
    count_at(tokens, at, limit).unwrap_or(0)
}
