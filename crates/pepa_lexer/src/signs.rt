//! Signs in front of a text.

ghost use Rattle.std.specs.Prelude.{◌≡◌, ◌==◌, false, ◌∷◌, [], IfSome};
ghost use Rattle.pepa_lexer.specs.Bytes.{begins};
ghost use Rattle.pepa_lexer.specs.Signs.{sign_bytes, sign_of_byte, sign_of_pair, FindsPair, FindsLongestSign};

use crate::kinds::Sign;

/// The sign of two bytes, if they are one.
fn sign_of_pair(first: u8, second: u8) -> Option<Sign>
    ensures value { result ≡ sign_of_pair first second }
    ensures bytes { IfSome result (λ sign. sign_bytes sign ≡ first ∷ second ∷ []) }
{
    match (first, second) {
        (b'&', b'&') => Some(Sign::And),
        (b'|', b'|') => Some(Sign::Or),
        (b':', b':') => Some(Sign::DoubleColon),
        (b'<', b'=') => Some(Sign::LessOrEqual),
        (b'>', b'=') => Some(Sign::GreaterOrEqual),
        (b'=', b'=') => Some(Sign::EqualTo),
        (b'!', b'=') => Some(Sign::NotEqualTo),
        _ => None,
    }
}

/// The sign of one byte, if it is one.
fn sign_of_byte(byte: u8) -> Option<Sign>
    ensures value { result ≡ sign_of_byte byte }
    ensures bytes { IfSome result (λ sign. sign_bytes sign ≡ byte ∷ []) }
{
    match byte {
        b'=' => Some(Sign::Equals),
        b';' => Some(Sign::Semicolon),
        b'(' => Some(Sign::Opening),
        b')' => Some(Sign::Closing),
        b',' => Some(Sign::Comma),
        b'.' => Some(Sign::Dot),
        b'+' => Some(Sign::Plus),
        b'-' => Some(Sign::Minus),
        b'*' => Some(Sign::Star),
        b'/' => Some(Sign::Slash),
        b'<' => Some(Sign::Less),
        b'>' => Some(Sign::Greater),
        b'!' => Some(Sign::Not),
        b'|' => Some(Sign::Bar),
        b'{' => Some(Sign::OpeningBrace),
        b'}' => Some(Sign::ClosingBrace),
        b'[' => Some(Sign::OpeningBracket),
        b']' => Some(Sign::ClosingBracket),
        b':' => Some(Sign::Colon),
        b'?' => Some(Sign::Question),
        _ => None,
    }
}

/// The sign of the first two bytes, if they are one.
fn pair_in_front(text: &[u8]) -> Option<Sign>
    ensures { FindsPair text.now result }
{
    match text {
        [first, second, ..] => sign_of_pair(*first, *second),
        _ => None,
    }
}

/// The longest sign in front of a text that begins with no `/`, and its length.
pub(crate) fn sign_in_front(text: &[u8]) -> Option<(Sign, usize)>
    requires { begins (λ byte. byte == 47) text.now ≡ false }
    ensures { FindsLongestSign text.now result }
{
    if let Some(sign) = pair_in_front(text) {
        return Some((sign, 2));
    }
    let sign = sign_of_byte(*text.first()?)?;
    Some((sign, 1))
}
