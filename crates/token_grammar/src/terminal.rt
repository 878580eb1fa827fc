//! What a token is to a grammar.

ghost use Rattle.std.specs.Prelude.{◌≡◌, ◌≢◌, MatchBool};
ghost use Rattle.token_grammar.specs.Terminals.{text_of, terminal_of, small_terminal, capital_terminal};

use pepa_lexer::{Kind, Sign, Token};

/// What a token is to a grammar.
#[derive(Clone, Copy, Debug, PartialEq, Eq)]
pub enum Terminal {
    /// A name that begins with a small letter, other than `probe`, `tau` and `infty`.
    Small,
    /// The small name `probe`.
    Probe,
    /// `tau`
    Tau,
    /// A name that begins with a capital, other than `T`.
    Capital,
    /// `infty` or `T`
    Top,
    /// A number.
    Number,
    /// A sign.
    Mark(Sign),
    /// The end of the text.
    End,
}

/// The bytes of a token of this text.
pub fn bytes_of<'i>(input: &'i [u8], token: &Token) -> &'i [u8]
    ensures { result.now ≡ text_of input.now token.now }
{
    let (_, rest) = input.split_at(token.from.min(input.len()));
    let (bytes, _) = rest.split_at(token.to.saturating_sub(token.from).min(rest.len()));
    bytes
}

/// What a name is that begins with a small letter.
fn small_terminal(name: &[u8]) -> Terminal
    ensures { result ≡ small_terminal name.now }
{
    if name == b"infty".as_slice() {
        return Terminal::Top;
    }
    if name == b"tau".as_slice() {
        return Terminal::Tau;
    }
    if name == b"probe".as_slice() {
        return Terminal::Probe;
    }
    Terminal::Small
}

/// What a name is that begins with a capital.
fn capital_terminal(name: &[u8]) -> Terminal
    ensures { result ≡ capital_terminal name.now }
{
    if name == b"T".as_slice() {
        Terminal::Top
    } else {
        Terminal::Capital
    }
}

/// What a token of a text is to a grammar.
pub(crate) fn terminal_of(input: &[u8], token: &Token) -> Terminal
    ensures { result ≡ terminal_of input.now token.now }
{
    let bytes = bytes_of(input, token);
    match token.kind {
        Kind::Small => small_terminal(bytes),
        Kind::Capital => capital_terminal(bytes),
        Kind::Number { .. } => Terminal::Number,
        Kind::Sign(sign) => Terminal::Mark(sign),
        Kind::End => Terminal::End,
    }
}

/// Whether two signs are the same.
fn is_same_sign(left: Sign, right: Sign) -> bool
    ensures { MatchBool result (left ≡ right) (left ≢ right) }
{
    left == right
}

/// Whether two terminals are the same.
pub(crate) fn is_same(left: Terminal, right: Terminal) -> bool
    ensures { MatchBool result (left ≡ right) (left ≢ right) }
{
    match (left, right) {
        (Terminal::Mark(left), Terminal::Mark(right)) => is_same_sign(left, right),
        (Terminal::Small, Terminal::Small)
        | (Terminal::Probe, Terminal::Probe)
        | (Terminal::Tau, Terminal::Tau)
        | (Terminal::Capital, Terminal::Capital)
        | (Terminal::Top, Terminal::Top)
        | (Terminal::Number, Terminal::Number)
        | (Terminal::End, Terminal::End) => true,
        _ => false,
    }
}
