//! Tokens and their kinds, places, and why a text has no tokens.

ghost use Rattle.std.specs.Prelude.{◌≡◌};

use sqlite_items::Items;
use std::alloc::AllocError;

/// Where a byte stands: its line, and how many bytes of the line stand up to it. Both begin at 1.
#[derive(Clone, Copy, Debug, PartialEq, Eq)]
pub struct Place {
    pub line: u32,
    pub column: u32,
}

/// What a token is.
#[derive(Clone, Copy, Debug, PartialEq, Eq)]
pub enum Kind {
    /// A name that begins with a small letter.
    Small,
    /// A name that begins with a capital.
    Capital,
    /// A number: the value of its digits without the point, and how many of them stand behind the point.
    Number { digits: u128, scale: u32 },
    /// A sign.
    Sign(Sign),
    /// The end of the text.
    End,
}

/// The signs.
#[derive(Clone, Copy, Debug, PartialEq, Eq)]
pub enum Sign {
    /// `=`
    Equals,
    /// `;`
    Semicolon,
    /// `(`
    Opening,
    /// `)`
    Closing,
    /// `,`
    Comma,
    /// `.`
    Dot,
    /// `+`
    Plus,
    /// `-`
    Minus,
    /// `*`
    Star,
    /// `/`
    Slash,
    /// `<`
    Less,
    /// `>`
    Greater,
    /// `<=`
    LessOrEqual,
    /// `>=`
    GreaterOrEqual,
    /// `==`
    EqualTo,
    /// `!=`
    NotEqualTo,
    /// `!`
    Not,
    /// `&&`
    And,
    /// `||`
    Or,
    /// `|`
    Bar,
    /// `{`
    OpeningBrace,
    /// `}`
    ClosingBrace,
    /// `[`
    OpeningBracket,
    /// `]`
    ClosingBracket,
    /// `:`
    Colon,
    /// `::`
    DoubleColon,
    /// `?`
    Question,
}

/// A token: its kind, the place of its first byte, and its bytes `from..to` of the text.
#[derive(Clone, Copy, Debug, PartialEq, Eq)]
pub struct Token {
    pub kind: Kind,
    pub place: Place,
    pub from: usize,
    pub to: usize,
}

/// The tokens of a text, in order; the last is its end.
pub type Tokens = Items<Token>;

/// Why a text has no tokens, and the place of the first byte that belongs to none.
#[derive(Clone, Copy, Debug, PartialEq, Eq)]
pub enum LexFault {
    /// A byte that begins no token, and is no white space.
    BadByte(Place),
    /// A number with more than 30 digits, with no digit behind its point, or with a letter or `_` at once behind it.
    BadNumber(Place),
    /// A name of more than 64 bytes.
    LongName(Place),
    /// A `/*` with no `*/` behind it.
    OpenComment(Place),
    /// Memory ran out.
    Memory,
}

impl From<AllocError> for LexFault {
    ghost use Rattle.pepa_lexer.specs.declared.kinds.LexFault.TheVariants.{Memory};

    ghost from_gives = { λ _ fault. fault ≡ Memory };

    fn from(_error: AllocError) -> LexFault {
        LexFault::Memory
    }
}
