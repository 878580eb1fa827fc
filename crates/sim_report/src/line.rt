//! A line of fixed room.
ghost use Rattle.std.specs.Prelude.{◌≡◌, ◌+◌, ◌<◌, ◌≤◌, [], ◌∷◌, ◌++◌, length, decimal};

use std::marker::Model;

/// A line of at most 128 bytes, which needs no memory of its own. Contracts see it as the list of its bytes.
#[derive(Debug, Drop)]
pub struct Line {
    /// The line's bytes, and any bytes after them.
    pub bytes: [u8; 128],
    /// How many bytes the line has.
    pub len: usize,
}

impl Model for Line {
    ghost use Rattle.std.specs.Prelude.{ℕ, List, ◌≤◌, take};

    ghost Value = { List ℕ };

    ghost view = { λ line. take line.len line.bytes };

    ghost invariant = { λ line. line.len ≤ 128 };
}

impl Line {
    /// No bytes at all, and no line feed.
    pub fn empty() -> Line
        ensures { result ≡ [] }
    {
        Line {
            bytes: [0; 128],
            len: 0,
        }
    }

    /// The line's bytes.
    pub fn as_slice(&self) -> &[u8]
        ensures { result.now ≡ self.now }
    {
        &self.bytes[..self.len]
    }

    /// Appends a byte.
    pub(crate) fn push(&mut self, byte: u8)
        requires { length self.old + 1 ≤ 128 }
        ensures { self.new ≡ self.old ++ byte ∷ [] }
    {
        self.bytes[self.len] = byte;
        self.len += 1;
    }

    /// Appends a text.
    pub(crate) fn push_text(&mut self, text: &[u8])
        requires { length self.old + length text.now ≤ 128 }
        ensures { self.new ≡ self.old ++ text.now }
    {
        for byte in text {
            self.push(*byte);
        }
    }

    /// Appends the decimal digits of a number, at most 20.
    pub(crate) fn push_decimal(&mut self, value: u64)
        requires { length self.old + 20 ≤ 128 }
        ensures digits { self.new ≡ self.old ++ decimal value }
        ensures few { length self.new ≤ length self.old + 20 }
    {
        self.push_digits(value);
    }

    fn push_digits(&mut self, value: u64)
        requires { length self.old + length (decimal value) ≤ 128 }
        ensures { self.new ≡ self.old ++ decimal value }
    {
        if value >= 10 {
            self.push_digits(value / 10);
        }
        self.push(b'0' + (value % 10) as u8);
    }
}
