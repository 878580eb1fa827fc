//! How large a table is.
ghost use Rattle.std.specs.Prelude.{IsTrue, ◌↔◌};
ghost use Rattle.intern_core.specs.Kept.{IsShape};

/// The counts of a table: nodes from 1 to 4,194,304, at most 20 bits that number the buckets, at most 16,777,216 entries of
/// lists, and from 1 to 65 passes.
#[derive(Clone, Copy, Debug)]
pub struct Shape {
    pub nodes: u32,
    pub bucket_bits: u32,
    pub entries: u32,
    pub passes: u32,
}

impl Shape {
    /// Whether its counts are in their ranges.
    pub fn is_in_range(&self) -> bool
        ensures { IsTrue result ↔ IsShape self.now }
    {
        self.nodes > 0
            && self.nodes <= 4_194_304
            && self.bucket_bits <= 20
            && self.entries <= 16_777_216
            && self.passes > 0
            && self.passes <= 65
    }
}
