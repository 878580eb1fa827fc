//! What a system does, as lists without targets, and where each entry comes from.
ghost use Rattle.std.specs.Prelude.{◌≡◌, []};

use pepa_rates::Rate;
use std::alloc::Global;

/// A transition without its target: its action type's number, its signals (bit l for label l), and its rate.
#[derive(Clone, Copy, Debug)]
pub struct Entry {
    pub action: u32,
    pub signals: u64,
    pub rate: Rate,
}

/// Where an entry of a cooperation comes from: an entry of its left side, of its right side, or of both, by their places.
#[derive(Clone, Copy, Debug)]
pub enum Origin {
    Left(u32),
    Right(u32),
    Both(u32, u32),
}

/// Entries, and at the same places where they come from.
#[derive(Debug, Drop)]
pub struct Derived {
    pub entries: Vec<Entry>,
    pub origins: Vec<Origin>,
}

impl Derived {
    /// No entries.
    pub fn new(alloc: Global) -> Derived
        ensures entries { result.entries.items ≡ [] }
        ensures origins { result.origins.items ≡ [] }
    {
        Derived {
            entries: Vec::new(alloc),
            origins: Vec::new(alloc),
        }
    }
}
