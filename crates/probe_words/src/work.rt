//! What is kept while positions are laid.
use crate::guard::Guards;
use crate::letter::Letter;
use sqlite_items::Items;

/// A position's letter and guards.
#[derive(Debug, Drop)]
pub struct Placed {
    pub letter: Letter,
    pub guards: Guards,
}

/// The positions laid so far: of each its letter and guards, its labels, and the positions that follow it.
#[derive(Debug, Drop)]
pub struct Work {
    pub places: Items<Placed>,
    pub labels: Items<u64>,
    pub follow: Items<u64>,
}

/// What is known of a part: its first positions in order, its last ones, and whether it has the empty word.
#[derive(Debug, Drop)]
pub struct Part {
    pub first: Items<usize>,
    pub last: u64,
    pub empty: bool,
}
