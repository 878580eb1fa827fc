//! What weights are, and why there are none.

use sqlite_items::Items;
use thiserror::Error;

/// Whole numbers, which contracts see as their list.
pub type Words64 = Items<u64>;

/// Fractions as whole numbers over one denominator.
#[derive(Debug, Drop)]
pub struct Weights {
    /// Each fraction times `den`.
    pub each: Words64,
    /// The sum of these.
    pub whole: u64,
    /// The least common multiple of the fractions' denominators.
    pub den: u64,
}

/// What the weights of some fractions are together.
#[derive(Clone, Copy, Debug, PartialEq, Eq)]
pub struct Scale {
    /// The sum of the weights.
    pub whole: u64,
    /// The least common multiple of the fractions' denominators.
    pub den: u64,
}

/// Why there are no weights.
#[derive(Clone, Copy, Debug, PartialEq, Eq, Error)]
pub enum WeightFault {
    /// The denominator or the sum is 2^62 or more.
    #[error("the weights are out of range")]
    Overflow,
    /// There was no memory for the weights.
    #[error("out of memory")]
    Memory,
}
