//! Why a file has no numbers in place of its names.
ghost use Rattle.std.specs.Prelude.{◌≡◌};

use std::alloc::AllocError;

/// Why the names, sets and rates of a file can't be resolved.
#[derive(Clone, Copy, Debug, PartialEq, Eq)]
pub enum ResolveCause {
    /// There are too many rate lines, or too many process lines.
    TooManyLines,
    /// A name has two lines.
    Twice,
    /// A name has no line.
    UnknownName,
    /// A set has `tau`.
    TauInSet,
    /// A rate has no value in range.
    BadRate,
}

/// Why a file was not resolved.
#[derive(Clone, Copy, Debug, PartialEq, Eq)]
pub enum ResolveEnd {
    /// The file is refused, for this cause, at the token of this index.
    Refused { cause: ResolveCause, at: usize },
    /// Memory ran out.
    Memory,
}

impl From<AllocError> for ResolveEnd {
    ghost use Rattle.pepa_resolver.specs.declared.refusal.ResolveEnd.TheVariants.{Memory};

    ghost from_gives = { λ _ end. end ≡ Memory };

    fn from(_error: AllocError) -> ResolveEnd {
        ResolveEnd::Memory
    }
}
