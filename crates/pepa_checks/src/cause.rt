//! Why a file has no model.
ghost use Rattle.std.specs.Prelude.{◌≡◌};
ghost use Rattle.pepa_checks.specs.StructuredFiles.{told_cause_of};

use pepa_lexer::Place;
use pepa_resolver::ResolveCause;
use std::alloc::AllocError;

/// Why a file has no model.
#[derive(Clone, Copy, Debug, PartialEq, Eq)]
pub enum CheckCause {
    /// A probe line, which isn't supported yet.
    Unsupported,
    /// A name has two lines.
    Twice,
    /// A name has no line.
    UnknownName,
    /// A set has `tau`.
    TauInSet,
    /// A rate has no value in range.
    BadRate,
    /// What has to be sequential has a cooperation or a hiding.
    NotSequential,
    /// A compound constant reaches itself.
    ModelCycle,
    /// A sequential constant reaches itself with no activity between.
    Unguarded,
    /// A limit is passed.
    TooMany,
    /// A leaf has an active and a passive activity of one type.
    MixedChoice,
}

/// Why a check ended without what it checks for.
#[derive(Clone, Copy, Debug, PartialEq, Eq)]
pub enum CheckEnd {
    /// The file is refused, for this cause, at this place.
    Refused { cause: CheckCause, place: Place },
    /// Memory ran out.
    Memory,
}

impl From<AllocError> for CheckEnd {
    ghost use Rattle.pepa_checks.specs.declared.cause.CheckEnd.TheVariants.{Memory};

    ghost from_gives = { λ _ end. end ≡ Memory };

    fn from(_error: AllocError) -> CheckEnd {
        CheckEnd::Memory
    }
}

/// A refused file: why, and the index of the token where.
#[derive(Clone, Copy, Debug)]
pub(crate) struct Refusal {
    pub(crate) cause: CheckCause,
    pub(crate) at: usize,
}

/// The cause that is told for one of names, sets and rates.
pub(crate) fn told_cause(cause: ResolveCause) -> CheckCause
    ensures { result ≡ told_cause_of cause }
{
    match cause {
        ResolveCause::TooManyLines => CheckCause::TooMany,
        ResolveCause::Twice => CheckCause::Twice,
        ResolveCause::UnknownName => CheckCause::UnknownName,
        ResolveCause::TauInSet => CheckCause::TauInSet,
        ResolveCause::BadRate => CheckCause::BadRate,
    }
}
