//! The end of a function that answers no value.
ghost use Rattle.std.specs.Prelude.{◌≡◌};

use std::alloc::AllocError;

/// Why a function answers no value. It is for private functions: a public one names its faults in an enum of its own.
#[derive(Clone, Copy, Debug, PartialEq, Eq)]
pub enum End<F> {
    /// There is this fault.
    Fault(F),
    /// Memory ran out.
    Memory,
}

impl<F> From<AllocError> for End<F> {
    ghost use Rattle.fault_ends.specs.declared.end.End.TheVariants.{Memory};

    ghost from_gives = { λ _ end. end ≡ Memory };

    fn from(_error: AllocError) -> End<F> {
        End::Memory
    }
}
