//! Why there is no table.
use std::alloc::AllocError;
use thiserror::Error;

/// Why some positions have no table.
#[derive(Clone, Copy, Debug, PartialEq, Eq, Error)]
pub enum BuildFault {
    /// There are more than 4 distinct guards.
    #[error("too many guards")]
    TooManyGuards,
    /// More than 1,024 sets of positions are reached.
    #[error("too many states")]
    TooManyStates,
    /// There was no memory for the table.
    #[error("out of memory")]
    Memory,
}

impl From<AllocError> for BuildFault {
    ghost use Rattle.std.specs.Prelude.{◌≡◌};
    ghost use Rattle.probe_automata.specs.declared.build_fault.BuildFault.TheVariants.{Memory};

    ghost from_gives = { λ _ end. end ≡ Memory };

    fn from(_error: AllocError) -> BuildFault {
        BuildFault::Memory
    }
}
