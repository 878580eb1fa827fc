//! Why tokens are refused as a probe expression.

ghost use Rattle.std.specs.Prelude.{◌≡◌};

use std::alloc::AllocError;

/// Why tokens are refused as a probe expression.
#[derive(Clone, Copy, Debug, PartialEq, Eq)]
pub enum ProbeTextFault {
    /// The token at this index can't follow what is before it, or there is none.
    Expected(usize),
    /// Memory ran out.
    Memory,
}

impl From<AllocError> for ProbeTextFault {
    ghost use Rattle.probe_reader.specs.declared.fault.ProbeTextFault.TheVariants.{Memory};

    ghost from_gives = { λ _ fault. fault ≡ Memory };

    fn from(_error: AllocError) -> ProbeTextFault {
        ProbeTextFault::Memory
    }
}
