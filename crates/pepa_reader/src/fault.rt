//! Why tokens are refused as a file.

ghost use Rattle.std.specs.Prelude.{◌≡◌};

use pepa_lexer::Place;
use std::alloc::AllocError;

/// Why tokens are refused as a file, and the place of the token at which they are.
#[derive(Clone, Copy, Debug, PartialEq, Eq)]
pub enum FileFault {
    /// A token that can't follow what stands before it.
    Expected(Place),
    /// The 2,049th token of an item.
    TooDeep(Place),
    /// A `[` that can't follow.
    Array(Place),
    /// A `*` that stands at once behind a `<`, and can't follow.
    Wildcard(Place),
    /// Memory ran out.
    Memory,
}

impl From<AllocError> for FileFault {
    ghost use Rattle.pepa_reader.specs.declared.fault.FileFault.TheVariants.{Memory};

    ghost from_gives = { λ _ fault. fault ≡ Memory };

    fn from(_error: AllocError) -> FileFault {
        FileFault::Memory
    }
}
