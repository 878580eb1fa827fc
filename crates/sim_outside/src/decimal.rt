//! The text of a number.
ghost use Rattle.std.specs.Prelude.{◌≡◌, ◌++◌, decimal, OnOk, OnErr};

use std::alloc::{AllocError, Global};

/// Appends the decimal digits of `value`, with no zeros in front; `0` for zero.
pub fn push_decimal(alloc: Global, to: &mut Vec<u8>, value: u128) -> Result<(), AllocError>
    ensures ok { OnOk result (to.new.items ≡ to.old.items ++ decimal value) }
    ensures err { OnErr result (to.new.items ≡ to.old.items) }
{
    let text = format!(in alloc; "{value}")?;
    to.extend_from_slice(text.as_bytes())
}
