//! Bytes and brackets.
ghost use Rattle.std.specs.Prelude.{◌≡◌, ◌++◌, OnOk, OnErr, [], if◌then◌else◌};
ghost use Rattle.std.specs.Io.{StartsWith};

use std::alloc::AllocError;

/// Appends these bytes.
pub fn push_text(to: &mut Vec<u8>, text: &[u8]) -> Result<(), AllocError>
    ensures text { OnOk result (to.new.items ≡ to.old.items ++ text.now) }
    ensures kept { OnErr result (StartsWith to.new.items to.old.items) }
{
    to.extend_from_slice(text)
}

/// Appends a bracket where there is to be one.
pub fn push_bracket(to: &mut Vec<u8>, is_there: bool, bracket: &[u8]) -> Result<(), AllocError>
    ensures text { OnOk result (to.new.items ≡ to.old.items ++ (if is_there then bracket.now else [])) }
    ensures kept { OnErr result (StartsWith to.new.items to.old.items) }
{
    if is_there {
        push_text(to, bracket)?;
    }
    Ok(())
}
