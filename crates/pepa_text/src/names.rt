//! The names of action types and constants.
ghost use Rattle.std.specs.Prelude.{◌≡◌, ◌++◌, ◌<◌, OnOk, OnErr, length};
ghost use Rattle.std.specs.Io.{StartsWith};
ghost use Rattle.pepa_text.specs.ComponentText.{name_of};

use crate::text::push_text;
use pepa_model::Model;
use std::alloc::AllocError;

/// Appends the name of an action type.
pub fn push_action(to: &mut Vec<u8>, model: &Model, action: u32) -> Result<(), AllocError>
    requires { action < length model.now.actions }
    ensures text { OnOk result (to.new.items ≡ to.old.items ++ name_of model.now.actions action) }
    ensures kept { OnErr result (StartsWith to.new.items to.old.items) }
{
    push_text(to, model.action_name(action).as_bytes())
}

/// Appends the name of a constant.
pub fn push_constant(to: &mut Vec<u8>, model: &Model, constant: u32) -> Result<(), AllocError>
    requires { constant < length model.now.constants }
    ensures text { OnOk result (to.new.items ≡ to.old.items ++ name_of model.now.constants constant) }
    ensures kept { OnErr result (StartsWith to.new.items to.old.items) }
{
    push_text(to, model.constant_name(constant).as_bytes())
}
