//! The text of sets, and the signs of cooperations and hidings.
ghost use Rattle.std.specs.Prelude.{◌≡◌, ◌++◌, ◌<◌, OnOk, OnErr, length};
ghost use Rattle.std.specs.Io.{StartsWith};
ghost use Rattle.std.specs.List.{All};
ghost use Rattle.pepa_text.specs.SetText.{set_of, set_text, sign_text_of, spaced_sign_of, hiding_text_of};

use crate::names::push_action;
use crate::text::push_text;
use pepa_model::Model;
use std::alloc::AllocError;

/// Appends the sign of a cooperation: `||`, or `<a,b>`.
pub fn push_sign(to: &mut Vec<u8>, model: &Model, number: u32) -> Result<(), AllocError>
    requires { number < length model.now.sets }
    ensures text { OnOk result (to.new.items ≡ to.old.items ++ sign_text_of model.now number) }
    ensures kept { OnErr result (StartsWith to.new.items to.old.items) }
{
    let set = types_of(model, number);
    if set.is_empty() {
        return push_text(to, b"||");
    }
    push_text(to, b"<")?;
    push_set(to, model, set)?;
    push_text(to, b">")
}

/// Appends the sign of a cooperation between two spaces.
pub(crate) fn push_spaced_sign(
    to: &mut Vec<u8>,
    model: &Model,
    number: u32,
) -> Result<(), AllocError>
    requires { number < length model.now.sets }
    ensures text { OnOk result (to.new.items ≡ to.old.items ++ spaced_sign_of model.now number) }
    ensures kept { OnErr result (StartsWith to.new.items to.old.items) }
{
    push_text(to, b" ")?;
    push_sign(to, model, number)?;
    push_text(to, b" ")
}

/// Appends `/{a,b}`.
pub fn push_hiding(to: &mut Vec<u8>, model: &Model, number: u32) -> Result<(), AllocError>
    requires { number < length model.now.sets }
    ensures text { OnOk result (to.new.items ≡ to.old.items ++ hiding_text_of model.now number) }
    ensures kept { OnErr result (StartsWith to.new.items to.old.items) }
{
    push_text(to, b"/{")?;
    push_set(to, model, types_of(model, number))?;
    push_text(to, b"}")
}

/// Appends the names of action types, with commas between.
fn push_set(to: &mut Vec<u8>, model: &Model, set: &[u32]) -> Result<(), AllocError>
    requires { All (λ a. a < length model.now.actions) set.now }
    ensures text { OnOk result (to.new.items ≡ to.old.items ++ set_text model.now set.now) }
    ensures kept { OnErr result (StartsWith to.new.items to.old.items) }
{
    let Some((first, others)) = set.split_first() else {
        return Ok(());
    };
    push_action(to, model, *first)?;
    for action in others {
        push_text(to, b",")?;
        push_action(to, model, *action)?;
    }
    Ok(())
}

/// The action types of a set, in the order of their numbers.
fn types_of(model: &Model, number: u32) -> &[u32]
    requires { number < length model.now.sets }
    ensures set { result.now ≡ set_of model.now number }
    ensures actions { All (λ a. a < length model.now.actions) result.now }
{
    model.set(number)
}
