//! The text of systems as a model's constants stand for them.
ghost use Rattle.std.specs.Prelude.{◌≡◌, ◌++◌, OnOk, OnErr};
ghost use Rattle.std.specs.Io.{StartsWith};
ghost use Rattle.pepa_model.specs.Expression.{shape_of};
ghost use Rattle.pepa_model.specs.PepaModel.{PepaModel, IsShapeOf};
ghost use Rattle.pepa_text.specs.SystemText as spec;
ghost use Rattle.pepa_text.specs.SystemText.{written_shape, shape_text_of};

use crate::components::{is_composed, push_expression};
use crate::names::push_constant;
use crate::sets::{push_hiding, push_spaced_sign};
use crate::text::push_bracket;
use pepa_model::{Model, Shape2};
use std::alloc::{AllocError, Global};

/// Appends a system, with a cooperation in brackets after the sign of another, and what is hidden in brackets if it is
/// neither a constant nor a hiding.
pub fn push_shape(
    alloc: Global,
    to: &mut Vec<u8>,
    model: &Model,
    shape: &Shape2,
) -> Result<(), AllocError>
    requires { IsShapeOf model.now (shape_of shape.now) }
    ensures text { OnOk result (to.new.items ≡ to.old.items ++ shape_text_of model.now shape.now) }
    ensures kept { OnErr result (StartsWith to.new.items to.old.items) }
{
    model.recall_invariant();
    match shape {
        Shape2::Leaf(component) => push_expression(alloc, to, model, component),
        Shape2::Constant(constant) => push_constant(to, model, *constant),
        Shape2::Coop(left, right, set) => {
            push_shape(alloc, to, model, left)?;
            push_spaced_sign(to, model, *set)?;
            let brackets = is_cooperation(right);
            push_bracket(to, brackets, b"(")?;
            push_shape(alloc, to, model, right)?;
            push_bracket(to, brackets, b")")
        }
        Shape2::Hide(inner, set) => {
            let brackets = is_bracketed(inner);
            push_bracket(to, brackets, b"(")?;
            push_shape(alloc, to, model, inner)?;
            push_bracket(to, brackets, b")")?;
            push_hiding(to, model, *set)
        }
    }
}

/// Whether a system is a cooperation.
fn is_cooperation(shape: &Shape2) -> bool
    ensures { (m : PepaModel) → result ≡ spec.is_cooperation (written_shape m (shape_of shape.now)) }
{
    matches!(shape, Shape2::Coop(..))
}

/// Whether a system has brackets before `/`.
fn is_bracketed(shape: &Shape2) -> bool
    ensures { (m : PepaModel) → result ≡ spec.is_bracketed (written_shape m (shape_of shape.now)) }
{
    match shape {
        Shape2::Leaf(component) => is_composed(component),
        Shape2::Coop(..) => true,
        Shape2::Constant(_) | Shape2::Hide(..) => false,
    }
}
