//! The text of sequential components.
ghost use Rattle.std.specs.Prelude.{◌≡◌, ◌++◌, ◌<◌, OnOk, OnErr, length};
ghost use Rattle.std.specs.Io.{StartsWith};
ghost use Rattle.pepa_model.specs.Expression.{expression_of};
ghost use Rattle.pepa_model.specs.PepaModel.{IsNamed};
ghost use Rattle.pepa_text.specs.ComponentText as spec;
ghost use Rattle.pepa_text.specs.ComponentText.{component_text, prefix_text};

use crate::names::{push_action, push_constant};
use crate::rates::push_rate;
use crate::text::{push_bracket, push_text};
use pepa_model::{Model, Sequential};
use pepa_rates::Rate;
use std::alloc::{AllocError, Global};

/// Appends a component, with a choice in brackets after `.` and after `+`.
pub fn push_expression(
    alloc: Global,
    to: &mut Vec<u8>,
    model: &Model,
    expression: &Sequential,
) -> Result<(), AllocError>
    requires { IsNamed model.now (expression_of expression.now) }
    ensures text { OnOk result (to.new.items ≡ to.old.items ++ component_text model.now expression.now) }
    ensures kept { OnErr result (StartsWith to.new.items to.old.items) }
{
    match expression {
        Sequential::Constant(constant) => push_constant(to, model, *constant),
        Sequential::Prefix(action, rate, next) => {
            push_prefix(alloc, to, model, *action, rate)?;
            let brackets = is_choice(next);
            push_bracket(to, brackets, b"(")?;
            push_expression(alloc, to, model, next)?;
            push_bracket(to, brackets, b")")
        }
        Sequential::Choice(left, right) => {
            push_expression(alloc, to, model, left)?;
            push_text(to, b" + ")?;
            let brackets = is_choice(right);
            push_bracket(to, brackets, b"(")?;
            push_expression(alloc, to, model, right)?;
            push_bracket(to, brackets, b")")
        }
    }
}

/// Whether a component is a choice.
fn is_choice(expression: &Sequential) -> bool
    ensures { result ≡ spec.is_choice (expression_of expression.now) }
{
    matches!(expression, Sequential::Choice(..))
}

/// Whether a component is no constant.
pub(crate) fn is_composed(expression: &Sequential) -> bool
    ensures { result ≡ spec.is_composed (expression_of expression.now) }
{
    !matches!(expression, Sequential::Constant(_))
}

/// Appends `(a, r).`
fn push_prefix(
    alloc: Global,
    to: &mut Vec<u8>,
    model: &Model,
    action: u32,
    rate: &Rate,
) -> Result<(), AllocError>
    requires { action < length model.now.actions }
    ensures text { OnOk result (to.new.items ≡ to.old.items ++ prefix_text model.now action rate.now) }
    ensures kept { OnErr result (StartsWith to.new.items to.old.items) }
{
    push_text(to, b"(")?;
    push_action(to, model, action)?;
    push_text(to, b", ")?;
    push_rate(alloc, to, rate)?;
    push_text(to, b").")
}
