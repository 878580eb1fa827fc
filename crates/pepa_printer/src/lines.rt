//! The text of lines and of models.
ghost use Rattle.std.specs.Prelude.{◌≡◌, ◌++◌, ◌<◌, OnOk, OnErr, IfOk, length};
ghost use Rattle.std.specs.Io.{StartsWith};
ghost use Rattle.pepa_model.specs.Expression.{definition_of};
ghost use Rattle.pepa_checks.specs.CheckedFiles.{IsTextOf};
ghost use Rattle.pepa_printer.specs.KnownBodies.{IsBodyOf};
ghost use Rattle.pepa_printer.specs.ModelText.{definition_text_of, line_text_of, model_lines_text, model_text};

use crate::parts;
use pepa_model::{Body, Model};
use pepa_text::{push_constant, push_expression, push_shape, push_text};
use sim_outside::Bytes;
use std::alloc::{AllocError, Global};

/// The text of a model: a line for each constant, in the order of the constants, and then its system.
///
/// The text reads back: it is a text of this very model. So checking it gives an equal model, wherever it has at most 2^20
/// bytes and no item of more than 2,048 tokens.
pub fn print_model(alloc: Global, model: &Model) -> Result<Bytes, AllocError>
    ensures text { IfOk result (λ text. text ≡ model_text model.now) }
    ensures reads_back { IfOk result (λ text. IsTextOf text model.now) }
{
    model.recall_invariant();
    lines_and_system(alloc, model)
}

/// The lines of the constants, and then the system.
fn lines_and_system(alloc: Global, model: &Model) -> Result<Bytes, AllocError>
    ensures { IfOk result (λ text. text ≡ model_text model.now) }
{
    let mut text = Vec::new(alloc);
    model.recall_invariant();
    push_lines(alloc, &mut text, model)?;
    push_shape(alloc, &mut text, model, model.system())?;
    push_text(&mut text, b"\n")?;
    Ok(Bytes::from_vec(text))
}

/// Appends the lines of the constants.
fn push_lines(alloc: Global, to: &mut Vec<u8>, model: &Model) -> Result<(), AllocError>
    ensures { OnOk result (to.new.items ≡ to.old.items ++ model_lines_text model.now) }
{
    model.recall_invariant();
    for constant in 0..parts::constant_count(model) as u32 {
        push_line(alloc, to, model, constant, parts::body(model, constant))?;
    }
    Ok(())
}

/// Appends the line of a constant.
fn push_line(
    alloc: Global,
    to: &mut Vec<u8>,
    model: &Model,
    constant: u32,
    body: &Body,
) -> Result<(), AllocError>
    requires constant { constant < length model.now.constants }
    requires body { IsBodyOf model.now (definition_of body.now) }
    ensures text { OnOk result (to.new.items ≡ to.old.items ++ line_text_of model.now constant body.now) }
    ensures kept { OnErr result (StartsWith to.new.items to.old.items) }
{
    push_constant(to, model, constant)?;
    push_text(to, b" = ")?;
    push_definition(alloc, to, model, body)?;
    push_text(to, b";")?;
    push_text(to, b"\n")
}

/// Appends what a constant stands for.
fn push_definition(
    alloc: Global,
    to: &mut Vec<u8>,
    model: &Model,
    body: &Body,
) -> Result<(), AllocError>
    requires { IsBodyOf model.now (definition_of body.now) }
    ensures text { OnOk result (to.new.items ≡ to.old.items ++ definition_text_of model.now body.now) }
    ensures kept { OnErr result (StartsWith to.new.items to.old.items) }
{
    match body {
        Body::Plain(component) => push_expression(alloc, to, model, component),
        Body::Compound(shape) => push_shape(alloc, to, model, shape),
    }
}
