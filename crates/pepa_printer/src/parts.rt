//! The constants of a model.
ghost use Rattle.std.specs.Prelude.{◌≡◌, ◌<◌, length, Some, slice_get};
ghost use Rattle.pepa_model.specs.Expression.{definition_of};

use pepa_model::{Body, Model};

/// How many constants there are.
pub(crate) fn constant_count(model: &Model) -> usize
    ensures { result ≡ length model.now.bodies }
{
    let bodies = &model.bodies;
    bodies.len()
}

/// What a constant stands for.
pub(crate) fn body(model: &Model, constant: u32) -> &Body
    requires { constant < length model.now.bodies }
    ensures { slice_get model.now.bodies constant ≡ Some (definition_of result.now) }
{
    let bodies = &model.bodies;
    &bodies.as_slice()[constant as usize]
}
