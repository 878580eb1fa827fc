//! What constants stand for, and the system.
ghost use Rattle.std.specs.Prelude.{◌≡◌, ◌≤◌, false, if◌then◌else◌, length, map, IfOk};
ghost use Rattle.indexmap.specs.IndexMap.{keys};
ghost use Rattle.pepa_model.specs.Expression.{Const, LeafShape, ConstShape, CoopShape, shape_of, definition_of};
ghost use Rattle.pepa_resolver.specs.NamedTypes.{named_of, bodies_of};
ghost use Rattle.pepa_checks.specs.Structure.{has_system};
ghost use Rattle.pepa_checks.specs.Outline.{is_compound, shape_in, definition_in, definitions_in};
ghost use Rattle.pepa_checks.specs.Sequences.{HasSequentialParts, AreBodies};

use crate::sequential::sequential_of;
use crate::sets::{SetTable, set_number};
use crate::structured_file::FileView;
use pepa_model::{Bodies, Body, Sequential, Shape2};
use pepa_resolver::NamedProcess;
use sqlite_items::Items;
use std::alloc::{AllocError, Global};

/// Two systems that cooperate over a set.
fn cooperating(alloc: Global, left: Shape2, right: Shape2, set: u32) -> Result<Shape2, AllocError>
    ensures { IfOk result (λ shape. shape_of shape ≡ CoopShape (shape_of left) (shape_of right) set) }
{
    let left = Box::new(alloc, left)?;
    let right = Box::new(alloc, right)?;
    Ok(Shape2::Coop(left, right, set))
}

/// A constant, or the leaf that it is.
fn constant_shape(compounds: &[bool], number: u32) -> Shape2
    ensures { shape_of result ≡
        (if is_compound compounds.now number then ConstShape number else LeafShape (Const number)) }
{
    if compounds.get(number as usize).copied().unwrap_or(false) {
        Shape2::Constant(number)
    } else {
        Shape2::Leaf(Sequential::Constant(number))
    }
}

/// A process as a system.
pub(crate) fn system_shape(
    alloc: Global,
    compounds: &[bool],
    sets: &SetTable,
    process: &NamedProcess,
) -> Result<Shape2, AllocError>
    requires few { length (keys sets.now) ≤ 1024 }
    requires sequential { HasSequentialParts (named_of process.now) }
    ensures { IfOk result (λ shape. shape_of shape
        ≡ shape_in compounds.now (keys sets.now) (named_of process.now)) }
{
    match process {
        NamedProcess::Constant { number, .. } => Ok(constant_shape(compounds, *number)),
        NamedProcess::Prefix { .. } => Ok(Shape2::Leaf(sequential_of(alloc, process)?)),
        NamedProcess::Choice(..) => Ok(Shape2::Leaf(sequential_of(alloc, process)?)),
        NamedProcess::Coop { left, right, set } => {
            let set = set_number(sets, set.as_slice());
            let left = system_shape(alloc, compounds, sets, left)?;
            let right = system_shape(alloc, compounds, sets, right)?;
            cooperating(alloc, left, right, set)
        }
        NamedProcess::Hide { inner, set } => {
            let set = set_number(sets, set.as_slice());
            let inner = system_shape(alloc, compounds, sets, inner)?;
            Ok(Shape2::Hide(Box::new(alloc, inner)?, set))
        }
    }
}

/// What a constant stands for.
fn body_of(
    alloc: Global,
    compounds: &[bool],
    sets: &SetTable,
    is_compound: bool,
    process: &NamedProcess,
) -> Result<Body, AllocError>
    requires few { length (keys sets.now) ≤ 1024 }
    requires sequential { HasSequentialParts (named_of process.now) }
    requires plain { is_compound ≡ false → has_system (named_of process.now) ≡ false }
    ensures { IfOk result (λ body. definition_of body
        ≡ definition_in compounds.now (keys sets.now) is_compound (named_of process.now)) }
{
    if is_compound {
        Ok(Body::Compound(system_shape(alloc, compounds, sets, process)?))
    } else {
        Ok(Body::Plain(sequential_of(alloc, process)?))
    }
}

/// What the constants stand for, by number.
pub(crate) fn definitions(
    alloc: Global,
    file: FileView,
    sets: &SetTable,
) -> Result<Bodies, AllocError>
    requires few { length (keys sets.now) ≤ 1024 }
    requires one_each { length file.compounds.now ≡ length file.bodies.now }
    requires bodies { AreBodies file.compounds.now (bodies_of file.bodies.now) }
    ensures { IfOk result (λ made. map definition_of made
        ≡ definitions_in file.entry.compounds.now (keys sets.now) file.entry.compounds.now
        (bodies_of file.entry.bodies.now)) }
{
    let FileView {
        compounds,
        bodies,
        ..
    } = file;
    let mut made = Items::new(alloc);
    for number in 0..bodies.len() {
        let body = body_of(alloc, compounds, sets, compounds[number], &bodies[number])?;
        made.push(body)?;
    }
    Ok(made)
}
