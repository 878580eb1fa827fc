//! How many leaves a model's system has.
ghost use Rattle.std.specs.Prelude.{◌≡◌, ◌++◌, ◌≤◌, IfOk, OnOk};
ghost use Rattle.pepa_model.specs.Expression.{shape_of};
ghost use Rattle.probe_attach.specs.Systems as spec;
ghost use Rattle.probe_attach.specs.Systems.{compounds_in, HasLeaves};

use pepa_model::{Model, Shape2, Words32};
use std::alloc::{AllocError, Global};

/// How many leaves the system has with its compound constants expanded.
///
/// The constants that are still to be expanded stand in a list, since they can stand for one another in a long chain. Its only
/// error is want of memory.
pub fn system_leaves(alloc: Global, model: &Model) -> Result<u32, AllocError>
    ensures { IfOk result (HasLeaves model.now) }
{
    model.recall_invariant();
    let mut constants = Words32::new(alloc);
    let mut count = own_leaves(model.system(), &mut constants)?;
    while let Some(constant) = constants.pop() {
        count += own_leaves(model.compound_system(constant), &mut constants)?;
    }
    Ok(count)
}

/// How many leaves a system has outside its compound constants, which are added to the list.
fn own_leaves(system: &Shape2, constants: &mut Words32) -> Result<u32, AllocError>
    requires { spec.own_leaves (shape_of system.now) ≤ 255 }
    ensures count { IfOk result (λ count. count ≡ spec.own_leaves (shape_of system.now)) }
    ensures constants { OnOk result
        (constants.new ≡ constants.old ++ compounds_in (shape_of system.now)) }
{
    match system {
        Shape2::Leaf(_) => Ok(1),
        Shape2::Constant(constant) => {
            constants.push(*constant)?;
            Ok(0)
        }
        Shape2::Coop(left, right, _) => {
            let of_left = own_leaves(left, constants)?;
            let of_right = own_leaves(right, constants)?;
            Ok(of_left + of_right)
        }
        Shape2::Hide(inner, _) => own_leaves(inner, constants),
    }
}
