//! The first state of a model.
ghost use Rattle.std.specs.Prelude.{IfOk};
ghost use Rattle.pepa_model.specs.Expression.{shape_of};
ghost use Rattle.pepa_model.specs.Terms.{IsTermOf};
ghost use Rattle.probe_attach.specs.FirstStates.{CanExpand, IsFirstTerm, IsExpansionOf};

use pepa_model::{MAX_HEIGHT, Model, Shape2, Term};
use std::alloc::{AllocError, Global};

/// The first state of a model: its system, with its compound constants expanded, and no probe attached, since a model has none.
///
/// Its only error is want of memory.
pub fn attach(alloc: Global, model: &Model) -> Result<Term, AllocError>
    ensures of_model { IfOk result (λ term. IsTermOf model.now term) }
    ensures first { IfOk result (λ term. IsFirstTerm model.now term) }
{
    model.recall_invariant();
    expanded_term(alloc, model, model.system(), MAX_HEIGHT)
}

/// A system that expands into a tree of at most this height, with its compound constants expanded.
fn expanded_term(
    alloc: Global,
    model: &Model,
    system: &Shape2,
    depth: u32,
) -> Result<Term, AllocError>
    requires { CanExpand model.now (shape_of system.now) depth }
    ensures { IfOk result (IsExpansionOf model.now (shape_of system.now)) }
{
    model.recall_invariant();
    match system {
        Shape2::Leaf(component) => Ok(Term::Leaf(model.leaf_number(component))),
        Shape2::Constant(constant) => {
            expanded_term(alloc, model, model.compound_system(*constant), depth - 1)
        }
        Shape2::Coop(left, right, set) => {
            let left = Box::new(alloc, expanded_term(alloc, model, left, depth - 1)?)?;
            let right = Box::new(alloc, expanded_term(alloc, model, right, depth - 1)?)?;
            Ok(Term::Coop(left, right, *set))
        }
        Shape2::Hide(inner, set) => {
            let inner = Box::new(alloc, expanded_term(alloc, model, inner, depth - 1)?)?;
            Ok(Term::Hide(inner, *set))
        }
    }
}
