//! Targets on demand.
ghost use Rattle.std.specs.Prelude.{◌≡◌, ◌<◌, IfOk, List, Some, length, slice_get};
ghost use Rattle.pepa_model.specs.Terms.{TermNode, CoopNode, HideNode, term_of, IsNodeOf, IsTermOf};
ghost use Rattle.pepa_steps.specs.PartAnswers.{StepNode};
ghost use Rattle.pepa_steps.specs.Traces.{TracesIn, HasList, entries_in};
ghost use Rattle.pepa_steps.specs.ListAnswers.{IsTargetAt};

use crate::buffers::Buffers;
use crate::sources::{Source, find_source};
use pepa_model::{Model, Term};
use std::alloc::{AllocError, Global};

/// The target of the entry at this index of the list that `load` put into the buffers for this term. It copies the term once.
pub fn target(
    alloc: Global,
    model: &Model,
    term: &Term,
    buffers: &Buffers,
    index: usize,
) -> Result<Term, AllocError>
    requires loaded { HasList model.now term.now buffers.now }
    requires index { index < length (entries_in buffers.now) }
    ensures of_model { IfOk result (IsTermOf model.now) }
    ensures stands { IfOk result (IsTargetAt model.now term.now index) }
{
    model.recall_invariant();
    step_target(alloc, model, term, buffers, buffers.mark, index)
}

/// The term to which the step at this index leads, where this is the mark of the term.
fn step_target(
    alloc: Global,
    model: &Model,
    term: &Term,
    buffers: &Buffers,
    at: usize,
    index: usize,
) -> Result<Term, AllocError>
    requires of_model { IsTermOf model.now term.now }
    requires traced { (steps : List StepNode)
        × TracesIn model.now buffers.now (term_of term.now) at steps × (index < length steps) }
    ensures { IfOk result (λ made. (steps : List StepNode)
        → TracesIn model.now buffers.now (term_of term.now) at steps
        → (step : StepNode) → slice_get steps index ≡ Some step → term_of made ≡ step.target) }
{
    match term {
        Term::Leaf(leaf) => Ok(Term::Leaf(model.activities(*leaf)[index].target)),
        Term::Coop(left, right, set) => match find_source(buffers, at, index) {
            Source::Left(mark, place) => {
                let moved = step_target(alloc, model, left, buffers, mark, place)?;
                joined(alloc, moved, right.copy(alloc)?, *set)
            }
            Source::Right(mark, place) => {
                let moved = step_target(alloc, model, right, buffers, mark, place)?;
                joined(alloc, left.copy(alloc)?, moved, *set)
            }
            Source::Both(mark, place, other_mark, other_place) => {
                let moved = step_target(alloc, model, left, buffers, mark, place)?;
                let other = step_target(alloc, model, right, buffers, other_mark, other_place)?;
                joined(alloc, moved, other, *set)
            }
            Source::Lost => unreachable!(),
        },
        Term::Hide(inner, set) => {
            let moved = step_target(alloc, model, inner, buffers, at, index)?;
            hiding(alloc, moved, *set)
        }
    }
}

/// Two terms that cooperate over a set.
fn joined(alloc: Global, left: Term, right: Term, set: u32) -> Result<Term, AllocError>
    ensures { IfOk result (λ term. term_of term ≡ CoopNode (term_of left) (term_of right) set) }
{
    let left = Box::new(alloc, left)?;
    let right = Box::new(alloc, right)?;
    Ok(Term::Coop(left, right, set))
}

/// A term that hides a set.
fn hiding(alloc: Global, inner: Term, set: u32) -> Result<Term, AllocError>
    ensures { IfOk result (λ term. term_of term ≡ HideNode (term_of inner) set) }
{
    let inner = Box::new(alloc, inner)?;
    Ok(Term::Hide(inner, set))
}
