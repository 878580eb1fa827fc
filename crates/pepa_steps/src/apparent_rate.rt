//! The apparent rate of one action type.
ghost use Rattle.std.specs.Prelude.{◌≡◌, ◌<◌, if◌then◌else◌, Result, Option};
ghost use Rattle.std.specs.List.Sorted.{IsStrictlyIncreasing};
ghost use Rattle.pepa_model.specs.Expression.{expression_of};
ghost use Rattle.pepa_model.specs.Opened.{Opened, Opens};
ghost use Rattle.pepa_model.specs.Terms.{IsTermOf};
ghost use Rattle.pepa_steps.specs.States.{State, StandsFor, ForEachState, has};
ghost use Rattle.pepa_steps.specs.OpenStates.{OpenState, OpensState};
ghost use Rattle.pepa_steps.specs.ApparentAnswers.{AnswersOpened, CanOpen, IsTogether};
ghost use Rattle.pepa_steps.specs.StateRates.{IsApparentAnswer, AnswersTree, IsOfCooperation};

use crate::sets::is_in;
use pepa_model::{MAX_HEIGHT, Model, Sequential, Term};
use pepa_rates::{Rate, RateFault};

/// The apparent rate of an action type (Hillston 1996, chapter 3): `None` where the term doesn't perform it.
///
/// The fault is that of the first part, in post-order, where the rate of this action isn't defined or isn't in range, also
/// where the term hides the action further out.
pub fn apparent(model: &Model, term: &Term, action: u32) -> Result<Option<Rate>, RateFault>
    requires of_model { IsTermOf model.now term.now }
    requires no_tau { 0 < action }
    ensures { ForEachState model.now term.now
        (λ state. IsApparentAnswer model.now.bodies state action result) }
{
    model.recall_invariant();
    term_rate(model, term, action)
}

// The apparent rate of a term, from those of its parts.
fn term_rate(model: &Model, term: &Term, action: u32) -> Result<Option<Rate>, RateFault>
    requires { IsTermOf model.now term.now }
    ensures { (state : State) (tree : OpenState) → StandsFor model.now state term.now
        → OpensState model.now.bodies state tree → AnswersTree tree action result }
{
    model.recall_invariant();
    match term {
        Term::Leaf(leaf) => component_rate(model, model.leaf(*leaf), action, MAX_HEIGHT),
        Term::Coop(left, right, set) => {
            let left = term_rate(model, left, action)?;
            let right = term_rate(model, right, action)?;
            rate_of_cooperation(model.set(*set), action, left, right)
        }
        Term::Hide(inner, set) => {
            let inner = term_rate(model, inner, action)?;
            Ok(rate_of_hiding(model.set(*set), action, inner))
        }
    }
}

// The apparent rate of a cooperation over these types, of those of its sides.
fn rate_of_cooperation(
    types: &[u32],
    action: u32,
    left: Option<Rate>,
    right: Option<Rate>,
) -> Result<Option<Rate>, RateFault>
    requires ascends { IsStrictlyIncreasing types.now }
    ensures { IsOfCooperation (has types.now action) left right result }
{
    if !is_in(types, action) {
        return rate_together(left, right);
    }
    match (left, right) {
        (Some(left), Some(right)) => Ok(Some(left.least(&right))),
        _ => Ok(None),
    }
}

// The apparent rate of a system that hides these types, of that of what it hides.
fn rate_of_hiding(types: &[u32], action: u32, inner: Option<Rate>) -> Option<Rate>
    requires ascends { IsStrictlyIncreasing types.now }
    ensures { result ≡ (if has types.now action then None else inner) }
{
    if is_in(types, action) { None } else { inner }
}

// The apparent rate of a component that opens into a tree of at most this height.
fn component_rate(
    model: &Model,
    component: &Sequential,
    action: u32,
    depth: u32,
) -> Result<Option<Rate>, RateFault>
    requires { CanOpen model.now.bodies (expression_of component.now) depth }
    ensures { (o : Opened)
        → Opens model.now.bodies (expression_of component.now) o → AnswersOpened o action result }
{
    match component {
        Sequential::Prefix(own, rate, _next) => {
            rate.valid();
            Ok((*own == action).then_some(*rate))
        }
        Sequential::Choice(left, right) => {
            let left = component_rate(model, left, action, depth - 1)?;
            let right = component_rate(model, right, action, depth - 1)?;
            rate_together(left, right)
        }
        Sequential::Constant(constant) => {
            component_rate(model, model.body(*constant), action, depth - 1)
        }
    }
}

// The apparent rate of a choice, of those of its operands.
fn rate_together(left: Option<Rate>, right: Option<Rate>) -> Result<Option<Rate>, RateFault>
    ensures { IsTogether left right result }
{
    match (left, right) {
        (Some(left), Some(right)) => Ok(Some(left.add(&right)?)),
        (left, None) => Ok(left),
        (None, right) => Ok(right),
    }
}
