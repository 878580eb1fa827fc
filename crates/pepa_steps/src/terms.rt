//! Which terms are a model's.
ghost use Rattle.std.specs.Prelude.{◌<◌, length};
ghost use Rattle.std.specs.Bool.{Decides};
ghost use Rattle.pepa_model.specs.Terms.{IsTermOf};

use pepa_model::{Model, Term};

/// Whether a term is one of this model: each number of a leaf or of a set in it is one of the model's.
///
/// This is the test for what `steps` and `apparent` require of a term that a caller made by itself.
pub fn is_term_of(model: &Model, term: &Term) -> bool
    ensures { Decides result (IsTermOf model.now term.now) }
{
    match term {
        Term::Leaf(leaf) => has_leaf(model, *leaf),
        Term::Coop(left, right, set) => {
            is_term_of(model, left) && is_term_of(model, right) && has_set(model, *set)
        }
        Term::Hide(inner, set) => is_term_of(model, inner) && has_set(model, *set),
    }
}

fn has_leaf(model: &Model, leaf: u32) -> bool
    ensures { Decides result (leaf < length model.now.leaves) }
{
    let leaves = &model.leaves;
    (leaf as usize) < leaves.as_slice().len()
}

fn has_set(model: &Model, set: u32) -> bool
    ensures { Decides result (set < length model.now.sets) }
{
    let sets = &model.sets;
    (set as usize) < sets.as_slice().len()
}
