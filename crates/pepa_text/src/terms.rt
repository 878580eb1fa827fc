//! The text of terms.
ghost use Rattle.std.specs.Prelude.{◌≡◌, ◌++◌, OnOk, OnErr};
ghost use Rattle.std.specs.Io.{StartsWith};
ghost use Rattle.pepa_model.specs.PepaModel.{PepaModel};
ghost use Rattle.pepa_model.specs.Terms.{term_of, IsTermOf};
ghost use Rattle.pepa_text.specs.SystemText as spec;
ghost use Rattle.pepa_text.specs.SystemText.{written_node, term_text};

use crate::components::{is_composed, push_expression};
use crate::sets::{push_hiding, push_spaced_sign};
use crate::text::push_bracket;
use pepa_model::{Model, Term};
use std::alloc::{AllocError, Global};

/// Appends a term as its system is written: a cooperation in brackets after the sign of another, and what is hidden in
/// brackets if it is neither a constant nor a hiding.
pub fn push_term(
    alloc: Global,
    to: &mut Vec<u8>,
    model: &Model,
    term: &Term,
) -> Result<(), AllocError>
    requires { IsTermOf model.now term.now }
    ensures text { OnOk result (to.new.items ≡ to.old.items ++ term_text model.now term.now) }
    ensures kept { OnErr result (StartsWith to.new.items to.old.items) }
{
    model.recall_invariant();
    match term {
        Term::Leaf(leaf) => push_expression(alloc, to, model, model.leaf(*leaf)),
        Term::Coop(left, right, set) => {
            push_term(alloc, to, model, left)?;
            push_spaced_sign(to, model, *set)?;
            let brackets = is_cooperation(right);
            push_bracket(to, brackets, b"(")?;
            push_term(alloc, to, model, right)?;
            push_bracket(to, brackets, b")")
        }
        Term::Hide(inner, set) => {
            let brackets = is_bracketed(model, inner);
            push_bracket(to, brackets, b"(")?;
            push_term(alloc, to, model, inner)?;
            push_bracket(to, brackets, b")")?;
            push_hiding(to, model, *set)
        }
    }
}

/// Whether a term is a cooperation.
fn is_cooperation(term: &Term) -> bool
    ensures { (m : PepaModel) → result ≡ spec.is_cooperation (written_node m (term_of term.now)) }
{
    matches!(term, Term::Coop(..))
}

/// Whether a term has brackets before `/`.
fn is_bracketed(model: &Model, term: &Term) -> bool
    requires { IsTermOf model.now term.now }
    ensures { result ≡ spec.is_bracketed (written_node model.now (term_of term.now)) }
{
    match term {
        Term::Leaf(leaf) => is_composed(model.leaf(*leaf)),
        Term::Coop(..) => true,
        Term::Hide(..) => false,
    }
}
