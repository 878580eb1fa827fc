//! Whether each name of an expression is known.
ghost use Rattle.std.specs.Prelude.{◌↔◌, IsTrue};
ghost use Rattle.probe_reader.specs.ProbeTrees.{guard_node_of, probe_node_of};
ghost use Rattle.probe_numbers.specs.NumberedProbes.{IsKnownLetter, IsSentLabel, IsKnownConstant, HasKnownConstants, HasKnownNames};

use crate::names::ProbeNames;
use probe_reader::{GuardTree, ProbeTree};

/// So many labels there are at most.
const LABEL_LIMIT: u32 = 64;

fn is_known_letter<N: ProbeNames>(names: &N, at: usize) -> bool
    ensures { IsTrue result ↔ IsKnownLetter (N.meanings names.now) at }
{
    names.action(at).is_some() || names.label(at).is_some()
}

fn is_sent_label<N: ProbeNames>(names: &N, at: usize) -> bool
    ensures { IsTrue result ↔ IsSentLabel (N.meanings names.now) at }
{
    match names.label(at) {
        Some(label) => label < LABEL_LIMIT,
        None => false,
    }
}

fn is_known_constant<N: ProbeNames>(names: &N, at: usize) -> bool
    ensures { IsTrue result ↔ IsKnownConstant (N.meanings names.now) at }
{
    names.constant(at).is_some()
}

fn has_known_constants<N: ProbeNames>(names: &N, tree: &GuardTree) -> bool
    ensures { IsTrue result ↔ HasKnownConstants (N.meanings names.now) (guard_node_of tree.now) }
{
    match tree {
        GuardTree::Count { which, .. } => is_known_constant(names, *which),
        GuardTree::Both(left, right) => {
            has_known_constants(names, left) && has_known_constants(names, right)
        }
        GuardTree::Either(left, right) => {
            has_known_constants(names, left) && has_known_constants(names, right)
        }
        GuardTree::Not(inner) => has_known_constants(names, inner),
    }
}

/// Whether each letter is an action or a label, each label that is sent has a number below 64, and each constant has a number: what
/// `number_probe` asks for.
pub fn has_known_names<N: ProbeNames>(names: &N, tree: &ProbeTree) -> bool
    ensures { IsTrue result ↔ HasKnownNames (N.meanings names.now) (probe_node_of tree.now) }
{
    match tree {
        ProbeTree::One(at) => is_known_letter(names, *at),
        ProbeTree::Then(left, right) => {
            has_known_names(names, left) && has_known_names(names, right)
        }
        ProbeTree::Or(left, right) => has_known_names(names, left) && has_known_names(names, right),
        ProbeTree::Label(inner, name) => {
            has_known_names(names, inner) && is_sent_label(names, *name)
        }
        ProbeTree::Star(inner) => has_known_names(names, inner),
        ProbeTree::Plus(inner) => has_known_names(names, inner),
        ProbeTree::Maybe(inner) => has_known_names(names, inner),
        ProbeTree::Times(inner, _) => has_known_names(names, inner),
        ProbeTree::Between(inner, _, _) => has_known_names(names, inner),
        ProbeTree::Reset(inner, at) => has_known_names(names, inner) && is_known_letter(names, *at),
        ProbeTree::Guarded(guard, inner) => {
            has_known_constants(names, guard) && has_known_names(names, inner)
        }
    }
}
