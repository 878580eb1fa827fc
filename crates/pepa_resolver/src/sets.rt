//! `tau` in the sets of a file.
ghost use Rattle.std.specs.Prelude.{◌≡◌};
ghost use Rattle.pepa_reader.specs.Trees.{process_node_of, file_node_of};
ghost use Rattle.pepa_resolver.specs.Parts.{set_words_in};
ghost use Rattle.pepa_resolver.specs.NamesAnswers.{IsTau};
ghost use Rattle.pepa_resolver.specs.Faults.{TauAt};
ghost use Rattle.pepa_resolver.specs.Finding.{FindsLeast, FindsIn};

use crate::lesser::least;
use crate::source::Source;
use pepa_reader::{FileTree, ProcessTree};

/// The least of these indices where `tau` stands.
fn tau_among(source: &Source, words: &[usize]) -> Option<usize>
    ensures { FindsIn (IsTau source.now.input.now source.now.tokens.now) words.now result }
{
    let mut found = None;
    for word in words {
        if source.is_tau(*word) {
            found = least(found, Some(*word));
        }
    }
    found
}

/// The least index of `tau` in a set of a process.
fn tau_in_process(source: &Source, process: &ProcessTree) -> Option<usize>
    ensures { FindsIn (IsTau source.now.input.now source.now.tokens.now)
        (set_words_in (process_node_of process.now)) result }
{
    match process {
        ProcessTree::Constant(_) => None,
        ProcessTree::Prefix { next, .. } => tau_in_process(source, next),
        ProcessTree::Choice(left, right) => least(
            tau_in_process(source, left),
            tau_in_process(source, right),
        ),
        ProcessTree::Coop {
            left,
            right,
            set,
            ..
        } => {
            let inside = least(
                tau_among(source, set.as_slice()),
                tau_in_process(source, right),
            );
            least(tau_in_process(source, left), inside)
        }
        ProcessTree::Hide { inner, set } => least(
            tau_in_process(source, inner),
            tau_among(source, set.as_slice()),
        ),
    }
}

/// The least index of `tau` in a set.
pub(crate) fn tau_in_sets(source: &Source, tree: &FileTree) -> Option<usize>
    ensures { FindsLeast (TauAt (IsTau source.now.input.now source.now.tokens.now)
        (file_node_of tree.now)) result }
{
    let mut found = None;
    for line in tree.processes.as_slice() {
        let here = tau_in_process(source, &line.body);
        found = least(found, here);
    }
    let last = tau_in_process(source, &tree.system);
    least(found, last)
}
