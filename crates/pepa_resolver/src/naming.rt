//! A file with numbers in place of its names.

ghost use Rattle.std.specs.Prelude.{◌≡◌, map, IfOk, OnOk};
ghost use Rattle.fault_ends.specs.Answers.{OkOrFault};
ghost use Rattle.indexmap.specs.IndexMap.{keys};
ghost use Rattle.pepa_lexer.specs.TokenLists.{IsTokens};
ghost use Rattle.pepa_reader.specs.Trees.{process_node_of, file_node_of};
ghost use Rattle.pepa_resolver.specs.Sources.{name_in};
ghost use Rattle.pepa_resolver.specs.Outcomes.{IsBadRateOf};
ghost use Rattle.pepa_resolver.specs.NamesAnswers.{FineSets};
ghost use Rattle.pepa_resolver.specs.NamesChecks.{AreNamesOf};
ghost use Rattle.pepa_resolver.specs.Numbers.{words_in, actions_of};
ghost use Rattle.pepa_resolver.specs.NumberSteps.{with_name, with_names};
ghost use Rattle.pepa_resolver.specs.ResolvedFiles.{IsValuedFile};

use crate::bad_rates::bad_line;
use crate::lines::line_values;
use crate::named::NamedProcess;
use crate::names::Names;
use crate::numbers::{Numbers, behind};
use crate::source::Source;
use crate::values::Rates;
use fault_ends::End;
use indexmap::IndexMap;
use pepa_model::Name;
use pepa_reader::{FileTree, ProcessTree};
use sqlite_items::Items;
use std::alloc::{AllocError, Global};

/// A file with numbers in place of its names.
#[derive(Drop)]
pub(crate) struct NamedFile {
    /// The action types, each at the place of its number.
    pub(crate) actions: IndexMap<Name, ()>,
    /// What the constants stand for, each at the place of its number.
    pub(crate) bodies: Items<NamedProcess>,
    pub(crate) system: NamedProcess,
}

/// Puts the name at an index behind the others, unless it is there.
fn add_word(
    alloc: Global,
    actions: &mut IndexMap<Name, ()>,
    source: &Source,
    at: usize,
) -> Result<(), AllocError>
    ensures { OnOk result (keys actions.new ≡ with_name (keys actions.old) (name_in source.now at)) }
{
    let name = Name::make(alloc, source.name(at))?;
    actions.insert(name, ())?;
    Ok(())
}

/// Puts the names at these indices behind the others, those that aren't there.
fn add_words(
    alloc: Global,
    actions: &mut IndexMap<Name, ()>,
    source: &Source,
    words: &[usize],
) -> Result<(), AllocError>
    ensures { OnOk result (keys actions.new
        ≡ with_names (keys actions.old) (map (name_in source.now) words.now)) }
{
    for word in words {
        add_word(alloc, actions, source, *word)?;
    }
    Ok(())
}

/// Puts the words of a process behind the others, in the order of the text, those that aren't there.
fn add_words_of(
    alloc: Global,
    actions: &mut IndexMap<Name, ()>,
    source: &Source,
    process: &ProcessTree,
) -> Result<(), AllocError>
    ensures { OnOk result (keys actions.new
        ≡ with_names (keys actions.old)
        (map (name_in source.now) (words_in (process_node_of process.now)))) }
{
    match process {
        ProcessTree::Constant(_) => Ok(()),
        ProcessTree::Prefix { at, next, .. } => {
            add_word(alloc, actions, source, behind(source, *at))?;
            add_words_of(alloc, actions, source, next)
        }
        ProcessTree::Choice(left, right) => {
            add_words_of(alloc, actions, source, left)?;
            add_words_of(alloc, actions, source, right)
        }
        ProcessTree::Coop {
            left,
            right,
            set,
            ..
        } => {
            add_words_of(alloc, actions, source, left)?;
            add_words(alloc, actions, source, set.as_slice())?;
            add_words_of(alloc, actions, source, right)
        }
        ProcessTree::Hide { inner, set } => {
            add_words_of(alloc, actions, source, inner)?;
            add_words(alloc, actions, source, set.as_slice())
        }
    }
}

/// The action types of a file: `tau`, and then the others by their first places.
fn actions_of(
    alloc: Global,
    source: &Source,
    tree: &FileTree,
) -> Result<IndexMap<Name, ()>, AllocError>
    ensures { IfOk result (λ actions. keys actions
        ≡ actions_of (name_in source.now) (file_node_of tree.now)) }
{
    let mut actions = IndexMap::new(alloc);
    let tau = Name::make(alloc, b"tau")?;
    actions.insert(tau, ())?;
    for line in tree.processes.as_slice() {
        add_words_of(alloc, &mut actions, source, &line.body)?;
    }
    add_words_of(alloc, &mut actions, source, &tree.system)?;
    Ok(actions)
}

/// A file with numbers in place of its names, or the index of the token at which its first refused rate is refused. A constant's
/// number is the place of its line among the process lines, from 0; `tau` is action 0, and the others are numbered from 1 by their
/// first places. Sets ascend, and rates are exact. Each rate is evaluated once.
pub(crate) fn name_processes(
    alloc: Global,
    tree: &FileTree,
    source: &Source,
    names: &Names,
) -> Result<NamedFile, End<usize>>
    requires tokens { IsTokens source.now.input.now source.now.tokens.now }
    requires fine { FineSets source.now.input.now source.now.tokens.now (file_node_of tree.now) }
    requires names { AreNamesOf source.now.input.now source.now.tokens.now
        (file_node_of tree.now) names.now }
    ensures { OkOrFault result
        (IsValuedFile source.now.input.now source.now.tokens.now (file_node_of tree.now))
        (IsBadRateOf source.now.tokens.now (name_in source.now) (file_node_of tree.now)) }
{
    let actions = actions_of(alloc, source, tree)?;
    let values = line_values(alloc, *source, &names.rates, tree.rates.as_slice())?;
    let numbers = Numbers {
        rates: Rates {
            source: *source,
            names: &names.rates,
            values: values.as_slice(),
        },
        constants: &names.constants,
        actions: &actions,
    };
    let mut bad = bad_line(tree.rates.as_slice(), values.as_slice());
    let bodies = numbers.bodies(alloc, tree.processes.as_slice(), &mut bad)?;
    let system = numbers.process(alloc, &tree.system, &mut bad)?;
    match bad {
        Some(bad) => Err(End::Fault(bad.at)),
        None => Ok(NamedFile {
            actions,
            bodies,
            system,
        }),
    }
}
