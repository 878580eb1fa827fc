//! Names that have no line.
ghost use Rattle.std.specs.Prelude.{◌≡◌, [], ◌∷◌, map, take};
ghost use Rattle.std.specs.List.{Contains};
ghost use Rattle.indexmap.specs.IndexMap.{keys};
ghost use Rattle.pepa_reader.specs.Trees.{rate_node_of, process_node_of, rate_line_of, file_node_of};
ghost use Rattle.pepa_resolver.specs.Parts.{names_in, rate_ats, process_ats, processes_of};
ghost use Rattle.pepa_resolver.specs.Sources.{name_in};
ghost use Rattle.pepa_resolver.specs.Faults.{IsEarlyName, UnknownAt};
ghost use Rattle.pepa_resolver.specs.Finding.{FindsLeast, FindsIn, IsUnlisted, IsUnlistedIn, StandsInSome};

use crate::lesser::least;
use crate::source::Source;
use indexmap::IndexMap;
use pepa_model::Name;
use pepa_reader::{FileTree, ProcessTree, RateLine, RateTree};

/// The index, unless its name is one of the first so many of a table.
fn unlisted(source: &Source, table: &IndexMap<Name, ()>, above: usize, at: usize) -> Option<usize>
    ensures { FindsIn (IsUnlisted (name_in source.now) (take above (keys table.now))) (at ∷ []) result }
{
    match source.position(table, at) {
        Some(place) if place < above => None,
        _ => Some(at),
    }
}

/// The least index of a rate name that is none of the first so many of a table.
fn unlisted_in_rate(
    source: &Source,
    table: &IndexMap<Name, ()>,
    above: usize,
    rate: &RateTree,
) -> Option<usize>
    ensures { FindsIn (IsUnlisted (name_in source.now) (take above (keys table.now)))
        (names_in (rate_node_of rate.now)) result }
{
    match rate {
        RateTree::Name(at) => unlisted(source, table, above, *at),
        RateTree::Op { left, right, .. } => least(
            unlisted_in_rate(source, table, above, left),
            unlisted_in_rate(source, table, above, right),
        ),
        RateTree::Bracket(inner) => unlisted_in_rate(source, table, above, inner),
        RateTree::Number(_) | RateTree::Top { .. } => None,
    }
}

/// The least index in a process of a constant or a rate name that has no line.
fn unlisted_in_process(
    source: &Source,
    rates: &IndexMap<Name, ()>,
    constants: &IndexMap<Name, ()>,
    process: &ProcessTree,
) -> Option<usize>
    ensures { FindsLeast (IsUnlistedIn (name_in source.now) (keys constants.now) (keys rates.now)
        (process_node_of process.now)) result }
{
    match process {
        ProcessTree::Constant(at) => unlisted(source, constants, constants.len(), *at),
        ProcessTree::Prefix { rate, next, .. } => least(
            unlisted_in_rate(source, rates, rates.len(), rate),
            unlisted_in_process(source, rates, constants, next),
        ),
        ProcessTree::Choice(left, right) => least(
            unlisted_in_process(source, rates, constants, left),
            unlisted_in_process(source, rates, constants, right),
        ),
        ProcessTree::Coop { left, right, .. } => least(
            unlisted_in_process(source, rates, constants, left),
            unlisted_in_process(source, rates, constants, right),
        ),
        ProcessTree::Hide { inner, .. } => unlisted_in_process(source, rates, constants, inner),
    }
}

/// The least index in the rate lines of a name that has no line above.
fn early_name(source: &Source, rates: &IndexMap<Name, ()>, lines: &[RateLine]) -> Option<usize>
    requires { keys rates.now ≡ map (name_in source.now) (rate_ats (map rate_line_of lines.now)) }
    ensures { FindsLeast (IsEarlyName (name_in source.now) (map rate_line_of lines.now)) result }
{
    let mut found = None;
    for (above, line) in lines.iter().enumerate() {
        let here = unlisted_in_rate(source, rates, above, &line.rate);
        found = least(found, here);
    }
    found
}

/// The least index in the process lines and the system of a constant or a rate name that has no line.
fn unlisted_in_processes(
    source: &Source,
    rates: &IndexMap<Name, ()>,
    constants: &IndexMap<Name, ()>,
    tree: &FileTree,
) -> Option<usize>
    ensures { FindsLeast (StandsInSome
        (IsUnlistedIn (name_in source.now) (keys constants.now) (keys rates.now))
        (processes_of (file_node_of tree.now))) result }
{
    let mut found = None;
    for line in tree.processes.as_slice() {
        let here = unlisted_in_process(source, rates, constants, &line.body);
        found = least(found, here);
    }
    let last = unlisted_in_process(source, rates, constants, &tree.system);
    least(found, last)
}

/// The least index of an unknown name.
pub(crate) fn unknown_name(
    source: &Source,
    rates: &IndexMap<Name, ()>,
    constants: &IndexMap<Name, ()>,
    tree: &FileTree,
) -> Option<usize>
    requires rates_are { keys rates.now
        ≡ map (name_in source.now) (rate_ats (file_node_of tree.now).rates) }
    requires constants_are { keys constants.now
        ≡ map (name_in source.now) (process_ats (file_node_of tree.now).processes) }
    ensures { FindsLeast (UnknownAt (name_in source.now) (file_node_of tree.now)) result }
{
    let early = early_name(source, rates, tree.rates.as_slice());
    let late = unlisted_in_processes(source, rates, constants, tree);
    least(early, late)
}
