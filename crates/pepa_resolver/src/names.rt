//! The names of the lines of a file, and what is wrong with its names and sets.

ghost use Rattle.std.specs.Prelude.{◌≡◌, ◌⊎◌, map, slice_get, IfOk};
ghost use Rattle.pepa_reader.specs.Trees.{file_node_of};
ghost use Rattle.pepa_resolver.specs.NamesChecks.{NamesLines, ChecksNames, refused_at};
ghost use Rattle.pepa_resolver.specs.Finding.{FindsLeast};

use crate::lesser::least;
use crate::refusal::{ResolveCause, ResolveEnd};
use crate::sets::tau_in_sets;
use crate::source::Source;
use crate::tables::line_names;
use crate::unknown::unknown_name;
use indexmap::IndexMap;
use pepa_model::Name;
use pepa_reader::{FileTree, Indices, ProcessLine, RateLine};
use sqlite_items::{Items, at as item};
use std::alloc::{AllocError, Global};

/// How many rate lines a file has at most, and how many process lines.
const MOST_LINES: usize = 1024;

/// The names of the lines of a file, in order.
#[derive(Drop)]
pub(crate) struct Names {
    /// The names of the rate lines.
    pub(crate) rates: IndexMap<Name, ()>,
    /// The names of the process lines.
    pub(crate) constants: IndexMap<Name, ()>,
}

/// The indices of the names of rate lines.
fn rate_names_at(alloc: Global, lines: &[RateLine]) -> Result<Indices, AllocError>
    ensures { IfOk result (λ ats. ats ≡ map (λ line. line.at) lines.now) }
{
    let ats = lines.iter().map(|line| line.at).collect(alloc)?;
    Ok(Items::from_vec(ats))
}

/// The indices of the names of process lines.
fn process_names_at(alloc: Global, lines: &[ProcessLine]) -> Result<Indices, AllocError>
    ensures { IfOk result (λ ats. ats ≡ map (λ line. line.at) lines.now) }
{
    let ats = lines.iter().map(|line| line.at).collect(alloc)?;
    Ok(Items::from_vec(ats))
}

/// The 1,025th of some indices, if there is one.
fn past_limit(ats: &[usize]) -> Option<usize>
    ensures { FindsLeast (λ i. slice_get ats.now 1024 ≡ Some i) result }
{
    item(ats, MOST_LINES).copied()
}

/// The least index of a line that is one too many of its kind.
fn too_many(rates_at: &[usize], constants_at: &[usize]) -> Option<usize>
    ensures { FindsLeast (λ i. (slice_get rates_at.now 1024 ≡ Some i)
        ⊎ (slice_get constants_at.now 1024 ≡ Some i)) result }
{
    least(past_limit(rates_at), past_limit(constants_at))
}

/// Refuses a file for a cause at an index, if there is one.
fn refuse(cause: ResolveCause, found: Option<usize>) -> Result<(), ResolveEnd>
    ensures { result ≡ refused_at cause found }
{
    match found {
        Some(at) => Err(ResolveEnd::Refused { cause, at }),
        None => Ok(()),
    }
}

/// The names of the lines of a file, unless it has too many lines or a name has two.
fn names_of(alloc: Global, tree: &FileTree, source: &Source) -> Result<Names, ResolveEnd>
    ensures { NamesLines source.now.input.now source.now.tokens.now (file_node_of tree.now) result }
{
    let rates_at = rate_names_at(alloc, tree.rates.as_slice())?;
    let constants_at = process_names_at(alloc, tree.processes.as_slice())?;
    let too_many = too_many(rates_at.as_slice(), constants_at.as_slice());
    refuse(ResolveCause::TooManyLines, too_many)?;
    let rates = line_names(alloc, source, rates_at.as_slice())?;
    let constants = line_names(alloc, source, constants_at.as_slice())?;
    let twice = least(rates.repeated, constants.repeated);
    refuse(ResolveCause::Twice, twice)?;
    Ok(Names {
        rates: rates.names,
        constants: constants.names,
    })
}

/// The names of the lines of a file without a fault of its limits, names and sets.
pub(crate) fn check_names(
    alloc: Global,
    tree: &FileTree,
    source: &Source,
) -> Result<Names, ResolveEnd>
    ensures { ChecksNames source.now.input.now source.now.tokens.now (file_node_of tree.now) result }
{
    let names = names_of(alloc, tree, source)?;
    let unknown = unknown_name(source, &names.rates, &names.constants, tree);
    refuse(ResolveCause::UnknownName, unknown)?;
    let tau = tau_in_sets(source, tree);
    refuse(ResolveCause::TauInSet, tau)?;
    Ok(names)
}
