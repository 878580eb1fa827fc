//! The sets of a file, each at the place of its number.
ghost use Rattle.std.specs.Prelude.{◌≡◌, ◌<◌, ◌≤◌, length, Some, slice_get, IfOk, OnOk};
ghost use Rattle.indexmap.specs.IndexMap.{keys};
ghost use Rattle.pepa_resolver.specs.NamedTypes.{named_of, bodies_of};
ghost use Rattle.pepa_resolver.specs.Numbers.{place_in};
ghost use Rattle.pepa_resolver.specs.NumberSteps.{with_name, with_names};
ghost use Rattle.pepa_checks.specs.Outline.{sets_written, sets_of};

use crate::number_set::{NumberSet, Numbers};
use crate::structured_file::FileView;
use indexmap::IndexMap;
use pepa_model::{Words32, Words32List};
use pepa_resolver::NamedProcess;
use sqlite_items::Items;
use std::alloc::{AllocError, Global};

/// A table of sets.
pub(crate) type SetTable = IndexMap<NumberSet, ()>;

/// Puts a set behind the others, unless it is there.
fn add_set(alloc: Global, sets: &mut SetTable, set: &[u32]) -> Result<(), AllocError>
    ensures { OnOk result (keys sets.new ≡ with_name (keys sets.old) set.now) }
{
    let set = NumberSet::make(alloc, set)?;
    sets.insert(set, ())?;
    Ok(())
}

/// Puts the sets of a process behind the others, in the order of the text, those that aren't there.
fn add_sets(alloc: Global, sets: &mut SetTable, process: &NamedProcess) -> Result<(), AllocError>
    ensures { OnOk result (keys sets.new
        ≡ with_names (keys sets.old) (sets_written (named_of process.now))) }
{
    match process {
        NamedProcess::Constant { .. } => Ok(()),
        NamedProcess::Prefix { next, .. } => add_sets(alloc, sets, next),
        NamedProcess::Choice(left, right) => {
            add_sets(alloc, sets, left)?;
            add_sets(alloc, sets, right)
        }
        NamedProcess::Coop { left, right, set } => {
            add_sets(alloc, sets, left)?;
            add_set(alloc, sets, set.as_slice())?;
            add_sets(alloc, sets, right)
        }
        NamedProcess::Hide { inner, set } => {
            add_sets(alloc, sets, inner)?;
            add_set(alloc, sets, set.as_slice())
        }
    }
}

/// The sets of a file: each once, by their first places in the right sides of the constants and in the system.
pub(crate) fn set_table(alloc: Global, file: FileView) -> Result<SetTable, AllocError>
    ensures { IfOk result (λ sets. keys sets
        ≡ sets_of (bodies_of file.entry.bodies.now) (named_of file.entry.system.now)) }
{
    let FileView { bodies, system, .. } = file;
    let mut sets = IndexMap::new(alloc);
    for body in bodies {
        add_sets(alloc, &mut sets, body)?;
    }
    add_sets(alloc, &mut sets, system)?;
    Ok(sets)
}

/// The number of a set: its place in the table, or 0 if it isn't there.
pub(crate) fn set_number(sets: &SetTable, set: &[u32]) -> u32
    requires { length (keys sets.now) ≤ 1024 }
    ensures { result ≡ place_in (keys sets.now) set.now }
{
    let place = sets.get_index_of(Numbers { numbers: set });
    place.unwrap_or(0) as u32
}

/// The set of a number.
fn set_at(sets: &SetTable, number: usize) -> &NumberSet
    requires { number < length (keys sets.now) }
    ensures { slice_get (keys sets.now) number ≡ Some result.now }
{
    match sets.get_index(number) {
        Some((set, ())) => set,
        None => unreachable!(),
    }
}

/// A set as a list.
fn list_of(alloc: Global, set: &NumberSet) -> Result<Words32, AllocError>
    ensures { IfOk result (λ list. list ≡ set.now) }
{
    Ok(Items::from_vec(Vec::from_slice(alloc, set.as_slice())?))
}

/// The sets of a table as lists, by number.
pub(crate) fn set_lists(alloc: Global, sets: &SetTable) -> Result<Words32List, AllocError>
    ensures { IfOk result (λ lists. lists ≡ keys sets.now) }
{
    let mut lists = Items::new(alloc);
    for number in 0..sets.len() {
        let list = list_of(alloc, set_at(sets, number))?;
        lists.push(list)?;
    }
    Ok(lists)
}
