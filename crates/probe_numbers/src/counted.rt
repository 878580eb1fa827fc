//! The constants that the guards of an expression count, each once, in the order of their first places.
ghost use Rattle.std.specs.Prelude.{◌≡◌, map, nat_eq, OnOk};
ghost use Rattle.std.specs.List.{IsDistinct};
ghost use Rattle.probe_words.specs.ProbeTables.{is_among_by, with_new_by, by_first_places};
ghost use Rattle.probe_reader.specs.ProbeTrees.{guard_node_of, probe_node_of};
ghost use Rattle.probe_numbers.specs.NumberedProbes.{constant_number, constants_in_guard, constants_in_probe, place_in_counted};

use crate::names::ProbeNames;
use probe_reader::{GuardTree, ProbeTree};
use probe_words::Words32;
use std::alloc::AllocError;

/// Whether the number is one of these.
fn has_number(numbers: &[u32], number: u32) -> bool
    ensures { result ≡ is_among_by nat_eq number numbers.now }
{
    for other in numbers {
        if number == *other {
            return true;
        }
    }
    false
}

/// Appends the number where it is new.
fn add_number(numbers: &mut Words32, number: u32) -> Result<(), AllocError>
    ensures { OnOk result (numbers.new ≡ with_new_by nat_eq numbers.old number) }
{
    if has_number(numbers.as_slice(), number) {
        return Ok(());
    }
    numbers.push(number)
}

/// Appends the new ones of the numbers of a guard's constants.
fn add_of_guard<N: ProbeNames>(
    counted: &mut Words32,
    names: &N,
    tree: &GuardTree,
) -> Result<(), AllocError>
    ensures { OnOk result (counted.new ≡ by_first_places nat_eq counted.old
        (map (constant_number (N.meanings names.now)) (constants_in_guard (guard_node_of tree.now)))) }
{
    match tree {
        GuardTree::Count { which, .. } => {
            add_number(counted, names.constant(*which).unwrap_or(0))
        }
        GuardTree::Both(left, right) => {
            add_of_guard(counted, names, left)?;
            add_of_guard(counted, names, right)
        }
        GuardTree::Either(left, right) => {
            add_of_guard(counted, names, left)?;
            add_of_guard(counted, names, right)
        }
        GuardTree::Not(inner) => add_of_guard(counted, names, inner),
    }
}

/// Appends the new ones of the numbers of the constants in an expression's guards.
pub(crate) fn add_of_probe<N: ProbeNames>(
    counted: &mut Words32,
    names: &N,
    tree: &ProbeTree,
) -> Result<(), AllocError>
    ensures { OnOk result (counted.new ≡ by_first_places nat_eq counted.old
        (map (constant_number (N.meanings names.now)) (constants_in_probe (probe_node_of tree.now)))) }
{
    match tree {
        ProbeTree::One(_) => Ok(()),
        ProbeTree::Then(left, right) => {
            add_of_probe(counted, names, left)?;
            add_of_probe(counted, names, right)
        }
        ProbeTree::Or(left, right) => {
            add_of_probe(counted, names, left)?;
            add_of_probe(counted, names, right)
        }
        ProbeTree::Label(inner, _) => add_of_probe(counted, names, inner),
        ProbeTree::Star(inner) => add_of_probe(counted, names, inner),
        ProbeTree::Plus(inner) => add_of_probe(counted, names, inner),
        ProbeTree::Maybe(inner) => add_of_probe(counted, names, inner),
        ProbeTree::Times(inner, _) => add_of_probe(counted, names, inner),
        ProbeTree::Between(inner, _, _) => add_of_probe(counted, names, inner),
        ProbeTree::Reset(inner, _) => add_of_probe(counted, names, inner),
        ProbeTree::Guarded(guard, inner) => {
            add_of_guard(counted, names, guard)?;
            add_of_probe(counted, names, inner)
        }
    }
}

/// The place of the number among these, from 0. Each of them is there once.
pub(crate) fn place_of(counted: &[u32], number: u32) -> u32
    requires { IsDistinct nat_eq counted.now }
    ensures { result ≡ place_in_counted counted.now number }
{
    for (at, other) in counted.iter().enumerate() {
        if number == *other {
            return at as u32;
        }
    }
    0
}
