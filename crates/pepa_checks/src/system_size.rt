//! How many leaves and how many nodes the expanded system has.
ghost use Rattle.std.specs.Prelude.{◌≡◌, ◌+◌, ◌<◌, ◌↔◌, List, ℕ, IfOk, IsTrue, slice_index};
ghost use Rattle.pepa_model.specs.Expanded.{Expanded, Expands};
ghost use Rattle.pepa_resolver.specs.Named.{constants_named};
ghost use Rattle.pepa_resolver.specs.NamedTypes.{named_of};
ghost use Rattle.pepa_checks.specs.FileViews.{IsOrderedView, outline_seen};
ghost use Rattle.pepa_checks.specs.Outline.{is_compound as is_compound_constant};
ghost use Rattle.pepa_checks.specs.SystemSizes.{measured, own_count, most_of, capped_count, IsCountIn};

use crate::structured_file::FileView;
use pepa_resolver::NamedProcess;
use sqlite_items::Items;
use std::alloc::{AllocError, Global};

/// What is counted of a system.
#[derive(Clone, Copy, Debug)]
pub(crate) enum Measure {
    Leaves,
    /// The leaves, the cooperations and the hidings.
    Nodes,
}

impl Measure {
    /// The most that a system may have.
    fn most(self) -> usize
        ensures { result ≡ most_of self }
    {
        match self {
            Measure::Leaves => 255,
            Measure::Nodes => 1023,
        }
    }

    /// What a cooperation or a hiding counts by itself.
    fn own(self) -> usize
        ensures { result ≡ own_count self }
    {
        match self {
            Measure::Leaves => 0,
            Measure::Nodes => 1,
        }
    }
}

/// The count of a cooperation, where one more than the most stands for all greater ones.
fn joined(measure: Measure, left: usize, right: usize) -> usize
    ensures { (m : ℕ) (n : ℕ) → left ≡ capped_count measure m → right ≡ capped_count measure n
        → result ≡ capped_count measure ((m + n) + own_count measure) }
{
    let both = left.saturating_add(right).saturating_add(measure.own());
    both.min(measure.most() + 1)
}

/// Whether a constant is compound.
fn is_compound(compounds: &[bool], constant: u32) -> bool
    ensures { result ≡ is_compound_constant compounds.now constant }
{
    compounds.get(constant as usize).copied().unwrap_or(false)
}

/// The number at a constant's place.
fn count_at(counts: &[usize], constant: u32) -> usize
    ensures { result ≡ slice_index counts.now constant }
{
    counts.get(constant as usize).copied().unwrap_or(0)
}

/// The size of a process as a system, by those of the compound constants.
fn size_of(measure: Measure, compounds: &[bool], counts: &[usize], process: &NamedProcess) -> usize
    ensures { IsCountIn measure compounds.now counts.now (constants_named (named_of process.now))
        (named_of process.now) result }
{
    match process {
        NamedProcess::Constant { number, .. } => {
            if is_compound(compounds, *number) {
                count_at(counts, *number)
            } else {
                1
            }
        }
        NamedProcess::Prefix { .. } => 1,
        NamedProcess::Choice(..) => 1,
        NamedProcess::Coop { left, right, .. } => {
            let before = size_of(measure, compounds, counts, left);
            let behind = size_of(measure, compounds, counts, right);
            joined(measure, before, behind)
        }
        NamedProcess::Hide { inner, .. } => {
            joined(measure, size_of(measure, compounds, counts, inner), 0)
        }
    }
}

/// Whether the system with its compound constants expanded has more than 255 leaves, or more than 1,023 nodes.
///
/// In the file's order a compound constant comes after those in its body, so each is counted once.
pub(crate) fn is_too_large(
    alloc: Global,
    measure: Measure,
    file: FileView,
) -> Result<bool, AllocError>
    requires { IsOrderedView file }
    ensures { IfOk result (λ large. (sets : List (List ℕ)) (tree : Expanded)
        → Expands (outline_seen sets file.entry).definitions
        (outline_seen sets file.entry).system tree
        → (IsTrue large ↔ (most_of measure < measured measure tree))) }
{
    let FileView {
        compounds,
        bodies,
        system,
        compound_order: order,
        ..
    } = file;
    let mut counts = Items::from_vec(vec![in alloc; 0; bodies.len()]?);
    for constant in order {
        let at = *constant as usize;
        if compounds[at] {
            let count = size_of(measure, compounds, counts.as_slice(), &bodies[at]);
            counts.set(at, count);
        }
    }
    let count = size_of(measure, compounds, counts.as_slice(), system);
    Ok(count > measure.most())
}
