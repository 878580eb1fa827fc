//! What a term does, as a list without targets.
ghost use Rattle.std.specs.Prelude.{◌≡◌, ◌<◌, ◌≤◌, ◌∷◌, [], ◌++◌, List, map, length, OnOk, IfOk};
ghost use Rattle.std.specs.List.Sorted.{IsStrictlyIncreasing};
ghost use Rattle.pepa_model.specs.Terms.{LeafNode, term_of, IsTermOf};
ghost use Rattle.pepa_steps.specs.States.{ForEachState};
ghost use Rattle.pepa_steps.specs.ActionRates.{AllFine};
ghost use Rattle.pepa_steps.specs.StateRates.{AnswersRatesBy, rates_of_cooperation, rates_of_hiding};
ghost use Rattle.pepa_steps.specs.Combined.{AnswersCombined, entry_of, target_of, combined};
ghost use Rattle.pepa_steps.specs.Hidings.{hidden_entry};
ghost use Rattle.pepa_steps.specs.Traces.{AreFor, HasList, AnswersLoad, AnswersCoop, AnswersReplaced, AnswersHiding, Ends, EndsReady, activity_node, entries_in};
ghost use Rattle.pepa_steps.specs.ListAnswers.{IsListAnswer};
ghost use Rattle.pepa_steps.specs.declared.entries.Entry.{Entry};

use crate::action_rates::choice_rates;
use crate::buffers::{Buffers, Mark};
use crate::combining::{MOST_STEPS, combine};
use crate::entries::{Derived, Entry, Origin};
use crate::hiding::hide;
use crate::leaf_rates::leaf_rates;
use crate::state_rates::{cooperation_rates, hiding_rates};
use crate::transitions::{StepFault, StepsEnd};
use pepa_model::{Activity, Model, Term};
use pepa_rates::Rate;
use std::alloc::{AllocError, Global};
use std::collections::BTreeMap;

/// What is found of a part: where its entries begin, the place of its mark, and its apparent rates by action type.
#[derive(Debug, Drop)]
pub(crate) struct Found {
    pub(crate) start: usize,
    pub(crate) mark: usize,
    pub(crate) rates: BTreeMap<u32, Rate>,
}

/// Puts the transitions of a term without their targets into the buffers, in derivation order, in place of what they have.
///
/// The buffers are new, or were used for this model alone. The faults are those of `steps`. After an `Err` the buffers have no
/// list.
pub fn load(
    alloc: Global,
    model: &Model,
    term: &Term,
    buffers: &mut Buffers,
) -> Result<(), StepsEnd>
    requires of_model { IsTermOf model.now term.now }
    requires of_buffers { AreFor model.now buffers.old }
    ensures of_buffers { AreFor model.now buffers.new }
    ensures list { ForEachState model.now term.now
        (λ state. IsListAnswer model.now state (entries_in buffers.new) result) }
    ensures loaded { OnOk result (HasList model.now term.now buffers.new) }
{
    model.recall_invariant();
    buffers.entries.clear();
    buffers.origins.clear();
    buffers.marks.clear();
    let found = load_part(alloc, model, term, buffers)?;
    buffers.mark = found.mark;
    Ok(())
}

/// Puts what a part does after the entries that are there.
fn load_part(
    alloc: Global,
    model: &Model,
    term: &Term,
    buffers: &mut Buffers,
) -> Result<Found, StepsEnd>
    requires of_model { IsTermOf model.now term.now }
    requires of_buffers { AreFor model.now buffers.old }
    ensures of_buffers { AreFor model.now buffers.new }
    ensures answers { AnswersLoad model.now (term_of term.now) buffers.old buffers.new result }
{
    model.recall_invariant();
    match term {
        Term::Leaf(leaf) => load_leaf(alloc, model, *leaf, buffers),
        Term::Coop(left, right, set) => {
            let left = load_part(alloc, model, left, buffers)?;
            let right = load_part(alloc, model, right, buffers)?;
            load_cooperation(alloc, model.set(*set), left, right, buffers)
        }
        Term::Hide(inner, set) => {
            let inner = load_part(alloc, model, inner, buffers)?;
            load_hiding(alloc, model.set(*set), inner, buffers)
        }
    }
}

/// Puts what a leaf does after the entries that are there.
fn load_leaf(
    alloc: Global,
    model: &Model,
    leaf: u32,
    buffers: &mut Buffers,
) -> Result<Found, StepsEnd>
    requires leaf { leaf < length model.now.leaves }
    requires of_buffers { AreFor model.now buffers.old }
    ensures of_buffers { AreFor model.now buffers.new }
    ensures answers { AnswersLoad model.now (LeafNode leaf) buffers.old buffers.new result }
{
    model.recall_invariant();
    let start = buffers.entries.len();
    push_activities(model.activities(leaf), &mut buffers.entries)?;
    let rates = leaf_rates(alloc, model, leaf, &mut buffers.kept)?;
    Ok(Found {
        start,
        mark: 0,
        rates,
    })
}

/// Appends the activities of a leaf, as entries.
fn push_activities(activities: &[Activity], entries: &mut Vec<Entry>) -> Result<(), AllocError>
    ensures { OnOk result (entries.new.items
        ≡ entries.old.items ++ map (λ a. entry_of (activity_node a)) activities.now) }
{
    for activity in activities {
        entries.push(Entry {
            action: activity.action,
            signals: 0,
            rate: activity.rate,
        })?;
    }
    Ok(())
}

/// Puts what a cooperation over these types does in place of what its sides do, with which the entries end.
fn load_cooperation(
    alloc: Global,
    types: &[u32],
    left: Found,
    right: Found,
    buffers: &mut Buffers,
) -> Result<Found, StepsEnd>
    requires ascends { IsStrictlyIncreasing types.now }
    requires ready { EndsReady types.now buffers.old.entries.items left right }
    ensures kept { buffers.new.kept ≡ buffers.old.kept }
    ensures answers { (front us vs : List Entry)
        → Ends buffers.old.entries.items front us vs left.start right.start
        → AnswersCoop types.now front us vs left right buffers.old buffers.new result }
{
    if types.is_empty() {
        load_beside(left, right, buffers)
    } else {
        load_joined(alloc, types, left, right, buffers)
    }
}

/// A cooperation over no types has the entries of its sides, unchanged.
fn load_beside(left: Found, right: Found, buffers: &mut Buffers) -> Result<Found, StepsEnd>
    requires { EndsReady [] buffers.old.entries.items left right }
    ensures kept { buffers.new.kept ≡ buffers.old.kept }
    ensures answers { (front us vs : List Entry)
        → Ends buffers.old.entries.items front us vs left.start right.start
        → AnswersCoop [] front us vs left right buffers.old buffers.new result }
{
    let start = left.start;
    let mark = Mark::Beside(left.mark, right.mark, right.start - start);
    let rates = choice_rates(left.rates, right.rates)?;
    if (buffers.entries.len() - start) as u64 > MOST_STEPS {
        return Err(StepsEnd::Fault(StepFault::ListTooLong));
    }
    let mark = push_mark(mark, &mut buffers.marks)?;
    Ok(Found { start, mark, rates })
}

/// The entries of a cooperation take the places of those of its sides.
fn load_joined(
    alloc: Global,
    types: &[u32],
    left: Found,
    right: Found,
    buffers: &mut Buffers,
) -> Result<Found, StepsEnd>
    requires ascends { IsStrictlyIncreasing types.now }
    requires ready { EndsReady types.now buffers.old.entries.items left right }
    ensures kept { buffers.new.kept ≡ buffers.old.kept }
    ensures answers { (front us vs : List Entry)
        → Ends buffers.old.entries.items front us vs left.start right.start
        → AnswersCoop types.now front us vs left right buffers.old buffers.new result }
{
    let rates = cooperation_rates(alloc, types, &left.rates, &right.rates)?;
    let first = buffers.origins.len();
    replace_ends(
        alloc,
        types,
        &left,
        &right,
        &mut buffers.entries,
        &mut buffers.origins,
        &mut buffers.scratch,
    )?;
    let mark = push_mark(
        Mark::Joined(left.mark, right.mark, first),
        &mut buffers.marks,
    )?;
    Ok(Found {
        start: left.start,
        mark,
        rates,
    })
}

/// Appends a mark, and answers its place.
fn push_mark(mark: Mark, marks: &mut Vec<Mark>) -> Result<usize, AllocError>
    ensures place { IfOk result (λ at. at ≡ length marks.old.items) }
    ensures pushed { OnOk result (marks.new.items ≡ marks.old.items ++ mark ∷ []) }
{
    let at = marks.len();
    marks.push(mark)?;
    Ok(at)
}

/// Puts the combination of both sides' entries in their place, and where they come from after the other origins.
fn replace_ends(
    alloc: Global,
    types: &[u32],
    left: &Found,
    right: &Found,
    entries: &mut Vec<Entry>,
    origins: &mut Vec<Origin>,
    scratch: &mut Derived,
) -> Result<(), StepsEnd>
    requires ascends { IsStrictlyIncreasing types.now }
    requires ready { EndsReady types.now entries.old.items left.now right.now }
    ensures { (front us vs : List Entry)
        → Ends entries.old.items front us vs left.now.start right.now.start
        → AnswersReplaced front entries.new.items origins.old.items origins.new.items
        (combined types.now left.now.rates.entries right.now.rates.entries us vs) result }
{
    scratch.entries.clear();
    scratch.origins.clear();
    let ours = &entries.as_slice()[left.start..right.start];
    let theirs = &entries.as_slice()[right.start..];
    combine(
        alloc,
        types,
        ours,
        &left.rates,
        theirs,
        &right.rates,
        scratch,
    )?;
    entries.truncate(left.start);
    entries.extend_from_slice(scratch.entries.as_slice())?;
    origins.extend_from_slice(scratch.origins.as_slice())?;
    Ok(())
}

/// Turns what is hidden, with which the entries end, into what a hiding of these types does.
fn load_hiding(
    alloc: Global,
    types: &[u32],
    inner: Found,
    buffers: &mut Buffers,
) -> Result<Found, StepsEnd>
    requires ascends { IsStrictlyIncreasing types.now }
    requires fine { AllFine inner.rates.entries }
    requires start { inner.start ≤ length buffers.old.entries.items }
    ensures kept { buffers.new.kept ≡ buffers.old.kept }
    ensures answers { AnswersHiding types.now inner buffers.old buffers.new result }
{
    let rates = hiding_rates(alloc, types, &inner.rates)?;
    hide(types, &mut buffers.entries.as_mut_slice()[inner.start..]);
    Ok(Found {
        start: inner.start,
        mark: inner.mark,
        rates,
    })
}
