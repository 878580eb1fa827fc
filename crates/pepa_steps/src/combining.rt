//! The list of a cooperation, from the lists of its sides. Nothing here knows of terms.
ghost use Rattle.std.specs.Prelude.{◌≡◌, ◌≤◌, ◌∷◌, [], ◌++◌, List, ℕ, map, length, OnOk, IfOk};
ghost use Rattle.std.specs.List.Sorted.{IsStrictlyIncreasing};
ghost use Rattle.pepa_rates.specs.Share.{SameKind};
ghost use Rattle.pepa_steps.specs.Moves.{Move, move, carry, outside_set, joint_of, joints_with, joint_moves};
ghost use Rattle.pepa_steps.specs.Combined.{numbered, combined, rate_at, AddsTo, AddsJoint, IsJointEntry, AnswersCombined, AreRatedBy, IsRatedBy, AreRatedFor, AreInRangeBy};
ghost use Rattle.pepa_steps.specs.JointSteps.{HasPartners, AddsPartner, pair_count, places_from};
ghost use Rattle.pepa_steps.specs.declared.entries.Origin.TheVariants as origin;

use crate::entries::{Derived, Entry, Origin};
use crate::sets::is_in;
use crate::transitions::{StepFault, StepsEnd};
use fault_ends::End;
use pepa_model::Words32;
use pepa_rates::{Rate, RateOverflow};
use std::alloc::{AllocError, Global};
use std::collections::BTreeMap;

/// The most derivations that a part may have.
pub(crate) const MOST_STEPS: u64 = 65_535;

/// Appends the entries of a cooperation over these types, with where they come from: those of the left side alone, of the right
/// side alone, and of both together at their share of the apparent rates, which are given by action type.
///
/// It answers `ListTooLong` where there are more than 65,535 entries, and else `Overflow` where the rate of one isn't in range.
/// The rates of the sides' entries are in range, and each entry by a type in the set has an apparent rate of its own kind.
pub fn combine(
    alloc: Global,
    types: &[u32],
    ours: &[Entry],
    our_rates: &BTreeMap<u32, Rate>,
    theirs: &[Entry],
    their_rates: &BTreeMap<u32, Rate>,
    derived: &mut Derived,
) -> Result<(), StepsEnd>
    requires ascends { IsStrictlyIncreasing types.now }
    requires ours_short { length ours.now ≤ 65535 }
    requires theirs_short { length theirs.now ≤ 65535 }
    requires ours_rated { AreRatedBy types.now our_rates.now.entries ours.now }
    requires theirs_rated { AreRatedBy types.now their_rates.now.entries theirs.now }
    requires ours_range { AreInRangeBy ours.now }
    requires theirs_range { AreInRangeBy theirs.now }
    ensures { AnswersCombined derived.old derived.new
        (combined types.now our_rates.now.entries their_rates.now.entries ours.now theirs.now)
        result }
{
    let alone = alone_count(types, ours) + alone_count(types, theirs);
    let partners = partners_by_action(alloc, types, theirs)?;
    let joint = joint_count(types, ours, &partners);
    if alone + joint > MOST_STEPS {
        return Err(StepsEnd::Fault(StepFault::ListTooLong));
    }
    push_left(types, ours, derived)?;
    push_right(types, theirs, derived)?;
    push_joint(
        types,
        ours,
        our_rates,
        theirs,
        their_rates,
        &partners,
        derived,
    )?;
    Ok(())
}

/// How many entries are by types outside the set.
fn alone_count(types: &[u32], entries: &[Entry]) -> u64
    requires ascends { IsStrictlyIncreasing types.now }
    requires short { length entries.now ≤ 65535 }
    ensures { result ≡ length (outside_set types.now (numbered 0 entries.now)) }
{
    let mut count: u64 = 0;
    for (_index, entry) in entries.iter().enumerate() {
        if !is_in(types, entry.action) {
            count += 1;
        }
    }
    count
}

/// The places of the right side's entries of each type in the set: the partners of the left side's entries.
fn partners_by_action(
    alloc: Global,
    types: &[u32],
    entries: &[Entry],
) -> Result<BTreeMap<u32, Words32>, AllocError>
    requires ascends { IsStrictlyIncreasing types.now }
    requires short { length entries.now ≤ 65535 }
    ensures { IfOk result
        (λ partners. HasPartners types.now (numbered 0 entries.now) partners.entries) }
{
    let mut partners: BTreeMap<u32, Words32> = BTreeMap::new(alloc);
    for (index, entry) in entries.iter().enumerate() {
        if is_in(types, entry.action) {
            add_partner(alloc, &mut partners, entry.action, index as u32)?;
        }
    }
    Ok(partners)
}

/// Adds an index to those of a type.
fn add_partner(
    alloc: Global,
    partners: &mut BTreeMap<u32, Words32>,
    action: u32,
    index: u32,
) -> Result<(), AllocError>
    ensures { OnOk result (AddsPartner partners.old.entries partners.new.entries action index) }
{
    if let Some(indices) = partners.get_mut(&action) {
        return indices.push(index);
    }
    let mut indices = Words32::new(alloc);
    indices.push(index)?;
    partners.insert(action, indices)?;
    Ok(())
}

/// How many entries both sides of a cooperation make together, where these are the partners of the left side's entries.
fn joint_count(types: &[u32], ours: &[Entry], partners: &BTreeMap<u32, Words32>) -> u64
    requires ascends { IsStrictlyIncreasing types.now }
    requires short { length ours.now ≤ 65535 }
    requires few { (vs : List (Move ℕ))
        × HasPartners types.now vs partners.now.entries × (length vs ≤ 65535) }
    ensures { (vs : List (Move ℕ)) → HasPartners types.now vs partners.now.entries
        → result ≡ pair_count types.now (numbered 0 ours.now) vs }
{
    let mut count: u64 = 0;
    for (_index, entry) in ours.iter().enumerate() {
        if is_in(types, entry.action) {
            if let Some(indices) = partners.get(&entry.action) {
                count += indices.len() as u64;
            }
        }
    }
    count
}

/// Appends an entry, with where it comes from.
fn push_one(derived: &mut Derived, entry: Entry, origin: Origin) -> Result<(), AllocError>
    ensures entries { OnOk result
        (derived.new.entries.items ≡ derived.old.entries.items ++ entry ∷ []) }
    ensures origins { OnOk result
        (derived.new.origins.items ≡ derived.old.origins.items ++ origin ∷ []) }
{
    let Entry {
        action,
        signals,
        rate,
    } = entry;
    derived.entries.push(Entry {
        action,
        signals,
        rate,
    })?;
    derived.origins.push(origin)?;
    Ok(())
}

/// Appends what the left side does alone.
fn push_left(types: &[u32], ours: &[Entry], derived: &mut Derived) -> Result<(), AllocError>
    requires ascends { IsStrictlyIncreasing types.now }
    requires short { length ours.now ≤ 65535 }
    ensures { OnOk result (AddsTo derived.old derived.new
        (map (carry origin.Left) (outside_set types.now (numbered 0 ours.now)))) }
{
    for (index, entry) in ours.iter().enumerate() {
        if !is_in(types, entry.action) {
            push_one(derived, *entry, Origin::Left(index as u32))?;
        }
    }
    Ok(())
}

/// Appends what the right side does alone.
fn push_right(types: &[u32], theirs: &[Entry], derived: &mut Derived) -> Result<(), AllocError>
    requires ascends { IsStrictlyIncreasing types.now }
    requires short { length theirs.now ≤ 65535 }
    ensures { OnOk result (AddsTo derived.old derived.new
        (map (carry origin.Right) (outside_set types.now (numbered 0 theirs.now)))) }
{
    for (index, entry) in theirs.iter().enumerate() {
        if !is_in(types, entry.action) {
            push_one(derived, *entry, Origin::Right(index as u32))?;
        }
    }
    Ok(())
}

/// Appends what both sides do together, in the order of the left side's entries, and then of the right side's.
fn push_joint(
    types: &[u32],
    ours: &[Entry],
    our_rates: &BTreeMap<u32, Rate>,
    theirs: &[Entry],
    their_rates: &BTreeMap<u32, Rate>,
    partners: &BTreeMap<u32, Words32>,
    derived: &mut Derived,
) -> Result<(), End<RateOverflow>>
    requires ascends { IsStrictlyIncreasing types.now }
    requires ours_short { length ours.now ≤ 65535 }
    requires ours_rated { AreRatedBy types.now our_rates.now.entries ours.now }
    requires theirs_rated { AreRatedBy types.now their_rates.now.entries theirs.now }
    requires partners { HasPartners types.now (numbered 0 theirs.now) partners.now.entries }
    ensures { AddsJoint derived.old derived.new
        (joint_moves origin.Both types.now
        (rate_at our_rates.now.entries) (rate_at their_rates.now.entries)
        (numbered 0 ours.now) (numbered 0 theirs.now)) result }
{
    for (index, entry) in ours.iter().enumerate() {
        if is_in(types, entry.action) {
            if let Some(indices) = partners.get(&entry.action) {
                push_partners(
                    *entry,
                    index as u32,
                    our_rates,
                    theirs,
                    their_rates,
                    indices,
                    derived,
                )?;
            }
        }
    }
    Ok(())
}

/// Appends what one entry of the left side does with the right side's entries at these places.
fn push_partners(
    entry: Entry,
    place: u32,
    our_rates: &BTreeMap<u32, Rate>,
    theirs: &[Entry],
    their_rates: &BTreeMap<u32, Rate>,
    indices: &Words32,
    derived: &mut Derived,
) -> Result<(), End<RateOverflow>>
    requires ours_rated { IsRatedBy our_rates.now.entries entry }
    requires theirs_rated { AreRatedFor entry.action their_rates.now.entries theirs.now }
    requires places { indices.now ≡ places_from 0 entry.action (numbered 0 theirs.now) }
    ensures { AddsJoint derived.old derived.new
        (joints_with origin.Both (rate_at our_rates.now.entries) (rate_at their_rates.now.entries)
        (numbered 0 theirs.now) (move entry.action entry.signals entry.rate place)) result }
{
    // A side without an apparent rate of the action has no entry by it.
    let Some(our_rate) = our_rates.get(&entry.action) else {
        return Ok(());
    };
    let Some(their_rate) = their_rates.get(&entry.action) else {
        return Ok(());
    };
    for index in indices.as_slice() {
        let other = theirs[*index as usize];
        let both = joint_entry(&entry, our_rate, &other, their_rate)?;
        push_one(derived, both, Origin::Both(place, *index))?;
    }
    Ok(())
}

/// What two entries do together, where these are the sides' apparent rates of their action.
fn joint_entry(
    entry: &Entry,
    our_rate: &Rate,
    other: &Entry,
    their_rate: &Rate,
) -> Result<Entry, End<RateOverflow>>
    requires ours { SameKind entry.now.rate our_rate.now }
    requires theirs { SameKind other.now.rate their_rate.now }
    ensures { IsJointEntry entry.now our_rate.now other.now their_rate.now result }
{
    let rate = Rate::share(&entry.rate, our_rate, &other.rate, their_rate).map_err(End::Fault)?;
    Ok(Entry {
        action: entry.action,
        signals: entry.signals | other.signals,
        rate,
    })
}
