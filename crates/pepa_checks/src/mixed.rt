//! The first mixed activity.
ghost use Rattle.std.specs.Prelude.{◌≡◌, IfOk, MatchOption};
ghost use Rattle.pepa_model.specs.PepaModel.{AreUnmixed};
ghost use Rattle.pepa_checks.specs.MixedLists.{is_passive as is_passive_rate, activities, IsFirstMixedOf, HaveNoMixed, IsFirstMixedIn};

use crate::summand::Performed;
use indexmap::IndexMap;
use pepa_rates::Rate;
use sqlite_items::Items;
use std::alloc::{AllocError, Global};

/// Whether a rate is passive.
fn is_passive(rate: Rate) -> bool
    ensures { result ≡ is_passive_rate rate }
{
    match rate {
        Rate::Active(_) => false,
        Rate::Passive(_) => true,
    }
}

/// Where the first mixed activity of a leaf is written.
///
/// The map has the kind of the first activity of each type. Up to the first mixed one, the others of the type have the same.
fn first_mixed_of(alloc: Global, list: &[Performed]) -> Result<Option<usize>, AllocError>
    ensures { IfOk result (λ found. MatchOption found (AreUnmixed (activities list.now))
        (IsFirstMixedOf list.now)) }
{
    let mut kinds = IndexMap::new(alloc);
    for performed in list {
        let action = performed.activity.action;
        let passive = is_passive(performed.activity.rate);
        match kinds.get(&action).copied() {
            Some(first) => {
                if first != passive {
                    return Ok(Some(performed.at));
                }
            }
            None => {
                kinds.insert(action, passive)?;
            }
        }
    }
    Ok(None)
}

/// Where the first mixed activity of the first leaf that has one is written.
pub(crate) fn first_mixed(
    alloc: Global,
    lists: &[Items<Performed>],
) -> Result<Option<usize>, AllocError>
    ensures { IfOk result (λ found. MatchOption found (HaveNoMixed lists.now)
        (IsFirstMixedIn lists.now)) }
{
    for number in 0..lists.len() {
        if let Some(at) = first_mixed_of(alloc, lists[number].as_slice())? {
            return Ok(Some(at));
        }
    }
    Ok(None)
}
