//! Sets of action types as keys of a table.
ghost use Rattle.std.specs.Prelude.{◌≡◌, nat_eq, IfOk};
ghost use Rattle.std.specs.Cmp.Lexicographic.{pointwise, bytes_decides, nat_list_eq_equiv};
ghost use Rattle.std.specs.Cmp.{partial_equiv_from_equiv};
ghost use Rattle.std.specs.Cmp.Rules.{hashing};
ghost use Rattle.std.specs.Hash as fed;
ghost use Rattle.std.proofs.Common.{ap, rules};

use indexmap::Equivalent;
use std::alloc::{AllocError, Global};
use std::hash::{Hash, Hasher};
use std::marker::Model;

/// The numbers of the action types in a set, ascending. Contracts see it as that list.
#[derive(Drop)]
pub(crate) struct NumberSet {
    numbers: Vec<u32>,
}

impl Model for NumberSet {
    ghost use Rattle.std.specs.Prelude.{ℕ, List};

    ghost Value = { List ℕ };

    ghost view = { λ s. s.numbers.items };
}

impl NumberSet {
    /// A set of these numbers.
    pub(crate) fn make(alloc: Global, numbers: &[u32]) -> Result<NumberSet, AllocError>
        ensures { IfOk result (λ set. set ≡ numbers.now) }
    {
        Ok(NumberSet {
            numbers: Vec::from_slice(alloc, numbers)?,
        })
    }

    /// The set's numbers.
    pub(crate) fn as_slice(&self) -> &[u32]
        ensures { result.now ≡ self.now }
    {
        self.numbers.as_slice()
    }
}

impl PartialEq for NumberSet {
    ghost eq = { pointwise nat_eq };

    ghost laws = { partial_equiv_from_equiv nat_list_eq_equiv };

    fn eq(&self, other: &NumberSet) -> bool {
        self.as_slice() == other.as_slice()
    }
}

impl Eq for NumberSet {
    ghost laws = { nat_list_eq_equiv };
}

impl Hash for NumberSet {
    ghost hash_input = { fed.slice fed.u32 };

    ghost respects_eq = { Prim.search (hashing, rules) };

    fn hash<H: Hasher>(&self, state: &mut H) {
        self.as_slice().hash(state);
    }
}

/// The numbers of a set, to look it up by.
#[derive(Clone, Copy, PartialEq, Eq, Hash)]
pub(crate) struct Numbers<'n> {
    pub(crate) numbers: &'n [u32],
}

impl Equivalent<NumberSet> for Numbers<'_> {
    ghost equivalent = { λ s set. pointwise nat_eq s.numbers.now set };

    ghost respects_hash = { λ s set same. ap (fed.slice fed.u32) ((bytes_decides s.numbers.now set).0 same) };

    ghost respects_eq = { λ s x y. nat_list_eq_equiv.congr s.numbers.now x y };

    fn equivalent(&self, key: &NumberSet) -> bool {
        self.numbers == key.as_slice()
    }
}
