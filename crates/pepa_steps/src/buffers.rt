//! Buffers for what a term does, which are kept between calls.
ghost use Rattle.std.specs.Prelude.{◌≡◌};
ghost use Rattle.pepa_model.specs.PepaModel.{PepaModel};
ghost use Rattle.pepa_steps.specs.Traces.{entries_in, AreFor};

use crate::entries::{Derived, Entry, Origin};
use crate::leaf_rates::LeafRates;
use std::alloc::Global;
use std::collections::BTreeMap;

/// What stands for a cooperation: the places of its sides' marks; and for one over no types how many entries its left side has,
/// else where the origins of its entries begin.
#[derive(Clone, Copy, Debug)]
pub(crate) enum Mark {
    Beside(usize, usize, usize),
    Joined(usize, usize, usize),
}

/// The list of a term without targets, with where its entries come from; and what is known of the model's leaves.
///
/// They are for one model: the leaves' apparent rates are kept from one call of `load` to the next.
#[derive(Drop)]
pub struct Buffers {
    pub(crate) entries: Vec<Entry>,
    pub(crate) origins: Vec<Origin>,
    pub(crate) marks: Vec<Mark>,
    /// The place of the mark of the whole term.
    pub(crate) mark: usize,
    pub(crate) scratch: Derived,
    pub(crate) kept: BTreeMap<u32, LeafRates>,
}

impl Buffers {
    /// Buffers without a list, for any model.
    pub fn new(alloc: Global) -> Buffers
        ensures { (m : PepaModel) → AreFor m result }
    {
        Buffers {
            entries: Vec::new(alloc),
            origins: Vec::new(alloc),
            marks: Vec::new(alloc),
            mark: 0,
            scratch: Derived::new(alloc),
            kept: BTreeMap::new(alloc),
        }
    }

    /// The entries of the list.
    pub fn entries(&self) -> &[Entry]
        ensures { result.now ≡ entries_in self.now }
    {
        self.entries.as_slice()
    }
}
