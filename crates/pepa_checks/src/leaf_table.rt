//! The leaves of a file in a table.
ghost use Rattle.std.specs.Prelude.{◌≡◌, ◌≤◌, [], ◌∷◌, false, length, map, IfOk, OnOk};
ghost use Rattle.pepa_model.specs.Expression.{expression_of};
ghost use Rattle.pepa_resolver.specs.NamedTypes.{named_of};
ghost use Rattle.pepa_checks.specs.Structure.{has_system};
ghost use Rattle.pepa_model.specs.Expression.{Const};
ghost use Rattle.pepa_checks.specs.Outline.{expression_in};
ghost use Rattle.pepa_checks.specs.LeafTables.{AddsNode, place_by, retargeted as retargeted_by, renumbered};

use crate::expressions::{Candidate, Head};
use crate::sequential::sequential_of;
use crate::summand::Summand;
use indexmap::IndexSet;
use pepa_model::{Sequential, SequentialList};
use sqlite_items::Items;
use std::alloc::{AllocError, Global};

/// The leaves so far, each at the place of its number.
#[derive(Drop)]
pub(crate) struct LeafTable {
    /// The numbers of their nodes.
    pub(crate) numbers: IndexSet<u32>,
    pub(crate) expressions: SequentialList,
    /// The operands of each one's choice, as those of a candidate.
    pub(crate) operands: Items<Items<Summand>>,
}

impl LeafTable {
    /// A table without a leaf.
    pub(crate) fn new(alloc: Global) -> LeafTable
        ensures numbers { result.numbers.keys ≡ [] }
        ensures expressions { result.expressions ≡ [] }
        ensures operands { result.operands ≡ [] }
    {
        LeafTable {
            numbers: IndexSet::new(alloc),
            expressions: Items::new(alloc),
            operands: Items::new(alloc),
        }
    }

    /// Puts an expression behind the others, by the number of its node, unless it is there.
    fn add(
        &mut self,
        number: u32,
        expression: Sequential,
        operands: Items<Summand>,
    ) -> Result<(), AllocError>
        ensures { OnOk result (AddsNode self.old self.new number (expression_of expression) operands) }
    {
        if self.numbers.insert(number)? {
            self.expressions.push(expression)?;
            self.operands.push(operands)?;
        }
        Ok(())
    }

    /// Puts a sequential constant behind the others, unless it is there.
    pub(crate) fn add_head(&mut self, head: Head) -> Result<(), AllocError>
        ensures { OnOk result (AddsNode self.old self.new head.number
            (Const head.constant) head.operands) }
    {
        let Head {
            constant,
            number,
            operands,
        } = head;
        self.add(number, Sequential::Constant(constant), operands)
    }

    /// Puts the expression of a candidate behind the others, unless it is there.
    pub(crate) fn add_candidate(
        &mut self,
        alloc: Global,
        candidate: Candidate,
    ) -> Result<(), AllocError>
        requires { has_system (named_of candidate.process.now) ≡ false }
        ensures { OnOk result (AddsNode self.old self.new candidate.entry.number
            (expression_in (named_of candidate.entry.process.now)) candidate.entry.operands) }
    {
        let Candidate {
            process,
            number,
            operands,
        } = candidate;
        if self.numbers.contains(&number) {
            return Ok(());
        }
        let expression = sequential_of(alloc, process)?;
        self.add(number, expression, operands)
    }

    /// The number of the leaf with this node, or 0 if there is none.
    fn place(&self, node: u32) -> u32
        requires { length self.now.numbers.keys ≤ 65535 }
        ensures { result ≡ place_by self.now.numbers.keys node }
    {
        match self.numbers.get_index_of(&node) {
            Some(place) => place as u32,
            None => 0,
        }
    }

    /// An operand with the number of a leaf in place of a node's.
    fn retargeted(&self, operand: &Summand) -> Summand
        requires { length self.now.numbers.keys ≤ 65535 }
        ensures { result ≡ retargeted_by self.now.numbers.keys operand.now }
    {
        match operand {
            Summand::Constant(constant) => Summand::Constant(*constant),
            Summand::Activity {
                at,
                action,
                rate,
                target,
            } => Summand::Activity {
                at: *at,
                action: *action,
                rate: *rate,
                target: self.place(*target),
            },
        }
    }

    /// The operands from the first one on, with the numbers of leaves in place of nodes'.
    fn with_leaf_numbers(
        &self,
        alloc: Global,
        operands: &[Summand],
    ) -> Result<Items<Summand>, AllocError>
        requires { length self.now.numbers.keys ≤ 65535 }
        ensures { IfOk result (λ list. list ≡ renumbered self.now.numbers.keys operands.now) }
    {
        let mut list = Items::new(alloc);
        let mut left = operands.len();
        while left > 0 {
            left -= 1;
            list.push(self.retargeted(&operands[left]))?;
        }
        Ok(list)
    }

    /// The operands of each leaf's choice.
    pub(crate) fn summands(&self, alloc: Global) -> Result<Items<Items<Summand>>, AllocError>
        requires { length self.now.numbers.keys ≤ 65535 }
        ensures { IfOk result (λ lists. lists
            ≡ map (renumbered self.now.numbers.keys) self.now.operands) }
    {
        let mut lists = Items::new(alloc);
        for operands in self.operands.as_slice() {
            lists.push(self.with_leaf_numbers(alloc, operands.as_slice())?)?;
        }
        Ok(lists)
    }
}
