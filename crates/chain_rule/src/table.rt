//! A table and its passes.
ghost use Rattle.std.specs.Prelude.{◌≡◌, ℕ, length, IfOk};
ghost use Rattle.intern_core.specs.Kept.{IsShape};
ghost use Rattle.chain_rule.specs.Passes.{AreNew};

use crate::desk::Desk;
use crate::meaning::Meaning;
use crate::opening::open_all;
use crate::pass::Pass;
use intern_core::Shape;
use std::alloc::{AllocError, Global};
use std::marker::Model;

/// The shared words of an interner. Contracts see it as an identity and a setting: its shape and its meaning.
#[derive(Drop)]
pub struct Table<M: Meaning> {
    pub(crate) desk: Desk<M>,
}

impl<M: Meaning> Model for Table<M> {
    ghost use Rattle.chain_rule.specs.Passes.{Board};

    ghost Value = { Board M };

    ghost view = { λ t. record { table_id = t.desk.table.shared.table_id; setting = t.desk.setting } };
}

/// The passes of a table, by their numbers.
pub type Passes<M> = Vec<Pass<M>>;

impl<M: Meaning + Drop> Table<M> {
    /// A table with no entry, and all its passes, numbered from 0, with empty fronts.
    ///
    /// It takes the table's whole memory. After want of it the meaning is dropped.
    #[tactic(auto, using(crate::proofs::NewPasses::new_all))]
    pub fn make(
        alloc: Global,
        meaning: M,
        shape: Shape,
    ) -> Result<(Table<M>, Passes<M>), AllocError>
        requires { IsShape shape }
        ensures setting { IfOk result (λ t.
            (t.0.setting.shape ≡ shape) × (t.0.setting.meaning ≡ meaning)) }
        ensures count { IfOk result (λ t. length t.1.items ≡ shape.passes) }
        ensures passes { IfOk result (λ t. AreNew t.0.table_id t.0.setting t.1.items) }
    {
        let (desk, passes) = open_all(alloc, meaning, shape)?;
        Ok((Table { desk }, passes))
    }
}
