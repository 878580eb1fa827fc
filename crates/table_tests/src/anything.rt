//! A meaning under which every key may be interned, and tables of it.
ghost use Rattle.std.specs.Prelude.{◌≡◌, ◌+◌, length, IfSome, []};
ghost use Rattle.intern_core.specs.declared.seat.Phase.TheVariants.{Idle};
ghost use Rattle.chain_rule.specs.Passes.{AreNew, Belongs};

use chain_rule::{Meaning, Pass, Passes, Table};

/// Every key is lawful and may be interned.
#[derive(Drop)]
pub struct Anything;

impl Meaning for Anything {
    ghost lawful = { λ _ _ _. Unit {0} };

    ghost allowed = { λ _ _. Unit {0} };

    ghost stands = { λ _ _ _ _. Unit {0} };

    ghost lawful_stays = { λ _ _ _ _ _. tt };

    ghost stands_stays = { λ _ _ _ _ _ _. tt };
}

/// The last of a table's new passes.
pub fn last_pass(table: &Table<Anything>, passes: &mut Passes<Anything>) -> Option<Pass<Anything>>
    requires { AreNew table.now.table_id table.now.setting passes.old.items }
    ensures own { IfSome result (λ p. Belongs p table.now.table_id table.now.setting) }
    ensures idle { IfSome result (λ p. p.view.seat.phase ≡ Idle) }
    ensures mine { IfSome result (λ p. p.view.mine ≡ []) }
    ensures rest { AreNew table.now.table_id table.now.setting passes.new.items }
{
    passes.pop()
}
