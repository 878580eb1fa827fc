//! What holds between any two steps.

use crate::meaning::{Meaning, Setting};
use crate::view::View;
use atomic_table::TableRule;

/// The rule of the table: there is one history.
pub struct Chain;

impl<M: Meaning> TableRule<(), View<M>, Setting<M>> for Chain {
    ghost use Rattle.chain_rule.specs.Rule.{Ruled, first_view};

    ghost holds = { λ key s. Ruled M.lawful M.allowed M.stands key s };

    ghost first = { λ key. first_view key };
}
