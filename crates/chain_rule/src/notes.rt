//! What a pass had seen.

use crate::desk::Place;
use crate::meaning::Meaning;
use std::marker::Model;

/// What a pass had seen.
#[derive(Drop)]
pub struct Note<M: Meaning> {
    pub(crate) place: Place<M>,
}

impl<M: Meaning> Model for Note<M> {
    ghost use Rattle.std.specs.Prelude.{◌≡◌, [], false};
    ghost use Rattle.chain_rule.specs.Passes.{Noted};

    ghost Value = { Noted };

    ghost view = { λ n. record { table_id = n.place.table_id; front = n.place.me.0.front } };

    ghost invariant = { λ n. (n.place.me.1 ≡ []) × (n.place.me.0.walks ≡ false) };
}
