//! What each step tells.
ghost use Rattle.chain_rule.specs.Told.{Tells, TellsStore};

use crate::meaning::Meaning;
use crate::view::View;
use atomic_table::{Join, Play, Split};
use std::marker::{Brand, PhantomData};

/// The phase in which the call of a step begins, where it begins with that step, and the words of an offer, where they are told with
/// it. Each call of a step picks them.
pub trait Beginning {
    ghost use Rattle.std.specs.Prelude.{List};
    ghost use Rattle.intern_core.specs.declared.history.EntryWords.{EntryWords};
    ghost use Rattle.intern_core.specs.declared.seat.Phase.{Phase};

    ghost begins: { Phase };

    ghost told: { List EntryWords };
}

impl Beginning for Brand {
    ghost use Rattle.std.specs.Prelude.{[]};
    ghost use Rattle.intern_core.specs.declared.seat.Phase.TheVariants.{Idle};

    ghost begins = { Idle };

    ghost told = { [] };
}

pub(crate) struct Turning<J> {
    of: PhantomData<J>,
}

impl<M: Meaning, J: Beginning> Play<(), View<M>> for Turning<J> {
    ghost then = { λ st me found now. Tells M.lawful M.allowed M.stands J.begins J.told st me found now };
}

pub(crate) struct Storing<J> {
    of: PhantomData<J>,
}

impl<M: Meaning, J: Beginning> Play<(), View<M>> for Storing<J> {
    ghost then = { λ st me found now. TellsStore M.lawful M.allowed M.stands J.begins J.told st me found now };
}

// A note is cut off.
pub(crate) struct Noting;

impl<M> Split<View<M>> for Noting {
    ghost use Rattle.chain_rule.specs.Splits.{noted};

    ghost left = { λ v. v };

    ghost right = { λ v. noted v.front };
}

// Pass 0 makes one more.
pub(crate) struct Parting;

impl<M> Split<View<M>> for Parting {
    ghost use Rattle.chain_rule.specs.Splits.{giver, newcomer};

    ghost left = { λ v. giver v };

    ghost right = { λ v. newcomer v };
}

// A note is taken in.
pub(crate) struct Meeting;

impl<M> Join<View<M>> for Meeting {
    ghost use Rattle.std.specs.Prelude.{[]};
    ghost use Rattle.chain_rule.specs.Splits.{noted, meets};

    ghost both = { λ v w. meets v w };

    ghost spent = { noted [] };
}
