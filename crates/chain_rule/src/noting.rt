//! Notes are made and taken in.
ghost use Rattle.std.specs.Prelude.{◌≡◌, ◌<◌};
ghost use Rattle.intern_core.specs.declared.seat.Phase.TheVariants.{Idle};
ghost use Rattle.chain_rule.specs.Rule.{IsFront};
ghost use Rattle.chain_rule.specs.Passes.{Belongs, Stays};

use crate::desk::Desk;
use crate::meaning::Meaning;
use crate::notes::Note;
use crate::pass::{Pass, advance};
use crate::plays::{Meeting, Noting};
use crate::table::Table;
use intern_core::Phase;
use std::marker::Brand;

/// What the pass has seen, as a note that may go to another thread.
pub fn note<M: Meaning>(table: &Table<M>, pass: &mut Pass<M>) -> Note<M>
    requires own { Belongs pass.old table.now.table_id table.now.setting }
    ensures same { pass.new ≡ pass.old }
    ensures own { result.table_id ≡ table.now.table_id }
    ensures front { result.front ≡ pass.old.view.front }
{
    cut_off(&table.desk, pass)
}

// A note is cut off.
fn cut_off<M: Meaning>(table: &Desk<M>, pass: &mut Pass<M>) -> Note<M>
    requires own { Belongs pass.old table.now.table.shared.table_id table.now.setting }
    ensures same { pass.new ≡ pass.old }
    ensures note { (result.table_id ≡ table.now.table.shared.table_id) × (result.front ≡ pass.old.view.front) }
{
    Note {
        place: table.table.shared.split_seat::<Noting>(&mut pass.place),
    }
}

// A note is taken in, and looked at with the next step.
fn take_in<M: Meaning>(table: &Desk<M>, pass: &mut Pass<M>, note: Note<M>)
    requires own { Belongs pass.old table.now.table.shared.table_id table.now.setting }
    requires note { note.table_id ≡ table.now.table.shared.table_id }
    ensures { (pass.new.table_id ≡ pass.old.table_id) × (pass.new.view ≡ record pass.old.view { met = note.front }) }
{
    let Note { place } = note;
    table
        .table
        .shared
        .join_seat::<Meeting>(&mut pass.place, place);
}

/// The pass has then seen all that the note's had: both fronts are prefixes of its new one.
pub fn meet<M: Meaning>(table: &Table<M>, pass: &mut Pass<M>, note: Note<M>)
    requires own { Belongs pass.old table.now.table_id table.now.setting }
    requires idle { pass.old.view.seat.phase ≡ Idle }
    requires note { note.table_id ≡ table.now.table_id }
    ensures own { Belongs pass.new table.now.table_id table.now.setting }
    ensures old { IsFront pass.old.view.front pass.new.view.front }
    ensures met { IsFront note.front pass.new.view.front }
    ensures mine { pass.new.view.mine ≡ pass.old.view.mine }
    ensures same { pass.new.view.seat ≡ pass.old.view.seat }
    ensures stays { Stays M.lawful M.allowed M.stands table.now.setting pass.new.view }
{
    take_in(&table.desk, pass, note);
    advance::<M, Brand>(&table.desk, pass, &Phase::Idle, 0, 0);
    pass.valid();
}
