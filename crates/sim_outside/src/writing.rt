//! Writing all bytes to a sink.
ghost use Rattle.std.specs.Prelude.{◌≡◌, ◌≤◌, OnOk, OnErr};
ghost use Rattle.sim_outside.specs.Faults.{Rose};
ghost use Rattle.sim_outside.specs.Sink.{WritesAll};
ghost use Rattle.sim_outside.specs.Writes.{OffersAll};

use crate::sink::Sink;
use crate::source::Failed;

/// Writes all of `piece` to `sink`, or fails at the first write that does. It needs no memory.
///
/// Each write is offered all of the piece that isn't taken yet, which is at least one byte. No write comes after one
/// that fails.
pub fn write_all<K: Sink>(sink: &mut K, piece: &[u8]) -> Result<(), Failed>
    ensures told { WritesAll (K.written sink.old) (K.written sink.new) result piece.now }
    ensures writes { OffersAll K.one_write sink.old piece.now result sink.new }
    ensures none_failed { OnOk result (K.faults sink.new ≡ K.faults sink.old) }
    ensures failed { OnErr result (Rose (K.faults sink.old) (K.faults sink.new)) }
    ensures never_falls { K.faults sink.old ≤ K.faults sink.new }
{
    let mut taken = 0;
    while taken < piece.len() {
        taken += sink.write(&piece[taken..])?;
    }
    Ok(())
}
