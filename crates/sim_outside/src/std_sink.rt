//! The standard library's writers as sinks.
ghost use Rattle.std.specs.Prelude.{◌≡◌, ◌<◌, ◌≤◌, ◌↔◌, IsTrue, None, length, IfOk, OnOk, OnErr};
ghost use Rattle.sim_outside.specs.Faults.{Rose};
ghost use Rattle.sim_outside.specs.Sink.{IsTaken, Writes};
ghost use Rattle.sim_outside.specs.StdDevices.{writer_of, write_faults, IsStdWrite};

use crate::sink::Sink;
use crate::source::Failed;
use std::io::Write;

/// A writer of the standard library, such as standard output, as a sink. To `Sink` it tells no bytes.
///
/// Each write is one call of the writer, of which `IsStdWrite` speaks in the standard library's words, and is flushed.
/// An interrupted one is a fault.
#[derive(Drop)]
pub struct StdSink<W> {
    writer: W,
    faults: u64,
}

impl<W> StdSink<W> {
    /// A sink that writes to `writer`.
    pub fn make(writer: W) -> StdSink<W>
        ensures writer { writer_of result ≡ writer }
        ensures faults { write_faults result ≡ 0 }
    {
        StdSink { writer, faults: 0 }
    }

    /// How many calls failed, up to 2^64 - 1.
    pub fn faults(&self) -> u64
        ensures { result ≡ write_faults self.now }
    {
        self.faults
    }
}

impl<W: Write> Sink for StdSink<W> {
    ghost written = { λ _. None };

    ghost faults = { write_faults };

    ghost one_write = { IsStdWrite W.contents };

    /// Each write is flushed, so that no byte it took stays in a buffer of the writer.
    fn write(&mut self, piece: &[u8]) -> Result<usize, Failed>
        // What each sink ensures.
        ensures count { IfOk result (IsTaken (length piece.now)) }
        ensures bytes { Writes None None result piece.now }
        ensures called { IsStdWrite W.contents self.old piece.now result self.new }
        ensures counted { OnOk result (write_faults self.new ≡ write_faults self.old) }
        ensures failed { OnErr result (Rose (write_faults self.old) (write_faults self.new)) }
        ensures never_falls { write_faults self.old ≤ write_faults self.new }
    {
        match self.writer.write(piece) {
            Ok(count) if is_taken(count, piece) && self.writer.flush().is_ok() => Ok(count),
            _ => {
                self.faults = self.faults.saturating_add(1);
                Err(Failed)
            }
        }
    }
}

// A writer that takes nothing of a piece that is not empty will take no more.
fn is_taken(count: usize, piece: &[u8]) -> bool
    ensures { IsTrue result ↔ (0 < length piece.now → 0 < count) }
{
    count > 0 || piece.is_empty()
}
