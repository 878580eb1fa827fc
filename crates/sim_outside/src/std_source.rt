//! The standard library's readers as sources.
ghost use Rattle.std.specs.Prelude.{◌≡◌, ◌≤◌, None, length, IfOk, OnOk, OnErr};
ghost use Rattle.sim_outside.specs.Faults.{Rose};
ghost use Rattle.sim_outside.specs.Readings.{bytes_given};
ghost use Rattle.sim_outside.specs.Source.{Reads};
ghost use Rattle.sim_outside.specs.StdDevices.{reader_of, read_faults, IsStdRead};

use crate::source::{Failed, Source};
use std::io::Read;

/// A reader of the standard library, such as standard input, as a source. To `Source` it tells no bytes.
///
/// Each read is one call of the reader, of which `IsStdRead` speaks in the standard library's words. An interrupted one
/// is a fault.
#[derive(Drop)]
pub struct StdSource<R> {
    reader: R,
    faults: u64,
}

impl<R> StdSource<R> {
    /// A source that reads from `reader`.
    pub fn make(reader: R) -> StdSource<R>
        ensures reader { reader_of result ≡ reader }
        ensures faults { read_faults result ≡ 0 }
    {
        StdSource { reader, faults: 0 }
    }

    /// How many calls failed, up to 2^64 - 1.
    pub fn faults(&self) -> u64
        ensures { result ≡ read_faults self.now }
    {
        self.faults
    }
}

impl<R: Read> Source for StdSource<R> {
    ghost left = { λ _. None };

    ghost faults = { read_faults };

    ghost one_read = { IsStdRead R.remaining };

    fn read(&mut self, buf: &mut [u8]) -> Result<usize, Failed>
        // What each source ensures.
        ensures count { IfOk result (λ count. count ≤ length buf.old) }
        ensures bytes { Reads None None result buf.new }
        ensures called { IsStdRead R.remaining self.old (length buf.old)
            (bytes_given result buf.new) self.new }
        ensures counted { OnOk result (read_faults self.new ≡ read_faults self.old) }
        ensures failed { OnErr result (Rose (read_faults self.old) (read_faults self.new)) }
        ensures never_falls { read_faults self.old ≤ read_faults self.new }
    {
        match self.reader.read(buf) {
            Ok(count) => Ok(count),
            Err(_) => {
                self.faults = self.faults.saturating_add(1);
                Err(Failed)
            }
        }
    }
}
