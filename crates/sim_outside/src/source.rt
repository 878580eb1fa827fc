//! What bytes are read from.
ghost use Rattle.std.specs.Prelude.{◌≡◌, ℕ, ◌≤◌, Option, List, Result, length, IfOk, OnOk, OnErr};
ghost use Rattle.sim_outside.specs.Faults.{Rose};
ghost use Rattle.sim_outside.specs.Source.{Reads};
ghost use Rattle.sim_outside.specs.Readings.{bytes_given};
ghost use Rattle.sim_outside.specs.declared.source.Failed.{Failed};

/// A read or a write has failed.
#[derive(Clone, Copy, Debug, PartialEq, Eq)]
pub struct Failed;

/// What bytes are read from.
pub trait Source {
    // The bytes to come, where they are told.
    ghost left: { Self → Option (List ℕ) };

    // How many calls have failed, up to 2^64 - 1.
    ghost faults: { Self → ℕ };

    // What one read does: the source before it, the room that it is given, the bytes that it gives or that it failed,
    // and the source after it.
    ghost one_read: { Self → ℕ → Result (List ℕ) Failed → Self → Type 0 };

    /// Puts the next bytes at the front of `buf` and answers how many: 0 for a `buf` that is not
    /// empty is the end.
    ///
    /// What stands in `buf` behind them is unspecified, and after `Failed` all of it.
    fn read(&mut self, buf: &mut [u8]) -> Result<usize, Failed>
        ensures count { IfOk result (λ count. count ≤ length buf.old) }
        ensures bytes { Reads (left self.old) (left self.new) result buf.new }
        ensures called { one_read self.old (length buf.old) (bytes_given result buf.new) self.new }
        ensures counted { OnOk result (faults self.new ≡ faults self.old) }
        ensures failed { OnErr result (Rose (faults self.old) (faults self.new)) }
        ensures never_falls { faults self.old ≤ faults self.new };
}
