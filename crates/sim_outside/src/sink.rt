//! What bytes are written to.
ghost use Rattle.std.specs.Prelude.{◌≡◌, ℕ, ◌≤◌, Option, List, Result, length, IfOk, OnOk, OnErr};
ghost use Rattle.sim_outside.specs.Faults.{Rose};
ghost use Rattle.sim_outside.specs.Sink.{IsTaken, Writes};
ghost use Rattle.sim_outside.specs.declared.source.Failed.{Failed};

use crate::source::Failed;

/// What bytes are written to.
pub trait Sink {
    // The bytes written so far, where they are told.
    ghost written: { Self → Option (List ℕ) };

    // How many calls have failed, up to 2^64 - 1.
    ghost faults: { Self → ℕ };

    // What one write does: the sink before it, the bytes that it is offered, its answer, and the sink after it.
    ghost one_write: { Self → List ℕ → Result ℕ Failed → Self → Type 0 };

    /// Takes bytes from the front of `piece` and answers how many: at least one, if there is one.
    fn write(&mut self, piece: &[u8]) -> Result<usize, Failed>
        ensures count { IfOk result (IsTaken (length piece.now)) }
        ensures bytes { Writes (written self.old) (written self.new) result piece.now }
        ensures called { one_write self.old piece.now result self.new }
        ensures counted { OnOk result (faults self.new ≡ faults self.old) }
        ensures failed { OnErr result (Rose (faults self.old) (faults self.new)) }
        ensures never_falls { faults self.old ≤ faults self.new };
}
