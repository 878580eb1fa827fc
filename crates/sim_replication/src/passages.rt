//! The passages of a replication.
ghost use Rattle.std.specs.Prelude.{◌≡◌, OnOk};
ghost use Rattle.sim_replication.specs.Signals.{after_signals, after_start, after_stop, no_passages};

use pepa_rates::Words64;
use sqlite_items::Items;
use std::alloc::{AllocError, Global};

/// The passages that ended, and since when one is running.
///
/// A passage begins at a `start` where none runs, and ends at the next `stop`.
#[derive(Debug, Drop)]
pub struct Passages {
    /// When the running one began, in ticks.
    pub since: Option<u64>,
    /// The lengths of those that ended, in ticks.
    pub ended: Words64,
}

impl Passages {
    /// None has ended, and none is running.
    pub fn new(alloc: Global) -> Passages
        ensures { result ≡ no_passages }
    {
        Passages {
            since: None,
            ended: Items::new(alloc),
        }
    }

    /// Handles the signals of a jump at this time: first `stop`, which is bit 1, and then `start`, which is bit 0.
    ///
    /// The error says only that memory ran out.
    pub fn hear(&mut self, signals: u64, time: u64) -> Result<(), AllocError>
        ensures { OnOk result (self.new ≡ after_signals self.old signals time) }
    {
        if signals / 2 % 2 == 1 {
            self.stop(time)?;
        }
        if signals % 2 == 1 {
            self.start(time);
        }
        Ok(())
    }

    fn stop(&mut self, time: u64) -> Result<(), AllocError>
        ensures { OnOk result (self.new ≡ after_stop self.old time) }
    {
        if let Some(since) = self.since {
            self.ended.push(time.saturating_sub(since))?;
            self.since = None;
        }
        Ok(())
    }

    fn start(&mut self, time: u64)
        ensures { self.new ≡ after_start self.old time }
    {
        if self.since.is_none() {
            self.since = Some(time);
        }
    }
}
