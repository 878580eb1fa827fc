//! What is ordered of a run.
ghost use Rattle.std.specs.Prelude.{IsTrue, ◌↔◌};
ghost use Rattle.sim_replication.specs.Orders.{IsOrderInRange, IsUpTo};

/// What is ordered of a run. The ranges are those that [`Order::is_in_range`] tests.
#[derive(Clone, Copy, Debug, PartialEq, Eq)]
pub struct Order {
    /// The seed of the random numbers.
    pub seed: u64,
    /// How many replications: 1 to 1,000,000.
    pub runs: u64,
    /// How many passages end a replication: 1 to 1,000,000, and at most 10,000,000 in all replications together.
    pub passages: u64,
    /// How many jumps a replication takes at most: 1 to 1,000,000,000.
    pub jumps: u64,
    /// How many workers: 1 to 64.
    pub workers: u32,
    /// The nodes of a shared table: 8 to 4,194,304.
    pub table: u32,
    /// The entries of the lists in a shared table: 8 to 16,777,216.
    pub entries: u32,
    /// The width of a bin of the histogram, in whole time units: 1 to 1,000,000.
    pub bin: u32,
    /// How many bins the histogram has: 1 to 10,000.
    pub bins: u32,
}

impl Order {
    /// Whether every number is in its range, and all replications together have at most 10,000,000 passages.
    pub fn is_in_range(&self) -> bool
        ensures { IsTrue result ↔ IsOrderInRange self.now }
    {
        if !is_up_to(self.runs, 1_000_000) || !is_up_to(self.passages, 1_000_000) {
            return false;
        }
        if self.runs * self.passages > 10_000_000 || !is_up_to(self.jumps, 1_000_000_000) {
            return false;
        }
        if self.table < 8 || self.table > 4_194_304 {
            return false;
        }
        if self.entries < 8 || self.entries > 16_777_216 {
            return false;
        }
        if !is_up_to(u64::from(self.workers), 64) {
            return false;
        }
        is_up_to(u64::from(self.bin), 1_000_000) && is_up_to(u64::from(self.bins), 10_000)
    }
}

fn is_up_to(number: u64, most: u64) -> bool
    ensures { IsTrue result ↔ IsUpTo number most }
{
    1 <= number && number <= most
}
