//! What a replication gives, and what all of them give together.
use pepa_rates::Words64;
use sim_space::Stop;
use sqlite_items::Items;

/// How a replication ended.
#[derive(Clone, Copy, Debug, PartialEq, Eq)]
pub enum Ending {
    /// As many passages ended as the order has.
    Done,
    /// A state was reached that has no transition.
    Deadlock,
    /// As many jumps were taken as the order has.
    JumpLimit,
}

/// A replication that ended.
#[derive(Debug, Drop)]
pub struct Ran {
    /// The lengths of its passages in ticks of 2^-32 time unit, in the order in which they ended.
    pub passages: Words64,
    /// How it ended.
    pub ending: Ending,
}

/// What all replications of an order give.
#[derive(Debug, Drop)]
pub enum Outcome {
    /// Each ended; these are in the order of their numbers, from 1 on.
    Finished(Items<Ran>),
    /// This one is the first that stopped, and for this reason.
    Stopped {
        /// Its number.
        number: u64,
        /// Why it stopped.
        stop: Stop,
    },
}
