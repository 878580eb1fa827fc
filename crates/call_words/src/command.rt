//! The commands of the program.

use sim_replication::Order;
use sim_report::ProbeAsk;
use std::alloc::AllocError;

/// What the program is to do.
#[derive(Debug, Drop)]
pub enum Command {
    /// Print the transitions of a system.
    Steps,
    /// Check a model, and print how many parts it has.
    Check,
    /// Print a model in its normal form.
    Print,
    /// Print what a model's probes are, or what one makes of some events.
    Probe(ProbeAsk),
    /// Run replications of a model.
    Run {
        /// What is ordered.
        order: Order,
        /// The size of the model that is made in place of one that is read, if one is: 1 to 100.
        made: Option<u32>,
    },
    /// Print the made model of this size: 1 to 100.
    Gen(u32),
}

/// Why the words of a call weren't read.
#[derive(Clone, Copy, Debug, PartialEq, Eq)]
pub enum WordsFault {
    /// They are no command.
    Usage,
    /// The memory ran out.
    Memory,
}

impl From<AllocError> for WordsFault {
    ghost use Rattle.call_words.specs.declared.command.WordsFault.TheVariants.{Memory};
    ghost use Rattle.std.specs.Prelude.{◌≡◌};

    ghost from_gives = { λ _ fault. fault ≡ Memory };

    fn from(_error: AllocError) -> WordsFault {
        WordsFault::Memory
    }
}
