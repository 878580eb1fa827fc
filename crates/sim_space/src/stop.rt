//! Why the work on a model stops.
ghost use Rattle.std.specs.Prelude.{◌≡◌};

use pepa_steps::StepFault;

/// Why the work on a model stopped.
#[derive(Clone, Copy, Debug, PartialEq, Eq)]
pub enum Stop {
    /// An apparent rate is a sum of an active and a passive rate.
    Mixed,
    /// A rate isn't in range.
    Overflow,
    /// A list of transitions is too long.
    ListTooLong,
    /// A passive rate is left, which no active one drives.
    PassiveLeft,
    /// The least common denominator of the rates, or the sum of their weights, isn't in range.
    WeightOverflow,
    /// The time isn't in range.
    TimeOverflow,
    /// Too many numbers were drawn.
    DrawLimit,
}

/// The stop that names the fault of a state's part.
impl From<StepFault> for Stop {
    ghost use Rattle.sim_space.specs.Stops.{stop_of};

    ghost from_gives = { λ fault stop. stop ≡ stop_of fault };

    fn from(fault: StepFault) -> Stop {
        match fault {
            StepFault::Mixed => Stop::Mixed,
            StepFault::Overflow => Stop::Overflow,
            StepFault::ListTooLong => Stop::ListTooLong,
        }
    }
}
