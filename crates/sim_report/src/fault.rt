//! What can keep the program from an answer.

use pepa_lexer::Place;
use sim_space::Stop;

/// What is wrong with a text that is no model.
#[derive(Clone, Copy, Debug, PartialEq, Eq)]
pub enum FaultName {
    /// A byte begins no token.
    BadByte,
    /// A number has too many digits, none after its point, or a letter or `_` at once after it.
    BadNumber,
    /// A name has more than 64 bytes.
    LongName,
    /// A comment has no end.
    OpenComment,
    /// An item has more than 2,048 tokens.
    TooDeep,
    /// A `[` can't follow.
    Array,
    /// A `*` after a `<` can't follow.
    Wildcard,
    /// A token can't follow.
    Expected,
    /// A limit is passed.
    TooMany,
    /// A name has two lines.
    Twice,
    /// A name has no line.
    UnknownName,
    /// A set has `tau`.
    TauInSet,
    /// A rate has no value in range.
    BadRate,
    /// What has to be sequential has a cooperation or a hiding.
    NotSequential,
    /// A compound constant reaches itself.
    ModelCycle,
    /// A sequential constant reaches itself with no activity between.
    Unguarded,
    /// A component has an active and a passive activity of one type.
    MixedChoice,
    /// A probe line, which isn't supported yet.
    Unsupported,
}

/// What keeps the program from an answer.
#[derive(Clone, Copy, Debug, PartialEq, Eq)]
pub enum Fault {
    /// The memory ran out.
    Memory,
    /// The words of the call are no command.
    Usage,
    /// The model's text is too long.
    TooLong,
    /// The text is no model.
    Model { place: Place, name: FaultName },
    /// A read failed.
    ReadFault,
    /// A write failed.
    WriteFault,
    /// This replication is the first that stopped, and for this reason.
    RunStopped { number: u64, stop: Stop },
    /// The verdict on the first state names this stop.
    StepsStopped { stop: Stop },
    /// The table that workers share has no room.
    TableFull,
}
