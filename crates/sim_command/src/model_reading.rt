//! The model of a text, or its first fault.
ghost use Rattle.std.specs.Prelude.{◌≡◌, ◌≤◌, ◌^◌, length};
ghost use Rattle.sim_command.specs.ModelFaults.{ReadsModel, cause_name};

use pepa_checks::{CheckCause, CheckEnd, check};
use pepa_lexer::{LexFault, Place, tokens};
use pepa_model::Model;
use pepa_reader::{FileFault, read_file};
use sim_report::FaultName;
use std::alloc::Global;

/// Why a text gave no model.
#[derive(Clone, Copy, Debug, PartialEq, Eq)]
pub enum ModelFault {
    /// It has none: its first fault has this name, at this place.
    Refused { place: Place, name: FaultName },
    /// Memory ran out.
    Memory,
}

impl From<LexFault> for ModelFault {
    ghost use Rattle.sim_command.specs.ModelFaults.{fault_from_tokens};

    ghost from_gives = { λ fault named. named ≡ fault_from_tokens fault };

    fn from(fault: LexFault) -> ModelFault {
        match fault {
            LexFault::BadByte(place) => refused(place, FaultName::BadByte),
            LexFault::BadNumber(place) => refused(place, FaultName::BadNumber),
            LexFault::LongName(place) => refused(place, FaultName::LongName),
            LexFault::OpenComment(place) => refused(place, FaultName::OpenComment),
            LexFault::Memory => ModelFault::Memory,
        }
    }
}

impl From<FileFault> for ModelFault {
    ghost use Rattle.sim_command.specs.ModelFaults.{fault_from_file};

    ghost from_gives = { λ fault named. named ≡ fault_from_file fault };

    fn from(fault: FileFault) -> ModelFault {
        match fault {
            FileFault::Expected(place) => refused(place, FaultName::Expected),
            FileFault::TooDeep(place) => refused(place, FaultName::TooDeep),
            FileFault::Array(place) => refused(place, FaultName::Array),
            FileFault::Wildcard(place) => refused(place, FaultName::Wildcard),
            FileFault::Memory => ModelFault::Memory,
        }
    }
}

impl From<CheckEnd> for ModelFault {
    ghost use Rattle.sim_command.specs.ModelFaults.{fault_from_check};

    ghost from_gives = { λ end named. named ≡ fault_from_check end };

    fn from(end: CheckEnd) -> ModelFault {
        match end {
            CheckEnd::Refused { cause, place } => refused(place, name_of(cause)),
            CheckEnd::Memory => ModelFault::Memory,
        }
    }
}

/// The model of a text of at most 2^20 bytes, or its first fault: of its tokens, else of the file that they are, else of the
/// check of this file.
///
/// `Memory` says only that memory ran out.
pub fn read_model(alloc: Global, input: &[u8]) -> Result<Model, ModelFault>
    requires { length input.now ≤ 2 ^ 20 }
    ensures { ReadsModel input.now result }
{
    let tokens = tokens(alloc, input)?;
    let tree = read_file(alloc, tokens.as_slice(), input)?;
    Ok(check(alloc, &tree, tokens.as_slice(), input)?)
}

/// A fault of this name, at this place.
fn refused(place: Place, name: FaultName) -> ModelFault
    ensures { result ≡ ModelFault.Refused place name }
{
    ModelFault::Refused { place, name }
}

/// The name of a cause.
fn name_of(cause: CheckCause) -> FaultName
    ensures { result ≡ cause_name cause }
{
    match cause {
        CheckCause::Unsupported => FaultName::Unsupported,
        CheckCause::Twice => FaultName::Twice,
        CheckCause::UnknownName => FaultName::UnknownName,
        CheckCause::TauInSet => FaultName::TauInSet,
        CheckCause::BadRate => FaultName::BadRate,
        CheckCause::NotSequential => FaultName::NotSequential,
        CheckCause::ModelCycle => FaultName::ModelCycle,
        CheckCause::Unguarded => FaultName::Unguarded,
        CheckCause::TooMany => FaultName::TooMany,
        CheckCause::MixedChoice => FaultName::MixedChoice,
    }
}
