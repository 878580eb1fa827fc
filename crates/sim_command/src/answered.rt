//! What a command answers.
ghost use Rattle.sim_command.specs.AnswerForms.{IsFineAnswer, IsRefusalAnswer};

use sim_outside::Bytes;
use sim_report::{Fault, Line, fault_line};
use std::alloc::Global;

/// An answer: its status, the bytes for the output, and the line of a fault, which is empty at status 0.
#[derive(Debug, Drop)]
pub struct Answered {
    pub status: u8,
    pub out: Bytes,
    pub line: Line,
}

/// An answer that writes a text.
pub(crate) fn fine(text: Bytes) -> Answered
    ensures { IsFineAnswer result text }
{
    Answered {
        status: 0,
        out: text,
        line: Line::empty(),
    }
}

/// An answer that writes nothing but a fault's line.
pub(crate) fn refusal(alloc: Global, status: u8, fault: &Fault) -> Answered
    ensures { IsRefusalAnswer result status fault.now }
{
    Answered {
        status,
        out: Bytes::from_vec(Vec::new(alloc)),
        line: fault_line(fault),
    }
}
