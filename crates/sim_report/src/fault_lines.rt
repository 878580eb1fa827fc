//! The line of a fault.
ghost use Rattle.std.specs.Prelude.{◌≡◌, ◌++◌, ◌+◌, ◌≤◌, [], length};
ghost use Rattle.sim_report.specs.FaultLine.{fault_text, fault_words, name_text, stop_text};

use crate::fault::{Fault, FaultName};
use crate::line::Line;
use pepa_lexer::Place;
use sim_space::Stop;

/// The line of a fault, with its line feed.
pub fn fault_line(fault: &Fault) -> Line
    ensures { result ≡ fault_text fault.now }
{
    let mut line = words(fault);
    line.push(b'\n');
    line
}

fn words(fault: &Fault) -> Line
    ensures words { result ≡ fault_words fault.now }
    ensures room { length result ≤ 100 }
{
    match fault {
        Fault::Memory => of_text(b"memory"),
        Fault::Usage => of_text(b"usage"),
        Fault::TooLong => of_text(b"model too long"),
        Fault::Model { place, name } => model_words(place, name),
        Fault::ReadFault => of_text(b"read fault"),
        Fault::WriteFault => of_text(b"write fault"),
        Fault::RunStopped { number, stop } => run_words(*number, stop),
        Fault::StepsStopped { stop } => stop_words(stop),
        Fault::TableFull => of_text(b"table full"),
    }
}

fn of_text(text: &[u8]) -> Line
    requires { length text.now ≤ 100 }
    ensures { result ≡ text.now }
{
    let mut line = Line::empty();
    line.push_text(text);
    line
}

fn model_words(place: &Place, name: &FaultName) -> Line
    ensures words { result ≡ fault_words (Fault.Model place.now name.now) }
    ensures room { length result ≤ 100 }
{
    let mut line = of_text(b"model ");
    line.push_decimal(u64::from(place.line));
    line.push(b':');
    line.push_decimal(u64::from(place.column));
    line.push(b' ');
    line.push_text(fault_name(name));
    line
}

fn fault_name(name: &FaultName) -> &[u8]
    ensures name { result.now ≡ name_text name.now }
    ensures room { length result.now ≤ 20 }
{
    match name {
        FaultName::BadByte => b"bad byte",
        FaultName::BadNumber => b"bad number",
        FaultName::LongName => b"long name",
        FaultName::OpenComment => b"open comment",
        FaultName::TooDeep => b"too deep",
        FaultName::Array => b"array",
        FaultName::Wildcard => b"wildcard",
        FaultName::Expected => b"expected",
        FaultName::TooMany => b"too many",
        FaultName::Twice => b"defined twice",
        FaultName::UnknownName => b"unknown name",
        FaultName::TauInSet => b"tau in set",
        FaultName::BadRate => b"bad rate",
        FaultName::NotSequential => b"not sequential",
        FaultName::ModelCycle => b"model cycle",
        FaultName::Unguarded => b"unguarded",
        FaultName::MixedChoice => b"mixed choice",
        FaultName::Unsupported => b"unsupported",
    }
}

fn run_words(number: u64, stop: &Stop) -> Line
    ensures words { result ≡ fault_words (Fault.RunStopped number stop.now) }
    ensures room { length result ≤ 100 }
{
    let mut line = of_text(b"replication ");
    line.push_decimal(number);
    line.push_text(b" stopped: ");
    line.push_text(stop_name(stop));
    line
}

fn stop_words(stop: &Stop) -> Line
    ensures words { result ≡ fault_words (Fault.StepsStopped stop.now) }
    ensures room { length result ≤ 100 }
{
    let mut line = of_text(b"stopped: ");
    line.push_text(stop_name(stop));
    line
}

fn stop_name(stop: &Stop) -> &[u8]
    ensures name { result.now ≡ stop_text stop.now }
    ensures room { length result.now ≤ 20 }
{
    match stop {
        Stop::Mixed => b"mixed",
        Stop::Overflow => b"overflow",
        Stop::ListTooLong => b"list too long",
        Stop::PassiveLeft => b"passive left",
        Stop::WeightOverflow => b"weight overflow",
        Stop::TimeOverflow => b"time overflow",
        Stop::DrawLimit => b"draw limit",
    }
}
