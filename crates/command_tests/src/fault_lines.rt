//! The line of each fault.

use pepa_lexer::Place;
use sim_report::{Fault, FaultName, Line, fault_line};
use sim_space::Stop;

fn fault_at(line: u32, column: u32) -> Fault {
    Fault::Model {
        place: Place { line, column },
        name: FaultName::Unsupported,
    }
}

fn named(name: FaultName) -> Fault {
    Fault::Model {
        place: Place { line: 2, column: 7 },
        name,
    }
}

fn stopped(stop: Stop) -> Fault {
    Fault::StepsStopped { stop }
}

#[test]
fn names_each_fault_of_a_model(rt: HostRuntime) {
    let table = [
        (FaultName::BadByte, "model 2:7 bad byte\n"),
        (FaultName::BadNumber, "model 2:7 bad number\n"),
        (FaultName::LongName, "model 2:7 long name\n"),
        (FaultName::OpenComment, "model 2:7 open comment\n"),
        (FaultName::TooDeep, "model 2:7 too deep\n"),
        (FaultName::Array, "model 2:7 array\n"),
        (FaultName::Wildcard, "model 2:7 wildcard\n"),
        (FaultName::Expected, "model 2:7 expected\n"),
        (FaultName::TooMany, "model 2:7 too many\n"),
        (FaultName::Twice, "model 2:7 defined twice\n"),
        (FaultName::UnknownName, "model 2:7 unknown name\n"),
        (FaultName::TauInSet, "model 2:7 tau in set\n"),
        (FaultName::BadRate, "model 2:7 bad rate\n"),
        (FaultName::NotSequential, "model 2:7 not sequential\n"),
        (FaultName::ModelCycle, "model 2:7 model cycle\n"),
        (FaultName::Unguarded, "model 2:7 unguarded\n"),
        (FaultName::MixedChoice, "model 2:7 mixed choice\n"),
        (FaultName::Unsupported, "model 2:7 unsupported\n"),
    ];
    for (name, text) in table {
        assert_eq!(rt; fault_line(&named(name)).as_slice(), text.as_bytes());
    }
}

#[test]
fn tells_each_fault(rt: HostRuntime) {
    let table = [
        (Fault::Memory, "memory\n"),
        (Fault::Usage, "usage\n"),
        (Fault::TooLong, "model too long\n"),
        (fault_at(1, 1), "model 1:1 unsupported\n"),
        (fault_at(10, 305), "model 10:305 unsupported\n"),
        (fault_at(4294967295, 0), "model 4294967295:0 unsupported\n"),
        (Fault::ReadFault, "read fault\n"),
        (Fault::WriteFault, "write fault\n"),
        (stopped(Stop::Mixed), "stopped: mixed\n"),
        (stopped(Stop::Overflow), "stopped: overflow\n"),
        (stopped(Stop::ListTooLong), "stopped: list too long\n"),
        (stopped(Stop::PassiveLeft), "stopped: passive left\n"),
        (stopped(Stop::WeightOverflow), "stopped: weight overflow\n"),
        (stopped(Stop::TimeOverflow), "stopped: time overflow\n"),
        (stopped(Stop::DrawLimit), "stopped: draw limit\n"),
    ];
    for (fault, text) in table {
        assert_eq!(rt; fault_line(&fault).as_slice(), text.as_bytes());
    }
    assert!(rt; Line::empty().as_slice().is_empty());
}
