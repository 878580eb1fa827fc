//! The lines of faults of a run.
use sim_report::{Fault, fault_line};
use sim_space::Stop;

fn stopped(number: u64, stop: Stop) -> Fault {
    Fault::RunStopped { number, stop }
}

#[test]
fn tells_faults_of_a_run(rt: HostRuntime) {
    for (fault, text) in [
        (
            stopped(1, Stop::PassiveLeft),
            "replication 1 stopped: passive left\n",
        ),
        (
            stopped(1000, Stop::DrawLimit),
            "replication 1000 stopped: draw limit\n",
        ),
        (
            stopped(0, Stop::TimeOverflow),
            "replication 0 stopped: time overflow\n",
        ),
        (
            stopped(18446744073709551615, Stop::WeightOverflow),
            "replication 18446744073709551615 stopped: weight overflow\n",
        ),
        (Fault::TableFull, "table full\n"),
    ] {
        assert_eq!(rt; fault_line(&fault).as_slice(), text.as_bytes());
    }
}
