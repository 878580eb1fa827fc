//! Calls of `run`, `probe` and `gen`, and words that give no command.

use crate::calls::{Devices, SOUND, call};
use std::alloc::{AllocError, Global};
use std::test::Fail;

// Words, an input, and the status, the output and the line that are wanted.
type Row<'a> = (&'a [&'a str], &'a str, u8, &'a str, &'a str);

fn is_answered(alloc: Global, row: &Row, devices: &Devices) -> Result<bool, AllocError> {
    let (words, input, status, out, line) = *row;
    let ended = call(alloc, words, input.as_bytes(), devices)?;
    Ok(
        ended.0 == status
            && ended.1.written() == out.as_bytes()
            && ended.2.written() == line.as_bytes(),
    )
}

// A system that takes one jump, after which nothing can be done.
const STUCK: &str = "P = (a,1).Stop; Stop = (z,1).Stop; Q = (y,1).Q; P <y,z> Q";

const STUCK_REPORT: &str = "runs 10\ndone 0\ndeadlocked 10\nunfinished 0\npassages 0\n\
    mean -\nleast -\nmedian -\np90 -\np99 -\ngreatest -\nbin 0 0\ntail 0\n";

const GOING_REPORT: &str = "runs 3\ndone 0\ndeadlocked 0\nunfinished 3\npassages 0\n\
    mean -\nleast -\nmedian -\np90 -\np99 -\ngreatest -\nbin 0 0\nbin 1 0\ntail 0\n";

#[test]
fn answers_for_an_input(rt: HostRuntime) -> Result<(), Fail> {
    let table: [Row; 8] = [
        (
            &["run", "--runs", "10", "--bins", "1"],
            STUCK,
            0,
            STUCK_REPORT,
            "",
        ),
        (
            &["run", "--workers", "2", "--bins=1", "--runs=10"],
            STUCK,
            0,
            STUCK_REPORT,
            "",
        ),
        (
            &["run", "--runs", "3", "--jumps", "5", "--bins", "2"],
            "P = (a,1).P; P",
            0,
            GOING_REPORT,
            "",
        ),
        (
            &["run"],
            "P = (a,infty).P; P",
            6,
            "",
            "replication 1 stopped: passive left\n",
        ),
        (
            &["run"],
            "P = (a,1).Q; P",
            3,
            "",
            "model 1:11 unknown name\n",
        ),
        (&["probe"], "P = (a,1).P; P", 0, "", ""),
        (
            &["probe", "--number", "2", "--events", "a"],
            "P = (a,1).P; P",
            0,
            "no probe 2\n",
            "",
        ),
        (&["probe"], "P = (a", 3, "", "model 1:7 expected\n"),
    ];
    for row in table {
        assert!(rt; is_answered(rt.alloc(), &row, &SOUND)?, "{}", row.1);
    }
    Ok(())
}

const MADE: &str = "t = 1;\na = 4;\ns = 3;\nIdle = (think, t).Ready;\nReady = (ask, a).Wait;\n\
    Wait = (reply, infty).Idle;\nFree = (ask, infty).Busy;\nBusy = (reply, s).Free;\n\
    probe Idle :: ask:start, reply:stop;\nIdle <ask,reply> (Free)\n";

// Nothing is read: each read of the source would fail.
#[test]
fn answers_without_an_input(rt: HostRuntime) -> Result<(), Fail> {
    let devices = Devices {
        failing_reads: &[1],
        ..SOUND
    };
    let table: [Row; 2] = [
        (&["gen", "1"], "P", 0, MADE, ""),
        // The probe line begins the ninth line.
        (
            &["run", "--made", "8"],
            "P",
            3,
            "",
            "model 9:1 unsupported\n",
        ),
    ];
    for row in table {
        assert!(rt; is_answered(rt.alloc(), &row, &devices)?);
    }
    Ok(())
}

#[test]
fn words_that_give_no_command(rt: HostRuntime) -> Result<(), Fail> {
    let table: [&[&str]; 10] = [
        &[],
        &["step"],
        &["steps", "steps"],
        &["run", "--runs", "0"],
        &["run", "--runs", "2", "--runs", "3"],
        &["run", "--", "x"],
        &["run", "--runs", "1000000", "--passages", "11"],
        &["gen", "101"],
        &["gen"],
        &["probe", "--number", "1"],
    ];
    for words in table {
        let (status, out, err) = call(rt.alloc(), words, b"P", &SOUND)?;
        assert_eq!(rt; (status, out.calls()), (2, 0));
        assert_eq!(rt; err.written(), b"usage\n".as_slice());
    }
    Ok(())
}
