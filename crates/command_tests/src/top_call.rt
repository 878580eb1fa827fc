//! The whole call over devices in memory.

use crate::calls::{Devices, SOUND, call};
use std::alloc::{AllocError, Global};
use std::test::Fail;

// An input with the status, the output and the line that are wanted.
type Row<'a> = (&'a str, u8, &'a str, &'a str);

fn is_answered(alloc: Global, word: &str, row: &Row) -> Result<bool, AllocError> {
    let (input, status, out, line) = *row;
    let ended = call(alloc, &[word], input.as_bytes(), &SOUND)?;
    Ok(
        ended.0 == status
            && ended.1.written() == out.as_bytes()
            && ended.2.written() == line.as_bytes(),
    )
}

#[test]
fn prints_of_models(rt: HostRuntime) -> Result<(), Fail> {
    let table = [
        (
            "r = 3/2; P = (a, r).(b, 2*infty).P; Q = (b,1).Q + ((a,infty).Q + (c,2).Q); P <a,b> Q/{c}",
            0,
            "P = (a, 3/2).(b, 2*infty).P;\nQ = (b, 1).Q + ((a, infty).Q + (c, 2).Q);\nP <a,b> Q/{c}\n",
            "",
        ),
        ("P = (a,1).Q; P", 3, "", "model 1:11 unknown name\n"),
    ];
    for row in table {
        assert!(rt; is_answered(rt.alloc(), "print", &row)?);
    }
    Ok(())
}

#[test]
fn steps_of_models(rt: HostRuntime) -> Result<(), Fail> {
    let table = [
        ("P = (a, 2).P + (a, 2).P; P", 0, "a 2 P\na 2 P\n", ""),
        (
            "P = (a,1).Q; Q = (b,3).P + (c,2).P; Q",
            0,
            "b 3 P\nc 2 P\n",
            "",
        ),
        (
            "P = (a, 4398046511103).P + (a, 1).P; P",
            6,
            "",
            "stopped: overflow\n",
        ),
        (
            "P = (a, 4398046511102).P + (a, 1).P; P",
            0,
            "a 4398046511102 P\na 1 P\n",
            "",
        ),
        // A partial sum from the left is a part of its own, and other actions don't count.
        (
            "P = (a,4398046511102).P + (b,9).P + (a,1).P + (a,1).P + (b,1).P; P",
            6,
            "",
            "stopped: overflow\n",
        ),
        // Only the system's component is judged.
        (
            "P = (a,4398046511103).P + (a,1).P; Q = (b,1).P; Q",
            0,
            "b 1 P\n",
            "",
        ),
        // The system is a component of its own, and a target is written as it stands.
        (
            "r = 3/4; P = (a,2).P; Q = (d,1).Q; (b,r).Q + (c,1.5).(a,2).P",
            0,
            "b 3/4 Q\nc 3/2 (a, 2).P\n",
            "",
        ),
        // A constant does what the constant that it stands for does.
        ("P = (tau,1).Q; Q = P; Q; // end", 0, "tau 1 Q\n", ""),
        // A passive rate that no activity uses.
        ("r = infty; P = (a,1).P; P", 0, "a 1 P\n", ""),
    ];
    for row in table {
        assert!(rt; is_answered(rt.alloc(), "steps", &row)?, "{}", row.0);
    }
    Ok(())
}

// What systems below are made of: P and Q have no sum of `a`, two Rs pass the range of `b`, two Ss have 65,536 ways to do `c`
// together, a joint rate of U and V passes its range, and the denominators of W and X come to too large a common one.
const STOPPING: &str = "P=(a,1).P; Q=(a,infty).Q; R=(b,4398046511103).R;\
    A=(c,1).A; B=A+A; C=B+B; D=C+C; E=D+D; F=E+E; G=F+F; H=G+G; S=H+H;\
    U=(d,1).U+(d,4398046511101).U; V=(d,1).V+(d,4398046511100).V;\
    W=(e,1/4398046511103).W; X=(f,1/4398046511101).X;\
    Y=(g,4398046511103).Y+(h,1).Y; Z=(g,1).Z+(h,infty).Z;\
    I=(i,1).I+(j,4398046511103).I; J=(i,infty).J+(j,1).J;";

// Whether `steps` of this system, over those lines, is stopped so.
fn is_stopped(alloc: Global, system: &str, stop: &str) -> Result<bool, AllocError> {
    let mut text = String::from_str(alloc, STOPPING)?;
    text.push_str(system)?;
    let mut line = String::from_str(alloc, "stopped: ")?;
    line.push_str(stop)?;
    line.push_str("\n")?;
    is_answered(alloc, "steps", &(text.as_str(), 6, "", line.as_str()))
}

#[test]
fn stops_in_order(rt: HostRuntime) -> Result<(), Fail> {
    let table = [
        // Of two parts the earlier one is told.
        ("(P || Q) || (R || R)", "mixed"),
        ("(R || R) || (P || Q)", "overflow"),
        ("(P || Q) || (S <c> S)", "mixed"),
        ("(S <c> S) || (P || Q)", "list too long"),
        ("(P || Q) || (U <d> V)", "mixed"),
        ("(U <d> V) || (P || Q)", "overflow"),
        ("(R || R) || (S <c> S)", "overflow"),
        ("(S <c> S) || (R || R)", "list too long"),
        ("(U <d> V) || (S <c> S)", "overflow"),
        ("(S <c> S) || (U <d> V)", "list too long"),
        // Of one part, the least action type, then the count, then the derivations' rates.
        ("Y || Z", "overflow"),
        ("I || J", "mixed"),
        ("(S || P) <c> (S || Q)", "mixed"),
        ("(S || R) <c> (S || R)", "overflow"),
        ("(S || U) <c,d> (S || V)", "list too long"),
        // The parts go before the whole, and passive rates before weights.
        ("Q || (R || R)", "overflow"),
        ("Q || (S <c> S)", "list too long"),
        ("Q || (U <d> V)", "overflow"),
        ("(W || X) || (P || Q)", "mixed"),
        ("(W || X) || (U <d> V)", "overflow"),
        ("Q || W || X", "passive left"),
        ("W || X", "weight overflow"),
    ];
    for (system, stop) in table {
        assert!(rt; is_stopped(rt.alloc(), system, stop)?, "{system}");
    }
    Ok(())
}

// How many lines `steps` of this system, over those lines, writes.
fn count_steps(alloc: Global, system: &str) -> Result<u64, AllocError> {
    let mut text = String::from_str(alloc, STOPPING)?;
    text.push_str(system)?;
    let devices = Devices {
        room: 2_000_000,
        ..SOUND
    };
    let ended = call(alloc, &["steps"], text.as_bytes(), &devices)?;
    Ok(count_lines(ended.1.written()))
}

fn count_lines(text: &[u8]) -> u64 {
    let mut count: u64 = 0;
    for byte in text {
        if *byte == b'\n' && count < 100_000 {
            count += 1;
        }
    }
    count
}

// 255 ways meet 257, which are 65,535.
#[test]
fn longest_list(rt: HostRuntime) -> Result<(), Fail> {
    let count = count_steps(rt.alloc(), "(H+G+F+E+D+C+B+A) <c> (S+A)")?;
    assert_eq!(rt; count, 65_535);
    Ok(())
}

#[test]
fn steps_of_systems(rt: HostRuntime) -> Result<(), Fail> {
    let table = [
        // Each of two activities has its share of the lesser apparent rate.
        (
            "P = (a,2).P; Q = (a,3).Q1 + (a,1).Q2; Q1 = (b,1).Q; Q2 = (b,1).Q; P <a> Q",
            0,
            "a 3/2 P <a> Q1\na 1/2 P <a> Q2\n",
            "",
        ),
        // Weights share an active rate.
        (
            "P = (a,6).P; Q = (a,infty).Q + (a,2*infty).Q; P <a> Q",
            0,
            "a 2 P <a> Q\na 4 P <a> Q\n",
            "",
        ),
        (
            "P = (a,2).P; Q = (a,infty).Q; (P || P) <a> Q",
            0,
            "a 2 P || P <a> Q\na 2 P || P <a> Q\n",
            "",
        ),
        // The left side moves before the right one.
        (
            "P = (a,1).Q; Q = (b,3/2).P; P || Q",
            0,
            "a 1 Q || Q\nb 3/2 P || P\n",
            "",
        ),
        // A hidden type is `tau`, and no partner of a type outside.
        ("P = (a,2).P; P/{a}", 0, "tau 2 P/{a}\n", ""),
        (
            "P = (a,2).P; Q = (a,3).Q; P/{a} <a> Q",
            0,
            "tau 2 P/{a} <a> Q\n",
            "",
        ),
        // A compound constant is its system, and a cooperation stands in brackets on the right.
        (
            "P = (a,1).P; A = P <a> P; P || A",
            0,
            "a 1 P || (P <a> P)\na 1 P || (P <a> P)\n",
            "",
        ),
        (
            "P = (a,1).P; (P || (b,2).P)/{b}",
            0,
            "a 1 (P || (b, 2).P)/{b}\ntau 2 (P || P)/{b}\n",
            "",
        ),
        // An active and a passive rate of one type have no sum.
        (
            "P = (a,1).P; Q = (a,infty).Q; P || Q",
            6,
            "",
            "stopped: mixed\n",
        ),
        // A passive rate that no active one drives, and weights that pass their range.
        ("P = (a,infty).P; P", 6, "", "stopped: passive left\n"),
        (
            "P = (a,infty).P; Q = (b,1).Q; P || Q",
            6,
            "",
            "stopped: passive left\n",
        ),
        (
            "P = (a, 1/4398046511103).P + (b, 1/4398046511101).P; P",
            6,
            "",
            "stopped: weight overflow\n",
        ),
        // Nothing at all can be done.
        ("P = (a,1).P; Q = (b,1).Q; P <a,b> Q", 0, "", ""),
        // The sum of both sides passes the range; so does a joint rate.
        (
            "P = (a,4398046511103).P; P || P",
            6,
            "",
            "stopped: overflow\n",
        ),
        (
            "P = (a,1).P + (a,4398046511101).P; Q = (a,1).Q + (a,4398046511100).Q; P <a> Q",
            6,
            "",
            "stopped: overflow\n",
        ),
    ];
    for row in table {
        assert!(rt; is_answered(rt.alloc(), "steps", &row)?, "{}", row.0);
    }
    Ok(())
}

#[test]
fn counts_of_models(rt: HostRuntime) -> Result<(), Fail> {
    let table = [
        (
            "P = (a,2).P; Q = (a,3).Q1 + (a,1).Q2; Q1 = (b,1).Q; Q2 = (b,1).Q; P <a> Q",
            0,
            "ok constants 4 actions 2 probes 0 leaves 2\n",
            "",
        ),
        (
            "P = (tau,1).P; P",
            0,
            "ok constants 1 actions 0 probes 0 leaves 1\n",
            "",
        ),
        // The leaves are the system's: those of a compound constant count as often as it is written.
        (
            "P = (a,1).P; Q = (b,T).(a,1).Q; A = P || Q; B = A <a> A || A; (P <b, c> B) / {a}",
            0,
            "ok constants 4 actions 3 probes 0 leaves 7\n",
            "",
        ),
    ];
    for row in table {
        assert!(rt; is_answered(rt.alloc(), "check", &row)?, "{}", row.0);
    }
    Ok(())
}

#[test]
fn texts_without_a_model(rt: HostRuntime) -> Result<(), Fail> {
    let table = [
        ("", "model 1:1 expected\n"),
        ("P = (a", "model 1:7 expected\n"),
        ("P /* x", "model 1:3 open comment\n"),
        ("P = (a,1).P; P %", "model 1:16 bad byte\n"),
        ("P = (a,1.).P; P", "model 1:8 bad number\n"),
        ("P = (a,1).P; P[3]", "model 1:15 array\n"),
        ("P = (a,1).P; P <*> P", "model 1:17 wildcard\n"),
        ("P = (a,1).P; probe a; P", "model 1:14 unsupported\n"),
        ("P = (a,1).P; P = (a,1).P; P", "model 1:14 defined twice\n"),
        ("P = (a,1).Q; P", "model 1:11 unknown name\n"),
        ("P = (a,1).P;\nP <tau> P", "model 2:4 tau in set\n"),
        ("P = (a,0).P; P", "model 1:8 bad rate\n"),
        ("P = (a,1).(P || P); P", "model 1:12 not sequential\n"),
        ("P = (a,1).P; A = A || P; A", "model 1:14 model cycle\n"),
        ("A = A + (a,1).A; A", "model 1:1 unguarded\n"),
        (
            "P=(a,1).P; A=P||P; B=A||A; C=B||B; D=C||C; E=D||D; F=E||E; G=F||F;\nG || G",
            "model 2:1 too many\n",
        ),
        ("P = (a,1).P + (a,infty).P; P", "model 1:15 mixed choice\n"),
        // The tokens' fault goes before the grammar's, which stands in front of it, and this before the check's.
        ("P = ; Q %", "model 1:9 bad byte\n"),
        ("P = (a,0).P; P P", "model 1:16 expected\n"),
        // Both go before a probe line, and this before the other checks.
        ("probe a; P %", "model 1:12 bad byte\n"),
        ("probe a; P P", "model 1:12 expected\n"),
        (
            "P = (a,0).Q; probe R :: b; probe c; X",
            "model 1:14 unsupported\n",
        ),
    ];
    for (input, line) in table {
        for word in ["steps", "check"] {
            assert!(rt;
                is_answered(rt.alloc(), word, &(input, 3, "", line))?,
                "{input}"
            );
        }
    }
    Ok(())
}

#[test]
fn faults_of_the_devices(rt: HostRuntime) -> Result<(), Fail> {
    let input = b"P = (a, 2).P + (a, 2).P; P";
    for read in 1..5 {
        let devices = Devices {
            failing_reads: &[read],
            ..SOUND
        };
        let (status, out, err) = call(rt.alloc(), &["steps"], input, &devices)?;
        assert_eq!(rt; (status, out.calls()), (4, 0), "read {read}");
        assert_eq!(rt; err.written(), b"read fault\n".as_slice());
    }
    let text = b"a 2 P\na 2 P\n";
    for (room, failing, count) in [
        (1000, [1].as_slice(), 0),
        (1000, [2].as_slice(), 10),
        (0, [].as_slice(), 0),
        (7, [].as_slice(), 7),
        (11, [].as_slice(), 11),
    ] {
        let devices = Devices {
            room,
            failing_writes: failing,
            ..SOUND
        };
        let (status, out, err) = call(rt.alloc(), &["steps"], input, &devices)?;
        assert_eq!(rt; status, 5, "room {room}");
        assert_eq!(rt; Some(out.written()), text.get(..count), "room {room}");
        assert_eq!(rt; err.written(), b"write fault\n".as_slice());
    }
    Ok(())
}

#[test]
fn a_failing_line_changes_no_status(rt: HostRuntime) -> Result<(), Fail> {
    let devices = Devices {
        failing_lines: &[2],
        ..SOUND
    };
    let (status, _out, err) = call(rt.alloc(), &["check"], b"P = (a,1).Q; P", &devices)?;
    assert_eq!(rt; status, 3);
    assert_eq!(rt; err.written(), b"model 1:11".as_slice());
    Ok(())
}
