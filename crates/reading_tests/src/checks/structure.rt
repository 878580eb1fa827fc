//! The structure of files, and where it is refused.

use super::is_judged;
use pepa_checks::CheckCause;
use std::test::Fail;

#[test]
fn misbuilt_files(rt: HostRuntime) -> Result<(), Fail> {
    let table = [
        // Fine.
        ("P = (a,1).P; Q = P || P; Q", CheckCause::NotSequential),
        (
            "P = (a,1).P; R = P; Q = R || P + P; Q/{a}",
            CheckCause::NotSequential,
        ),
        (
            "P = (a,1).P + P2; P2 = (b,1).P; (P <a> P2)/{b} || P",
            CheckCause::NotSequential,
        ),
        ("A = B; B = (a,1).A; A", CheckCause::Unguarded),
        (
            "A = (a,1).A + (b,1).B; B = A; A || B",
            CheckCause::Unguarded,
        ),
        (
            "S = P || R; R = P/{a}; P = (a,1).P; S <a> S",
            CheckCause::ModelCycle,
        ),
        // An operand of a choice, and what follows an activity.
        ("P = (a,1).P; (@P || P) + P", CheckCause::NotSequential),
        ("P = (a,1).P; P + @P/{a}", CheckCause::NotSequential),
        ("P = (a,1).P; P + ((@P + P)/{a})", CheckCause::NotSequential),
        ("P = (a,1).(@P || P); P", CheckCause::NotSequential),
        ("P = (a,1).(b,1).@P/{}; P", CheckCause::NotSequential),
        ("P = (a,1).(@(b,1).P || P); P", CheckCause::NotSequential),
        ("P = (a,1).P; Q = P || P; P + @Q", CheckCause::NotSequential),
        ("Q = P || P; P = (a,1).@Q; Q", CheckCause::NotSequential),
        (
            "P = (a,1).P; Q = P/{a}; R = Q; S = R; (P + @S) || P",
            CheckCause::NotSequential,
        ),
        // The least place, also before a cycle.
        (
            "P = (a,1).(@P || P); Q = P + P/{a}; P",
            CheckCause::NotSequential,
        ),
        ("A = A || B; B = (a,1).@A; B", CheckCause::NotSequential),
        ("B = B; P = (a,1).(@P || P); P", CheckCause::NotSequential),
        // Compound constants that reach themselves, the first of them.
        ("@A = A || A; A", CheckCause::ModelCycle),
        ("@A = A/{}; A", CheckCause::ModelCycle),
        (
            "P = (a,1).P; @A = B || P; B = A/{a}; P",
            CheckCause::ModelCycle,
        ),
        (
            "P = (a,1).P; C = A || P; @A = A/{a}; P",
            CheckCause::ModelCycle,
        ),
        ("@A = B; B = A || B; B", CheckCause::ModelCycle),
        ("A = A; @C = C || A; A", CheckCause::ModelCycle),
        // Sequential constants that reach themselves with no activity between.
        ("@A = A; A", CheckCause::Unguarded),
        ("@A = A + (a,1).A; A", CheckCause::Unguarded),
        ("@A = B; B = A; B", CheckCause::Unguarded),
        ("B = (a,1).B; @A = B + (A + B); B", CheckCause::Unguarded),
        (
            "A = (a,1).A + B; @B = C; C = (c,1).A + B; A",
            CheckCause::Unguarded,
        ),
        (
            "P = (a,1).P; Q = P || P; @A = P + A; Q",
            CheckCause::Unguarded,
        ),
    ];
    for (text, cause) in table {
        is_judged(&rt, rt.alloc(), cause, text)?;
    }
    Ok(())
}
