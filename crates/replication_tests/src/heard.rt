//! Passages from the signals of jumps.
//!
//! Bit 0 is `start`, bit 1 is `stop`, and the bits above them are other labels. No transition of a model sends a signal, so the signals
//! are those of a table.

use sim_replication::Passages;
use std::alloc::{AllocError, Global};
use std::test::Fail;

/// The signals of some jumps and their times, the lengths of the passages that ended, and since when one is running.
type Row = (&'static [(u64, u64)], &'static [u64], Option<u64>);

const ROWS: &[Row] = &[
    (&[], &[], None),
    (&[(0, 3), (4, 5)], &[], None),
    // A `start`, and the next `stop`.
    (&[(1, 5)], &[], Some(5)),
    (&[(1, 5), (2, 9)], &[4], None),
    (&[(1, 5), (0, 7), (2, 5)], &[0], None),
    // A `stop` while none runs, and a `start` while one runs.
    (&[(2, 5)], &[], None),
    (&[(2, 5), (1, 6), (2, 8), (2, 9)], &[2], None),
    (&[(1, 5), (1, 7), (2, 9)], &[4], None),
    // Both at one jump: first `stop`, and then `start`.
    (&[(3, 5)], &[], Some(5)),
    (&[(3, 5), (3, 9)], &[4], Some(9)),
    (&[(1, 5), (3, 9), (2, 10)], &[4, 1], None),
    (
        &[(1, 5), (2, 6), (3, 8), (3, 8), (2, 20)],
        &[1, 0, 12],
        None,
    ),
    // Other labels beside them.
    (&[(5, 2), (8, 3), (6, 7)], &[5], None),
    (
        &[(18446744073709551613, 1), (18446744073709551614, 4)],
        &[3],
        None,
    ),
    (
        &[(9223372036854775807, 2), (18446744073709551612, 9)],
        &[],
        Some(2),
    ),
    // Late times.
    (
        &[(1, 0), (2, 9223372036854775807)],
        &[9223372036854775807],
        None,
    ),
];

#[test]
fn passages_of_signals(rt: HostRuntime) -> Result<(), Fail> {
    for (jumps, ended, since) in ROWS {
        assert!(rt; hears(rt.alloc(), jumps, ended, *since)?);
    }
    Ok(())
}

fn hears(
    alloc: Global,
    jumps: &[(u64, u64)],
    ended: &[u64],
    since: Option<u64>,
) -> Result<bool, AllocError> {
    let mut passages = Passages::new(alloc);
    for (signals, time) in jumps {
        passages.hear(*signals, *time)?;
    }
    Ok(passages.ended.as_slice() == ended && passages.since == since)
}
