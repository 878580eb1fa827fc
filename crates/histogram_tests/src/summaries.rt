//! Summaries of small tables of replications. `tests/summaries.py` writes the table a second time.
use crate::figures::{NONE, are_figures, order, replications};
use sim_replication::Ending;
use sim_replication::Ending::{Deadlock, Done, JumpLimit};
use std::alloc::{AllocError, Global};
use std::test::Fail;

/// Replications with their passages and endings.
type Replications = &'static [(&'static [u64], Ending)];

/// How many replications and passages are ordered, the width of a bin and how many there are; the
/// replications; and the figures of their summary.
type Row = ((u64, u64, u32, u32), Replications, &'static [u64]);

const ROWS: &[Row] = &[
    (
        (1, 1, 1, 3),
        &[],
        &[
            0, 0, 0, 0, 0, NONE, NONE, NONE, NONE, NONE, NONE, 0, 0, 0, 0,
        ],
    ),
    (
        (2, 3, 1, 1),
        &[(&[], Deadlock), (&[], JumpLimit)],
        &[2, 0, 1, 1, 0, NONE, NONE, NONE, NONE, NONE, NONE, 0, 0],
    ),
    (
        (1, 1, 1, 2),
        &[(&[4294967295], Done)],
        &[
            1, 1, 0, 0, 1, 4294967295, 4294967295, 4294967295, 4294967295, 4294967295, 4294967295,
            1, 0, 0,
        ],
    ),
    (
        (2, 4, 2, 3),
        &[
            (&[25769803776, 8589934592, 8589934591, 0], Done),
            (&[25769803775, 17179869184, 17179869183, 30064771072], Done),
        ],
        &[
            2,
            2,
            0,
            0,
            8,
            16642998271,
            0,
            17179869183,
            30064771072,
            30064771072,
            30064771072,
            2,
            2,
            2,
            2,
        ],
    ),
    (
        (4, 3, 1, 2),
        &[
            (&[1, 2, 3], Done),
            (&[], Deadlock),
            (&[4294967296], JumpLimit),
            (&[5, 8], JumpLimit),
        ],
        &[
            4, 1, 1, 2, 6, 715827885, 1, 3, 4294967296, 4294967296, 4294967296, 5, 1, 0,
        ],
    ),
    (
        (3, 2, 1000000, 2),
        &[
            (&[9223372036854775807, 9223372036854775807], Done),
            (&[9223372036854775806, 9223372036854775807], Done),
            (&[1], Deadlock),
        ],
        &[
            3,
            2,
            1,
            0,
            5,
            7378697629483820645,
            1,
            9223372036854775807,
            9223372036854775807,
            9223372036854775807,
            9223372036854775807,
            1,
            0,
            4,
        ],
    ),
    (
        (5, 2, 3, 4),
        &[
            (&[90, 10], Done),
            (&[30, 20], Done),
            (&[70, 100], Done),
            (&[40, 50], Done),
            (&[60, 80], Done),
        ],
        &[5, 5, 0, 0, 10, 55, 10, 50, 90, 100, 100, 10, 0, 0, 0, 0],
    ),
];

#[test]
fn sums_up_tables(rt: HostRuntime) -> Result<(), Fail> {
    let alloc = rt.alloc();
    for ((runs, passages, bin, bins), table, want) in ROWS {
        let ran = replications(alloc, table)?;
        assert!(rt;
            are_figures(alloc, &ran, &order(*runs, *passages, *bin, *bins), want)?,
            "{want:?}"
        );
    }
    Ok(())
}

#[test]
fn sums_up_long_lists(rt: HostRuntime) -> Result<(), Fail> {
    let alloc = rt.alloc();
    // The numbers from 200 down to 1, the even ones first.
    let even = falling(alloc, 200)?;
    let odd = falling(alloc, 199)?;
    let table = [(even.as_slice(), JumpLimit), (odd.as_slice(), Done)];
    let ran = replications(alloc, &table)?;
    let want = [2, 1, 0, 1, 200, 100, 1, 100, 180, 198, 200, 200, 0];
    assert!(rt; are_figures(alloc, &ran, &order(2, 100, 1, 1), &want)?);
    Ok(())
}

/// The numbers from this one down, by twos.
fn falling(alloc: Global, greatest: u64) -> Result<Vec<u64>, AllocError> {
    let mut list = Vec::new(alloc);
    for step in 0..100 {
        list.push(greatest.saturating_sub(2 * step))?;
    }
    Ok(list)
}
