//! Two options in both orders, all of them, and second uses.

use crate::reading::first_wrong;
use std::test::Fail;

// Each option before and after each other one.
const TWO: &str = "
run --seed 2 --runs=1 => run 2 1 1 100000 1 262144 1048576 1 20
run --seed 2 --passages=1 => run 2 1000 1 100000 1 262144 1048576 1 20
run --seed 2 --jumps=1 => run 2 1000 1 1 1 262144 1048576 1 20
run --seed 2 --workers=1 => run 2 1000 1 100000 1 262144 1048576 1 20
run --seed 2 --table=8 => run 2 1000 1 100000 1 8 1048576 1 20
run --seed 2 --entries=8 => run 2 1000 1 100000 1 262144 8 1 20
run --seed 2 --bin=1 => run 2 1000 1 100000 1 262144 1048576 1 20
run --seed 2 --bins=1 => run 2 1000 1 100000 1 262144 1048576 1 1
run --runs 1001 --seed=0 => run 0 1001 1 100000 1 262144 1048576 1 20
run --runs 1001 --passages=1 => run 1 1001 1 100000 1 262144 1048576 1 20
run --runs 1001 --jumps=1 => run 1 1001 1 1 1 262144 1048576 1 20
run --runs 1001 --workers=1 => run 1 1001 1 100000 1 262144 1048576 1 20
run --runs 1001 --table=8 => run 1 1001 1 100000 1 8 1048576 1 20
run --runs 1001 --entries=8 => run 1 1001 1 100000 1 262144 8 1 20
run --runs 1001 --bin=1 => run 1 1001 1 100000 1 262144 1048576 1 20
run --runs 1001 --bins=1 => run 1 1001 1 100000 1 262144 1048576 1 1
run --passages 2 --seed=0 => run 0 1000 2 100000 1 262144 1048576 1 20
run --passages 2 --runs=1 => run 1 1 2 100000 1 262144 1048576 1 20
run --passages 2 --jumps=1 => run 1 1000 2 1 1 262144 1048576 1 20
run --passages 2 --workers=1 => run 1 1000 2 100000 1 262144 1048576 1 20
run --passages 2 --table=8 => run 1 1000 2 100000 1 8 1048576 1 20
run --passages 2 --entries=8 => run 1 1000 2 100000 1 262144 8 1 20
run --passages 2 --bin=1 => run 1 1000 2 100000 1 262144 1048576 1 20
run --passages 2 --bins=1 => run 1 1000 2 100000 1 262144 1048576 1 1
run --jumps 100001 --seed=0 => run 0 1000 1 100001 1 262144 1048576 1 20
run --jumps 100001 --runs=1 => run 1 1 1 100001 1 262144 1048576 1 20
run --jumps 100001 --passages=1 => run 1 1000 1 100001 1 262144 1048576 1 20
run --jumps 100001 --workers=1 => run 1 1000 1 100001 1 262144 1048576 1 20
run --jumps 100001 --table=8 => run 1 1000 1 100001 1 8 1048576 1 20
run --jumps 100001 --entries=8 => run 1 1000 1 100001 1 262144 8 1 20
run --jumps 100001 --bin=1 => run 1 1000 1 100001 1 262144 1048576 1 20
run --jumps 100001 --bins=1 => run 1 1000 1 100001 1 262144 1048576 1 1
run --workers 2 --seed=0 => run 0 1000 1 100000 2 262144 1048576 1 20
run --workers 2 --runs=1 => run 1 1 1 100000 2 262144 1048576 1 20
run --workers 2 --passages=1 => run 1 1000 1 100000 2 262144 1048576 1 20
run --workers 2 --jumps=1 => run 1 1000 1 1 2 262144 1048576 1 20
run --workers 2 --table=8 => run 1 1000 1 100000 2 8 1048576 1 20
run --workers 2 --entries=8 => run 1 1000 1 100000 2 262144 8 1 20
run --workers 2 --bin=1 => run 1 1000 1 100000 2 262144 1048576 1 20
run --workers 2 --bins=1 => run 1 1000 1 100000 2 262144 1048576 1 1
run --table 262145 --seed=0 => run 0 1000 1 100000 1 262145 1048576 1 20
run --table 262145 --runs=1 => run 1 1 1 100000 1 262145 1048576 1 20
run --table 262145 --passages=1 => run 1 1000 1 100000 1 262145 1048576 1 20
run --table 262145 --jumps=1 => run 1 1000 1 1 1 262145 1048576 1 20
run --table 262145 --workers=1 => run 1 1000 1 100000 1 262145 1048576 1 20
run --table 262145 --entries=8 => run 1 1000 1 100000 1 262145 8 1 20
run --table 262145 --bin=1 => run 1 1000 1 100000 1 262145 1048576 1 20
run --table 262145 --bins=1 => run 1 1000 1 100000 1 262145 1048576 1 1
run --entries 1048577 --seed=0 => run 0 1000 1 100000 1 262144 1048577 1 20
run --entries 1048577 --runs=1 => run 1 1 1 100000 1 262144 1048577 1 20
run --entries 1048577 --passages=1 => run 1 1000 1 100000 1 262144 1048577 1 20
run --entries 1048577 --jumps=1 => run 1 1000 1 1 1 262144 1048577 1 20
run --entries 1048577 --workers=1 => run 1 1000 1 100000 1 262144 1048577 1 20
run --entries 1048577 --table=8 => run 1 1000 1 100000 1 8 1048577 1 20
run --entries 1048577 --bin=1 => run 1 1000 1 100000 1 262144 1048577 1 20
run --entries 1048577 --bins=1 => run 1 1000 1 100000 1 262144 1048577 1 1
run --bin 2 --seed=0 => run 0 1000 1 100000 1 262144 1048576 2 20
run --bin 2 --runs=1 => run 1 1 1 100000 1 262144 1048576 2 20
run --bin 2 --passages=1 => run 1 1000 1 100000 1 262144 1048576 2 20
run --bin 2 --jumps=1 => run 1 1000 1 1 1 262144 1048576 2 20
run --bin 2 --workers=1 => run 1 1000 1 100000 1 262144 1048576 2 20
run --bin 2 --table=8 => run 1 1000 1 100000 1 8 1048576 2 20
run --bin 2 --entries=8 => run 1 1000 1 100000 1 262144 8 2 20
run --bin 2 --bins=1 => run 1 1000 1 100000 1 262144 1048576 2 1
run --bins 21 --seed=0 => run 0 1000 1 100000 1 262144 1048576 1 21
run --bins 21 --runs=1 => run 1 1 1 100000 1 262144 1048576 1 21
run --bins 21 --passages=1 => run 1 1000 1 100000 1 262144 1048576 1 21
run --bins 21 --jumps=1 => run 1 1000 1 1 1 262144 1048576 1 21
run --bins 21 --workers=1 => run 1 1000 1 100000 1 262144 1048576 1 21
run --bins 21 --table=8 => run 1 1000 1 100000 1 8 1048576 1 21
run --bins 21 --entries=8 => run 1 1000 1 100000 1 262144 8 1 21
run --bins 21 --bin=1 => run 1 1000 1 100000 1 262144 1048576 1 21
";

// All options, in two orders.
const ALL: &str = "
run --seed 0 --runs 2 --passages 3 --jumps 4 --workers 5 --table 8 --entries 9 --bin 6 --bins 7 => run 0 2 3 4 5 8 9 6 7
run --bins=7 --bin=6 --entries=9 --table=8 --workers=5 --jumps=4 --passages=3 --runs=2 --seed=0 => run 0 2 3 4 5 8 9 6 7
";

// An option that is used twice.
const AGAIN: &str = "
run --seed 0 --seed 0 => usage
run --seed=0 --bin=3 --seed=1 => usage
run --runs 1 --runs 1 => usage
run --runs=1 --seed=3 --runs=2 => usage
run --passages 1 --passages 1 => usage
run --passages=1 --seed=3 --passages=2 => usage
run --jumps 1 --jumps 1 => usage
run --jumps=1 --seed=3 --jumps=2 => usage
run --workers 1 --workers 1 => usage
run --workers=1 --seed=3 --workers=2 => usage
run --table 8 --table 8 => usage
run --table=8 --seed=3 --table=9 => usage
run --entries 8 --entries 8 => usage
run --entries=8 --seed=3 --entries=9 => usage
run --bin 1 --bin 1 => usage
run --bin=1 --seed=3 --bin=2 => usage
run --bins 1 --bins 1 => usage
run --bins=1 --seed=3 --bins=2 => usage
";

#[test]
fn two_options(rt: HostRuntime) -> Result<(), Fail> {
    assert_eq!(rt; first_wrong(rt.alloc(), TWO)?, None);
    Ok(())
}

#[test]
fn all_options(rt: HostRuntime) -> Result<(), Fail> {
    assert_eq!(rt; first_wrong(rt.alloc(), ALL)?, None);
    Ok(())
}

#[test]
fn second_uses(rt: HostRuntime) -> Result<(), Fail> {
    assert_eq!(rt; first_wrong(rt.alloc(), AGAIN)?, None);
    Ok(())
}
