//! Options at both ends of their ranges, and one past them.

use crate::reading::first_wrong;
use std::test::Fail;

// Words with a blank between each two, and the command that they give.
const ENDS: &str = "
run --seed 0 => run 0 1000 1 100000 1 262144 1048576 1 20
run --seed 18446744073709551615 => run 18446744073709551615 1000 1 100000 1 262144 1048576 1 20
run --seed 18446744073709551616 => usage
run --seed=-1 => usage
run --runs 1 => run 1 1 1 100000 1 262144 1048576 1 20
run --runs 1000001 => usage
run --runs=0 => usage
run --passages 1 => run 1 1000 1 100000 1 262144 1048576 1 20
run --passages 1000001 => usage
run --passages=0 => usage
run --jumps 1 => run 1 1000 1 1 1 262144 1048576 1 20
run --jumps 1000000000 => run 1 1000 1 1000000000 1 262144 1048576 1 20
run --jumps 1000000001 => usage
run --jumps=0 => usage
run --workers 1 => run 1 1000 1 100000 1 262144 1048576 1 20
run --workers 64 => run 1 1000 1 100000 64 262144 1048576 1 20
run --workers 65 => usage
run --workers=0 => usage
run --table 8 => run 1 1000 1 100000 1 8 1048576 1 20
run --table 4194304 => run 1 1000 1 100000 1 4194304 1048576 1 20
run --table 4194305 => usage
run --table=7 => usage
run --entries 8 => run 1 1000 1 100000 1 262144 8 1 20
run --entries 16777216 => run 1 1000 1 100000 1 262144 16777216 1 20
run --entries 16777217 => usage
run --entries=7 => usage
run --bin 1 => run 1 1000 1 100000 1 262144 1048576 1 20
run --bin 1000000 => run 1 1000 1 100000 1 262144 1048576 1000000 20
run --bin 1000001 => usage
run --bin=0 => usage
run --bins 1 => run 1 1000 1 100000 1 262144 1048576 1 1
run --bins 10000 => run 1 1000 1 100000 1 262144 1048576 1 10000
run --bins 10001 => usage
run --bins=0 => usage
run --runs 1000000 --passages 10 => run 1 1000000 10 100000 1 262144 1048576 1 20
run --runs 1000000 --passages 11 => usage
run --runs 10 --passages 1000000 => run 1 10 1000000 100000 1 262144 1048576 1 20
run --runs 11 --passages 1000000 => usage
run --runs 10000001 => usage
run --runs 9091 --passages 1100 => usage
run --runs 3163 --passages 3161 => run 1 3163 3161 100000 1 262144 1048576 1 20
run --passages 10000 => run 1 1000 10000 100000 1 262144 1048576 1 20
run --passages 10001 => usage
probe --number 0 --events a => usage
probe --number 1 --events a => probe 1 a
probe --number 16 --events a => probe 16 a
probe --number 17 --events a => usage
";

#[test]
fn ends_of_ranges(rt: HostRuntime) -> Result<(), Fail> {
    assert_eq!(rt; first_wrong(rt.alloc(), ENDS)?, None);
    Ok(())
}
