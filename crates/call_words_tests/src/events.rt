//! The options of `probe`: a number and the names of events.

use crate::reading::{first_wrong, is_read};
use std::test::Fail;

// Words with a blank between each two, and the command that they give.
const ASKS: &str = "
probe --number 1 => usage
probe --events a => usage
probe --number=1 => usage
probe --events=a => usage
probe --number 1 --events a => probe 1 a
probe --events a --number 1 => probe 1 a
probe --number=16 --events=a => probe 16 a
probe --events=a --number=+016 => probe 16 a
probe --number 1 --events a,c,a,b => probe 1 a,c,a,b
probe --number 1 --events a,a,b,b => probe 1 a,a,b,b
probe --number 1 --number 1 --events a => usage
probe --number 1 --events a --events a => usage
probe --events a --events b => usage
probe --number 1 --events  => usage
probe --number 1 --events= => usage
probe --number 1 --events , => usage
probe --number 1 --events a, => usage
probe --number 1 --events ,a => usage
probe --number 1 --events a,,b => usage
probe --number 1 --events A => usage
probe --number 1 --events a,B => usage
probe --number 1 --events 1a => usage
probe --number 1 --events _a => usage
probe --number 1 --events a1_B => probe 1 a1_B
probe --number 1 --events a-b => usage
probe --number 1 --events a b => usage
probe --number 1 --events a, b => usage
probe --number 1 --events -a => usage
probe --number 1 --events=-a => usage
probe --number 1 --events tau => usage
probe --number 1 --events a,tau => usage
probe --number 1 --events infty => usage
probe --number 1 --events=infty,a => usage
probe --number 1 --events taux,infty1 => probe 1 taux,infty1
probe --number 1 --events probe,T => usage
probe --number 1 --events probe,t => probe 1 probe,t
probe --number 1 --events start,stop => probe 1 start,stop
probe --number --events a => usage
probe --number a --events 1 => usage
probe --number -1 --events a => usage
probe --number= --events a => usage
probe --seed 1 => usage
probe --runs 1 --number 1 --events a => usage
probe --  => usage
probe --help => usage
probe --number 1 --events a x => usage
probe --number 1 --events=a=b => usage
probe --number 1 --events a.b => usage
probe --number 1 --events ä => usage
";

#[test]
fn asks(rt: HostRuntime) -> Result<(), Fail> {
    assert_eq!(rt; first_wrong(rt.alloc(), ASKS)?, None);
    Ok(())
}

#[test]
fn names_of_64_and_65_bytes(rt: HostRuntime) -> Result<(), Fail> {
    for row in [
        (
            "probe --number 1 --events abcdefghabcdefghabcdefghabcdefghabcdefghabcdefghabcdefghabcdefgh",
            "probe 1 abcdefghabcdefghabcdefghabcdefghabcdefghabcdefghabcdefghabcdefgh",
        ),
        (
            "probe --number 1 --events abcdefghabcdefghabcdefghabcdefghabcdefghabcdefghabcdefghabcdefgha",
            "usage",
        ),
        (
            "probe --number 1 --events b,abcdefghabcdefghabcdefghabcdefghabcdefghabcdefghabcdefghabcdefgh",
            "probe 1 b,abcdefghabcdefghabcdefghabcdefghabcdefghabcdefghabcdefghabcdefgh",
        ),
        (
            "probe --number 1 --events b,abcdefghabcdefghabcdefghabcdefghabcdefghabcdefghabcdefghabcdefgha",
            "usage",
        ),
    ] {
        assert!(rt; is_read(rt.alloc(), row)?, "{}", row.0);
    }
    Ok(())
}
