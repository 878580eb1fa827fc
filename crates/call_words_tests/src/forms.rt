//! How a use of an option is spelled, and how not.

use crate::reading::first_wrong;
use std::test::Fail;

// Words with a blank between each two, and the command that they give.
const FORMS: &str = "
run --seed=2 => run 2 1000 1 100000 1 262144 1048576 1 20
run --seed=+2 => run 2 1000 1 100000 1 262144 1048576 1 20
run --seed 002 => run 2 1000 1 100000 1 262144 1048576 1 20
run --runs=1001 => run 1 1001 1 100000 1 262144 1048576 1 20
run --runs=+1001 => run 1 1001 1 100000 1 262144 1048576 1 20
run --runs 001001 => run 1 1001 1 100000 1 262144 1048576 1 20
run --passages=2 => run 1 1000 2 100000 1 262144 1048576 1 20
run --passages=+2 => run 1 1000 2 100000 1 262144 1048576 1 20
run --passages 002 => run 1 1000 2 100000 1 262144 1048576 1 20
run --jumps=100001 => run 1 1000 1 100001 1 262144 1048576 1 20
run --jumps=+100001 => run 1 1000 1 100001 1 262144 1048576 1 20
run --jumps 00100001 => run 1 1000 1 100001 1 262144 1048576 1 20
run --workers=2 => run 1 1000 1 100000 2 262144 1048576 1 20
run --workers=+2 => run 1 1000 1 100000 2 262144 1048576 1 20
run --workers 002 => run 1 1000 1 100000 2 262144 1048576 1 20
run --table=262145 => run 1 1000 1 100000 1 262145 1048576 1 20
run --table=+262145 => run 1 1000 1 100000 1 262145 1048576 1 20
run --table 00262145 => run 1 1000 1 100000 1 262145 1048576 1 20
run --entries=1048577 => run 1 1000 1 100000 1 262144 1048577 1 20
run --entries=+1048577 => run 1 1000 1 100000 1 262144 1048577 1 20
run --entries 001048577 => run 1 1000 1 100000 1 262144 1048577 1 20
run --bin=2 => run 1 1000 1 100000 1 262144 1048576 2 20
run --bin=+2 => run 1 1000 1 100000 1 262144 1048576 2 20
run --bin 002 => run 1 1000 1 100000 1 262144 1048576 2 20
run --bins=21 => run 1 1000 1 100000 1 262144 1048576 1 21
run --bins=+21 => run 1 1000 1 100000 1 262144 1048576 1 21
run --bins 0021 => run 1 1000 1 100000 1 262144 1048576 1 21
run --seed +1 => run 1 1000 1 100000 1 262144 1048576 1 20
run --seed ++1 => usage
run --seed + => usage
run --seed= => usage
run --seed  => usage
run --runs= => usage
run --runs  => usage
run --runs => usage
run --seed -1 => usage
run --seed=-1 => usage
run --runs=-1 => usage
run --seed 1.0 => usage
run --seed 1e3 => usage
run --seed 0x1 => usage
run --seed 1_000 => usage
run --seed 1,000 => usage
run --seed=1  => usage
run --seed= 1 => usage
run --seed==1 => usage
run -seed 1 => usage
run seed 1 => usage
run --Seed 1 => usage
run --see 1 => usage
run --seeds 1 => usage
run --seed1 => usage
run --seed:1 => usage
run -s 1 => usage
run -s1 => usage
run -h => usage
run --help => usage
run --version => usage
run -hV => usage
run -- => usage
run -- x => usage
run -- --seed 1 => usage
run --seed -- 1 => usage
run -  => usage
run - => usage
run --=1 => usage
run --seed --runs => usage
run --seed --runs 5 => usage
run --seed 18446744073709551616 => usage
run --seed 99999999999999999999999 => usage
run --workers 4294967297 => usage
run --bin=4294967297 => usage
run --number 1 => usage
run --events a => usage
run --made => usage
run --seed 1 x => usage
run x --seed 1 => usage
run --seed 1 2 => usage
";

#[test]
fn forms_of_uses(rt: HostRuntime) -> Result<(), Fail> {
    assert_eq!(rt; first_wrong(rt.alloc(), FORMS)?, None);
    Ok(())
}
