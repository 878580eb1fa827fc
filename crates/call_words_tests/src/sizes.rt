//! The sizes of made models, for `gen` and for `run`.

use crate::reading::first_wrong;
use std::test::Fail;

// Words with a blank between each two, and the command that they give.
const SIZES: &str = "
gen 0 => usage
gen 1 => gen 1
gen 100 => gen 100
gen 101 => usage
gen +7 => gen 7
gen 007 => gen 7
gen -1 => usage
gen  => usage
gen x => usage
gen 1 2 => usage
gen 8x => usage
run --made 0 => usage
run --made 1 => run 1 1000 1 100000 1 262144 1048576 1 20 made 1
run --made 100 => run 1 1000 1 100000 1 262144 1048576 1 20 made 100
run --made 101 => usage
run --made +08 => run 1 1000 1 100000 1 262144 1048576 1 20 made 8
run --made -1 => usage
run --made  => usage
run --made x => usage
gen => usage
gen --size 1 => usage
gen=1 => usage
gen --made 1 => usage
gen -- 1 => usage
gen + => usage
run --made=8 => run 1 1000 1 100000 1 262144 1048576 1 20 made 8
run --made= => usage
run --made=-1 => usage
run --made => usage
run --made --runs 1 => usage
run --made 8 --made 8 => usage
run --made=8 --made=9 => usage
run 8 => usage
run --runs 10 --made 8 => run 1 10 1 100000 1 262144 1048576 1 20 made 8
run --made 8 --runs 10 => run 1 10 1 100000 1 262144 1048576 1 20 made 8
run --made 8 --workers 2 --table 8 --runs 10 => run 1 10 1 100000 2 8 1048576 1 20 made 8
run --made 8 --runs 1000000 --passages 11 => usage
probe --made 8 => usage
steps --made 8 => usage
run --size 8 => usage
";

#[test]
fn sizes_of_made_models(rt: HostRuntime) -> Result<(), Fail> {
    assert_eq!(rt; first_wrong(rt.alloc(), SIZES)?, None);
    Ok(())
}
