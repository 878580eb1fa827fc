//! The first word, and commands without options.

use crate::reading::first_wrong;
use std::test::Fail;

// Words with a blank between each two, and the command that they give.
const FIRST_WORDS: &str = "
 => usage
steps => steps
check => check
print => print
run => run 1 1000 1 100000 1 262144 1048576 1 20
probe => probe
Steps => usage
step => usage
steps  => usage
 steps => usage
steps x => usage
check x => usage
print print => usage
steps --seed 1 => usage
check -- => usage
print -h => usage
steps run => usage
run run => usage
run x => usage
run  => usage
probe x => usage
trace => usage
--seed 1 run => usage
run steps => usage
run --runs 0 => usage
run --runs 2 --runs 3 => usage
- => usage
-- => usage
help => usage
--help => usage
--version => usage
-V => usage
";

#[test]
fn first_words(rt: HostRuntime) -> Result<(), Fail> {
    assert_eq!(rt; first_wrong(rt.alloc(), FIRST_WORDS)?, None);
    Ok(())
}
