//! The reports of summaries.
ghost use Rattle.std.specs.Prelude.{IfOk};
ghost use Rattle.sim_histograms.specs.Summaries.{HasTimes};

use pepa_rates::Words64;
use sim_histograms::Summary;
use sim_report::report;
use std::alloc::{AllocError, Global};
use std::test::Fail;

// A time unit in ticks.
const UNIT: u64 = 1 << 32;

// Ten replications that came to a state with no transition.
const WITHOUT_PASSAGES: &str = "runs 10
done 0
deadlocked 10
unfinished 0
passages 0
mean -
least -
median -
p90 -
p99 -
greatest -
bin 0 0
tail 0
";

// A tick is a little less than 0.0000000003 time units.
const WITH_PASSAGES: &str = "runs 1000
done 700
deadlocked 200
unfinished 100
passages 12345
mean 1.500000
least 0.000000
median 0.999999
p90 20.250000
p99 300.062500
greatest 2147483647.999999
bin 0 12
bin 1 0
bin 2 18446744073709551615
tail 34
";

fn without_passages(alloc: Global) -> Result<Summary, AllocError>
    ensures { IfOk result HasTimes }
{
    Ok(Summary {
        runs: 10,
        done: 0,
        deadlocked: 10,
        unfinished: 0,
        passages: 0,
        mean: None,
        least: None,
        median: None,
        p90: None,
        p99: None,
        greatest: None,
        bins: Words64::from_slice(alloc, &[0])?,
        tail: 0,
    })
}

fn with_passages(alloc: Global) -> Result<Summary, AllocError>
    ensures { IfOk result HasTimes }
{
    Ok(Summary {
        runs: 1000,
        done: 700,
        deadlocked: 200,
        unfinished: 100,
        passages: 12345,
        mean: Some(UNIT + UNIT / 2),
        least: Some(4),
        median: Some(UNIT - 1),
        p90: Some(20 * UNIT + UNIT / 4),
        p99: Some(300 * UNIT + UNIT / 16),
        greatest: Some((1 << 63) - 1),
        bins: Words64::from_slice(alloc, &[12, 0, u64::MAX])?,
        tail: 34,
    })
}

fn is_reported(alloc: Global, summary: &Summary, text: &str) -> Result<bool, AllocError>
    requires { HasTimes summary.now }
{
    let bytes = report(alloc, summary)?;
    Ok(bytes.as_slice() == text.as_bytes())
}

#[test]
fn reports(rt: HostRuntime) -> Result<(), Fail> {
    let alloc = rt.alloc();
    let without = without_passages(alloc)?;
    assert!(rt; is_reported(alloc, &without, WITHOUT_PASSAGES)?);
    let with = with_passages(alloc)?;
    assert!(rt; is_reported(alloc, &with, WITH_PASSAGES)?);
    Ok(())
}
