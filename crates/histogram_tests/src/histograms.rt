//! Histograms, passage by passage.
use sim_histograms::Histogram;
use std::test::Fail;

// A time unit in ticks.
const UNIT: u64 = 1 << 32;

#[test]
fn edges_belong_to_the_bin_above(rt: HostRuntime) -> Result<(), Fail> {
    let mut histogram = Histogram::make(rt.alloc(), 2, 3)?;
    assert_eq!(rt; histogram.counts(), &[0, 0, 0][..]);
    histogram.add(0);
    histogram.add(2 * UNIT - 1);
    histogram.add(2 * UNIT);
    histogram.add(6 * UNIT - 1);
    histogram.add(6 * UNIT);
    histogram.add(u64::MAX);
    assert_eq!(rt; histogram.counts(), &[2, 1, 1][..]);
    assert_eq!(rt; histogram.tail(), 2);
    Ok(())
}
