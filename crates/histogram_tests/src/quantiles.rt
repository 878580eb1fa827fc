//! Quantiles of short lists.
use sim_histograms::quantile;

#[test]
fn quantiles_are_items(rt: HostRuntime) {
    for (sorted, part, whole, item) in [
        (&[1, 2, 3, 4][..], 1, 2, Some(2)),
        (&[1, 2, 3, 4][..], 9, 10, Some(4)),
        (&[1, 2, 3, 4][..], 3, 4, Some(3)),
        (&[1, 2, 3, 4][..], 751, 1000, Some(4)),
        (&[1, 2, 3, 4, 5][..], 1, 2, Some(3)),
        (&[1, 2, 3][..], 1, 1, Some(3)),
        (&[7][..], 1, 1000, Some(7)),
        (&[7, 7, 9][..], 1, 2, Some(7)),
        (&[][..], 1, 2, None),
    ] {
        assert_eq!(rt; quantile(sorted, part, whole), item);
    }
}
