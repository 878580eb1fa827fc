//! Quantiles by rank.
ghost use Rattle.std.specs.Prelude.{◌≡◌, ◌-◌, ◌<◌, ◌≤◌, ◌^◌, length, slice_get};
ghost use Rattle.std.specs.List.Sorted.{IsNonDecreasing};
ghost use Rattle.sim_histograms.specs.Ranks.{rank_of};

/// The quantile of an ascending list for the part `part / whole`: the item of the least rank that
/// is at least this part of the list's length. There is none exactly of an empty list.
pub fn quantile(sorted: &[u64], part: u64, whole: u64) -> Option<u64>
    requires ascending { IsNonDecreasing sorted.now }
    requires some { 1 ≤ part }
    requires proper { part ≤ whole }
    requires small { whole ≤ 1000 }
    requires few { length sorted.now < 2 ^ 32 }
    ensures { result ≡ slice_get sorted.now (rank_of part whole (length sorted.now) - 1) }
{
    let count = sorted.len() as u64;
    if count == 0 {
        return None;
    }
    let rank = (part * count + (whole - 1)) / whole;
    Some(sorted[(rank - 1) as usize])
}
