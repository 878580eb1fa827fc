//! Laws of ranks, histograms and summaries. Each function's contract is a law, and a call costs
//! nothing.
ghost use Rattle.std.specs.Prelude.{◌≡◌, ℕ, ◌+◌, ◌-◌, ◌<◌, ◌≤◌, List, [], ◌∷◌, ◌++◌, length, slice_index, sum, IsPermutation};
ghost use Rattle.std.specs.List.Sorted.{IsNonDecreasing};
ghost use Rattle.sim_replication.specs.declared.order.Order.{Order};
ghost use Rattle.sim_replication.specs.declared.ran.Ran.{Ran};
ghost use Rattle.sim_histograms.specs.Ranks.{HasRank, IsQuantile, IsRank, rank_of};
ghost use Rattle.sim_histograms.specs.Histograms.{histogram_of, with_passage};
ghost use Rattle.sim_histograms.specs.Summaries.{IsSummary};
ghost use Rattle.sim_histograms.specs.declared.summaries.Summary.{Summary};

/// The rank for a part of a list is the least that is at least this part of its length.
pub fn ranks_are_least()
    ensures { (part whole n : ℕ) → 0 < whole → IsRank part whole n (rank_of part whole n) }
{}

/// The number of a rank is the item there of the list in ascending order, and no other number has
/// this rank.
pub fn ranks_are_places()
    ensures place { (xs sorted : List ℕ) (rank : ℕ) → IsPermutation xs sorted
        → IsNonDecreasing sorted → 1 ≤ rank → rank ≤ length xs
        → HasRank xs rank (slice_index sorted (rank - 1)) }
    ensures one { (xs : List ℕ) (rank x y : ℕ) → HasRank xs rank x → HasRank xs rank y → x ≡ y }
{}

/// The number of the rank for a part is the least number at or below which there is this part of
/// the list.
pub fn quantiles_are_least()
    ensures { (xs : List ℕ) (part whole x : ℕ) → 0 < whole
        → HasRank xs (rank_of part whole (length xs)) x → IsQuantile xs part whole x }
{}

/// One passage more makes the histogram of the passages with this one, and each passage counts
/// once.
pub fn passages_count_once()
    ensures more { (bin bins ticks : ℕ) (lengths : List ℕ)
        → histogram_of bin bins (lengths ++ ticks ∷ [])
        ≡ with_passage (histogram_of bin bins lengths) ticks }
    ensures once { (bin bins : ℕ) (lengths : List ℕ) → 1 ≤ bin
        → sum (histogram_of bin bins lengths).each + (histogram_of bin bins lengths).tail
        ≡ length lengths }
{}

/// Replications have one summary.
pub fn one_summary()
    ensures { (order : Order) (ran : List Ran) (s t : Summary)
        → IsSummary order ran s → IsSummary order ran t → s ≡ t }
{}
