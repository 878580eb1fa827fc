//! Laws of draws. Each function's contract is a law, and a call costs nothing.

ghost use Rattle.std.specs.Prelude.{◌≡◌, ℕ, ◌+◌, ◌-◌, ◌*◌, ◌/◌, ◌%◌, ◌^◌, ◌<◌, ◌≤◌, ◌⊎◌, List, ◌++◌, length, slice_index};
ghost use Rattle.sim_draws.specs.ExponentialDraw.{run_length, IsExponentialDraw, NoExponentialDraw};
ghost use Rattle.sim_draws.specs.FairDraw.{fair_limit, IsDrawBelow, NoDrawBelow};

/// A list has at most one exponential draw, by one count of its numbers; it has none exactly where no round decides.
pub fn one_exponential_draw()
    ensures draw { (xs : List ℕ) (d u e v : ℕ)
        → IsExponentialDraw xs d u → IsExponentialDraw xs e v → (d ≡ e) × (u ≡ v) }
    ensures none { (xs : List ℕ) (d u : ℕ)
        → IsExponentialDraw xs d u → NoExponentialDraw xs → ⊥ }
    ensures some { (xs : List ℕ)
        → ((d : ℕ) × ((u : ℕ) × IsExponentialDraw xs d u)) ⊎ NoExponentialDraw xs }
{}

/// A list has at most one draw below a bound, by one count of its numbers; it has none exactly where no number is below the limit.
pub fn one_draw_below()
    ensures draw { (xs : List ℕ) (bound d u e v : ℕ)
        → IsDrawBelow xs bound d u → IsDrawBelow xs bound e v → (d ≡ e) × (u ≡ v) }
    ensures none { (xs : List ℕ) (bound d u : ℕ)
        → IsDrawBelow xs bound d u → NoDrawBelow xs bound → ⊥ }
    ensures some { (xs : List ℕ) (bound : ℕ)
        → ((d : ℕ) × ((u : ℕ) × IsDrawBelow xs bound d u)) ⊎ NoDrawBelow xs bound }
{}

/// A draw is decided by the numbers that it uses: it is the same whatever follows them.
pub fn used_numbers_decide()
    ensures exponential { (used rest others : List ℕ) (d : ℕ)
        → IsExponentialDraw (used ++ rest) d (length used)
        → IsExponentialDraw (used ++ others) d (length used) }
    ensures below { (used rest others : List ℕ) (bound d : ℕ)
        → IsDrawBelow (used ++ rest) bound d (length used)
        → IsDrawBelow (used ++ others) bound d (length used) }
{}

/// The run in front of a list is in it, falls strictly, and ends at a number that isn't below the one before it.
pub fn runs_fall()
    ensures some { (xs : List ℕ) → 0 < length xs → 0 < run_length xs }
    ensures within { (xs : List ℕ) → run_length xs ≤ length xs }
    ensures falls { (xs : List ℕ) (k : ℕ)
        → k + 1 < run_length xs → slice_index xs (k + 1) < slice_index xs k }
    ensures longest { (xs : List ℕ) → 0 < run_length xs → run_length xs < length xs
        → slice_index xs (run_length xs - 1) ≤ slice_index xs (run_length xs) }
{}

/// The numbers below the limit are whole rows of as many numbers as the bound says, and as many rows as 2^64 numbers have. So
/// each draw below the bound is the remainder of as many of them as any other.
pub fn draws_are_fair()
    ensures limit { (bound : ℕ) → 0 < bound
        → (fair_limit bound ≤ 2 ^ 64) × (2 ^ 64 < fair_limit bound + bound) }
    ensures in_a_row { (bound x : ℕ) → 0 < bound → x < fair_limit bound
        → (x ≡ x / bound * bound + x % bound) × (x / bound < 2 ^ 64 / bound) × (x % bound < bound) }
    ensures each { (bound row draw : ℕ) → row < 2 ^ 64 / bound → draw < bound
        → (row * bound + draw < fair_limit bound) × ((row * bound + draw) % bound ≡ draw) }
{}
