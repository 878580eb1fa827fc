//! Laws of the words that contracts cite. Each function's contract is a law, and a call costs nothing.
ghost use Rattle.std.specs.Prelude.{◌≡◌, ℕ, ◌*◌, ◌<◌, ◌↔◌};
ghost use Rattle.std.specs.Int.{IsGcd};
ghost use Rattle.pepa_rates.specs.Fraction.{Fraction, gcd, reduced, IsPositive, IsProper, SameNumber};
ghost use Rattle.std.specs.Prelude.{List, All};
ghost use Rattle.pepa_rates.specs.Sum.{sum_of, fraction_of};
ghost use Rattle.pepa_rates.specs.Share.{least_of, share_of, SameRate};
ghost use Rattle.pepa_rates.specs.Weights.{common_den, weight_of, IsLeastCommonDen};

use crate::rate::Rate;

/// What Euclid's algorithm finds divides both numbers, and each common divisor divides it.
pub fn gcd_is_greatest_common_divisor()
    ensures { (a b : ℕ) → IsGcd a b (gcd a b) }
{}

/// Lowest terms are the same number, positive, and have no common divisor but 1.
pub fn lowest_terms()
    ensures same { (n d : ℕ) → SameNumber (record { num = n; den = d }) (reduced n d) }
    ensures positive { (n d : ℕ) → 0 < n → 0 < d → IsPositive (reduced n d) }
    ensures lowest { (n d : ℕ) → 0 < n → gcd (reduced n d).num (reduced n d).den ≡ 1 }
{}

/// Each number has one form: two are equal exactly where the cross products are.
pub fn one_form_for_each_number()
    ensures { (n d m e : ℕ) → 0 < n → 0 < d → 0 < m → 0 < e → ((reduced n d ≡ reduced m e) ↔ (n * e ≡ m * d)) }
{}

/// A fraction of the program is its own lowest terms.
pub fn proper_is_reduced()
    ensures { (q : Fraction) → IsProper q → reduced q.num q.den ≡ q }
{}

/// A sum is the same in either order, and however it is bracketed, in range or not.
pub fn sums()
    ensures positive { (p q : Fraction) → IsPositive p → IsPositive q → IsPositive (sum_of p q) }
    ensures commute { (p q : Fraction) → sum_of p q ≡ sum_of q p }
    ensures associate { (p q r : Fraction) → IsPositive p → IsPositive q → IsPositive r → sum_of (sum_of p q) r ≡ sum_of p (sum_of q r) }
{}

/// The lesser of two rates is the same rate in either order, and the lesser of three however they are bracketed.
pub fn lesser_rates()
    ensures commute { (a b : Rate) → SameRate (least_of a b) (least_of b a) }
    ensures associate { (a b c : Rate) → IsPositive (fraction_of a) → IsPositive (fraction_of b) → IsPositive (fraction_of c) → least_of (least_of a b) c ≡ least_of a (least_of b c) }
    ensures one { (a b : Rate) → IsProper (fraction_of a) → IsProper (fraction_of b) → SameRate a b → a ≡ b }
{}

/// A share is the same from either side, and the lesser apparent rate where each side has no other activity.
pub fn shares()
    ensures commute { (r1 ra r2 rb : Rate) → IsPositive (fraction_of r1) → IsPositive (fraction_of ra) → IsPositive (fraction_of r2) → IsPositive (fraction_of rb) → share_of r1 ra r2 rb ≡ share_of r2 rb r1 ra }
    ensures whole { (ra rb : Rate) → IsProper (fraction_of ra) → IsProper (fraction_of rb) → share_of ra ra rb rb ≡ least_of ra rb }
{}

/// Denominators have one least common multiple, and each fraction times it is a whole number, its weight.
pub fn least_common_multiples()
    ensures is { (rates : List Fraction) → All (λ q. 0 < q.den) rates → IsLeastCommonDen rates (common_den rates) }
    ensures one { (rates : List Fraction) (m n : ℕ) → IsLeastCommonDen rates m → IsLeastCommonDen rates n → m ≡ n }
    ensures whole { (rates : List Fraction) (m : ℕ) → IsLeastCommonDen rates m → All (λ q. weight_of m q * q.den ≡ q.num * m) rates }
{}
