//! The laws of the ends of the exponential, and what follows for the grids of Poisson and geometric
//! counts, exact and rounded (Klugman, Panjer and Willmot, Loss Models, "The recursive method").
//! Nothing here runs.

ghost use Rattle.std.specs.Prelude.{ℕ, suc, ◌≡◌, ◌<◌, ◌≤◌, ◌^◌, ◌↔◌, List, length};
ghost use Rattle.dl_exact.specs.Prelude.{Fraction, whole, ◌over◌, ◌+ℚ◌, ◌*ℚ◌, ◌/ℚ◌, ◌≤ℚ◌, sum_to};
ghost use Rattle.dl_iv.specs.declared.interval.Iv.{Iv};
ghost use Rattle.dl_grid.specs.Cells.{low_at, high_at};
ghost use Rattle.dl_panjer.specs.Exponential.{exponential_sum, EnclosesExp};
ghost use Rattle.dl_panjer.specs.Ends.{exp_low, exp_high};
ghost use Rattle.dl_model.specs.Prelude.{Holds, IsWithinOne, poisson, gamma_of, IsPanjer, compound, Encloses, GridEncloses, Recursion};
ghost use Rattle.dl_plan.specs.declared.severity.Sev.{Sev};
ghost use Rattle.dl_plan.specs.Severity.{probability_of};
ghost use Rattle.dl_panjer.specs.Outward.{FollowsOutward};
ghost use Rattle.dl_panjer.specs.Bases.{IsPoissonBase, IsGeometricBase, StandsByRecursion};

/// In a grid that follows the recursion `r` outward, the low end of cell `s` is at most `r s` times
/// that of cell 0, and its high end at least, while no high end has reached the scale.
pub fn law_outward()
    ensures low { (scale cells : ℕ) (a c : Fraction) (f : ℕ → Fraction) (lo hi : ℕ → ℕ)
        → FollowsOutward scale cells a c f lo hi → (r : ℕ → Fraction) → Recursion a c f r
        → (s : ℕ) → s < cells → whole (lo s) ≤ℚ whole (lo 0) *ℚ r s }
    ensures high { (scale cells : ℕ) (a c : Fraction) (f : ℕ → Fraction) (lo hi : ℕ → ℕ)
        → FollowsOutward scale cells a c f lo hi → (r : ℕ → Fraction) → Recursion a c f r
        → (s : ℕ) → s < cells → ((k : ℕ) → k ≤ s → hi k < scale)
        → whole (hi 0) *ℚ r s ≤ℚ whole (hi s) }
{}

/// Such a grid encloses the compound sum where its cell 0 holds the reciprocal of the sum of the
/// count's weights.
pub fn law_base()
    ensures { (scale cells : ℕ) (a c : Fraction) (f w : ℕ → Fraction) (lo hi : ℕ → ℕ)
        → FollowsOutward scale cells a c f lo hi → f 0 ≡ whole 0 → IsPanjer a c w → 0 < scale
        → IsWithinOne f
        → Holds (λ N. whole 1) (λ N. sum_to N w) (lo 0 over scale) (hi 0 over scale)
        → Encloses scale cells lo hi (compound w f) }
{}

/// The two roundings of a Poisson grid and of a geometric grid are outward.
pub fn law_two_roundings()
    ensures poisson { (B : ℕ) (sev : Sev) (v : Fraction) (grid : List (Iv B))
        → IsPoissonBase sev v grid
        → FollowsOutward (2 ^ B) (length grid) (whole 0) v (probability_of sev) (low_at grid)
        (high_at grid) }
    ensures geometric { (B : ℕ) (sev : Sev) (beta : Fraction) (grid : List (Iv B))
        → IsGeometricBase sev beta grid
        → FollowsOutward (2 ^ B) (length grid) (beta /ℚ (whole 1 +ℚ beta))
        (beta /ℚ (whole 1 +ℚ beta)) (probability_of sev) (low_at grid) (high_at grid) }
{}

/// A Poisson grid encloses the compound sum of mean `v` where its cell 0 holds the reciprocal of
/// the exponential's series.
pub fn law_poisson_base()
    ensures { (B : ℕ) (sev : Sev) (v : Fraction) (grid : List (Iv B)) → IsPoissonBase sev v grid
        → probability_of sev 0 ≡ whole 0
        → Holds (λ N. whole 1) (λ N. sum_to N (poisson v)) (low_at grid 0 over 2 ^ B)
        (high_at grid 0 over 2 ^ B)
        → GridEncloses grid (compound (poisson v) (probability_of sev)) }
{}

/// A geometric grid encloses the compound sum of mean `beta` where its cell 0 holds `1 / (1 +
/// beta)`.
pub fn law_geometric_base()
    ensures { (B : ℕ) (sev : Sev) (beta : Fraction) (grid : List (Iv B))
        → IsGeometricBase sev beta grid
        → probability_of sev 0 ≡ whole 0 → low_at grid 0 over 2 ^ B ≤ℚ whole 1 /ℚ (whole 1 +ℚ beta)
        → whole 1 /ℚ (whole 1 +ℚ beta) ≤ℚ high_at grid 0 over 2 ^ B
        → GridEncloses grid (compound (gamma_of (whole 1) beta) (probability_of sev)) }
{}

/// The ends of each cell are to those of cell 0 as Panjer's recursion says.
pub fn law_stands()
    ensures poisson { (B : ℕ) (sev : Sev) (v : Fraction) (grid : List (Iv B))
        → IsPoissonBase sev v grid
        → StandsByRecursion (whole 0) v (probability_of sev) grid }
    ensures geometric { (B : ℕ) (sev : Sev) (beta : Fraction) (grid : List (Iv B))
        → IsGeometricBase sev beta grid
        → StandsByRecursion (beta /ℚ (whole 1 +ℚ beta)) (beta /ℚ (whole 1 +ℚ beta))
        (probability_of sev) grid }
{}

/// For `x` up to 1/2 the numbers `exp_low` and `exp_high`, in units of `1 / 2^B`, are at most and
/// at least 1 over the least upper bound of the partial sums of the exponential's series.
#[tactic(auto, using(crate::proofs::EndLaws::low_encloses, crate::proofs::EndLaws::high_encloses))]
pub fn law_ends()
    ensures low { (B : ℕ) (x : Fraction) → x ≤ℚ 1 over 2 → (N : ℕ)
        → exp_low B x over 2 ^ B *ℚ exponential_sum x N ≤ℚ whole 1 }
    ensures high { (B : ℕ) (x u : Fraction) → ((N : ℕ) → exponential_sum x N ≤ℚ u)
        → whole 1 ≤ℚ exp_high B x over 2 ^ B *ℚ u }
{}

/// An interval encloses the exponential exactly where it holds 1 over the sums of its series; and
/// these are the sums of the weights of the Poisson count, so that it then holds the probability of
/// no claim.
pub fn law_exponential()
    ensures series { (B : ℕ) (v : Fraction) (interval : Iv B) → EnclosesExp v interval
        ↔ Holds (λ N. whole 1) (exponential_sum v) (interval.lo over 2 ^ B)
        (interval.hi over 2 ^ B) }
    ensures weights { (v : Fraction) (N : ℕ) → sum_to N (poisson v) ≡ exponential_sum v N }
{}
