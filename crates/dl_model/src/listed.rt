//! The laws of a unit whose claim counts and amounts are listed, each with a whole weight.

ghost use Rattle.std.specs.Prelude.{ℕ, suc, ◌≡◌, ◌+◌, ◌*◌, if◌then◌else◌, ◌<◌, ◌≤◌, ◌==◌, List, [], ◌∷◌, length, count_by};
ghost use Rattle.dl_exact.specs.Prelude.{Fraction, whole, ◌over◌, ◌+ℚ◌, ◌*ℚ◌, ◌≤ℚ◌, sum_to, count_pairs};
ghost use Rattle.dl_model.specs.Series.{Holds};
ghost use Rattle.dl_model.specs.Compound.{convolve, at_zero, cell, cell_from};
ghost use Rattle.dl_plan.specs.declared.item.Item.{Item};
ghost use Rattle.dl_plan.specs.Weighted.{weight_at, weight_sum, greatest};
ghost use Rattle.dl_model.specs.Listed.{probability_at, equally_likely};
ghost use Rattle.dl_model.specs.Program.{One, Point, partial_sums};
ghost use Rattle.dl_model.specs.Units.{loss, listed_aggregate};

/// The probabilities of listed numbers add up to 1 from the greatest number on, and to at most 1
/// before it.
pub fn law_probabilities()
    ensures all { (items : List Item) (n : ℕ) → 0 < weight_sum items → greatest items ≤ n
        → sum_to n (probability_at items) ≡ whole 1 }
    ensures before { (items : List Item) (n : ℕ) → 0 < weight_sum items
        → sum_to n (probability_at items) ≤ℚ whole 1 }
    ensures past { (items : List Item) (x : ℕ) → 0 < weight_sum items → greatest items < x
        → probability_at items x ≡ whole 0 }
{}

/// Of equally likely numbers the weight of `x` is how often it is listed, and the whole weight
/// is the length of the list.
#[tactic(auto, using(crate::proofs::WeightLaws::equal_weight, crate::proofs::WeightLaws::equal_total))]
pub fn law_equally_likely()
    ensures weight { (values : List ℕ) (x : ℕ)
        → weight_at (equally_likely values) x ≡ count_by (λ v. v == x) values }
    ensures total { (values : List ℕ) → weight_sum (equally_likely values) ≡ length values }
{}

/// What encloses the part of the sum `x` that comes from at most the greatest listed count holds
/// the declared probability of `x`.
#[tactic(auto, using(crate::proofs::ListedLaws::listed_holds))]
pub fn law_listed()
    ensures { (counts amounts : List Item) (x : ℕ) (l h : Fraction) → 0 < weight_sum counts
        → 0 < weight_sum amounts
        → l ≤ℚ cell (probability_at counts) (probability_at amounts) x (greatest counts)
        → cell (probability_at counts) (probability_at amounts) x (greatest counts) ≤ℚ h
        → Holds (partial_sums (loss (listed_aggregate counts amounts) ∷ []) (Point x))
        (partial_sums (loss (listed_aggregate counts amounts) ∷ []) One) l h }
{}

/// With exactly one claim the probability of the sum `x` is that of the amount `x`.
#[tactic(auto, using(crate::proofs::ListedLaws::one_claim))]
pub fn law_one_claim()
    ensures { (amounts : List Item) (x : ℕ)
        → cell (probability_at (equally_likely (1 ∷ []))) (probability_at amounts) x
        (greatest (equally_likely (1 ∷ [])))
        ≡ probability_at amounts x }
{}

/// Horner's rule, for every weight `w` of a count and every severity `f`: the greatest count leaves
/// its weight at 0, each count before it adds its own weight at 0 to the convolution of the
/// severity with the result for the greater counts, and the count 0 ends with the compound sum.
#[tactic(auto, using(crate::proofs::Horner::horner_start, crate::proofs::Horner::horner_next, crate::proofs::Horner::horner_end))]
pub fn law_horner()
    ensures greatest { (w f : ℕ → Fraction) (k s : ℕ) → cell_from w f k s 0 ≡ w k *ℚ at_zero s }
    ensures step { (w f : ℕ → Fraction) (k s N : ℕ)
        → cell_from w f k s (suc N) ≡ w k *ℚ at_zero s +ℚ convolve f
        (λ j. cell_from w f (suc k) j N) s }
    ensures none { (w f : ℕ → Fraction) (s N : ℕ) → cell_from w f 0 s N ≡ cell w f s N }
{}

/// A step of Horner's rule on a grid of `cells` cells, in units of 1 / `scale`, rounded outward:
/// with `lo` below the severity, `low` below the step before, and `start` below the count's
/// weight, the next low ends are a floor of the convolution, and `start` more at 0. The high ends
/// go the other way.
pub fn law_horner_outward()
    ensures low { (scale cells k N : ℕ) (w f : ℕ → Fraction) (lo low next : ℕ → ℕ)
        (start : ℕ) → 0 < scale
        → ((i : ℕ) → i < cells → lo i over scale ≤ℚ f i)
        → ((j : ℕ) → j < cells → low j over scale ≤ℚ cell_from w f (suc k) j N)
        → start over scale ≤ℚ w k
        → ((s : ℕ) → s < cells → next s * scale ≤ count_pairs s (λ i j. lo i * low j))
        → (s : ℕ) → s < cells
        → ((if s == 0 then start else 0) + next s) over scale ≤ℚ cell_from w f k s
        (suc N) }
    ensures high { (scale cells k N : ℕ) (w f : ℕ → Fraction) (hi high next : ℕ → ℕ)
        (start : ℕ) → 0 < scale
        → ((i : ℕ) → i < cells → f i ≤ℚ hi i over scale)
        → ((j : ℕ) → j < cells → cell_from w f (suc k) j N ≤ℚ high j over scale)
        → w k ≤ℚ start over scale → ((s : ℕ) → s < cells
        → count_pairs s (λ i j. hi i * high j) ≤ next s * scale)
        → (s : ℕ) → s < cells → cell_from w f k s (suc N) ≤ℚ
        ((if s == 0 then start else 0) + next s) over scale }
{}
