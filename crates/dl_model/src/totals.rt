//! The laws of the total of independent losses.

ghost use Rattle.std.specs.Prelude.{ℕ, ◌≡◌, ◌+◌, ◌<◌, ◌++◌, List, [], ◌∷◌, length, take, drop, get_or, Some, None};
ghost use Rattle.dl_exact.specs.Prelude.{Fraction, whole, ◌+ℚ◌, ◌-ℚ◌, ◌*ℚ◌, ◌/ℚ◌, ◌<ℚ◌, sum_to, sum_pairs, sum_below};
ghost use Rattle.dl_model.specs.Series.{Rises, Holds};
ghost use Rattle.dl_model.specs.Program.{Loss, IsLoss, AreDeclarable, One, Point, Cdf, Mean, Layer, Tail, Joint, sum_over_outcomes, partial_sums, total};
ghost use Rattle.dl_model.specs.Family.{product, nothing, IsProper, Encloses};
ghost use Rattle.dl_model.specs.Measures.{survival, unit_of, without};

/// The mean of a total is the sum of the means of its units.
pub fn law_mean()
    ensures { (u : Loss) (us : List Loss) → IsLoss u → AreDeclarable us
        → (l h l' h' : Fraction)
        → Holds (partial_sums (u ∷ []) Mean) (partial_sums (u ∷ []) One) l h
        → Holds (partial_sums us Mean) (partial_sums us One) l' h'
        → Holds (partial_sums (u ∷ us) Mean) (partial_sums (u ∷ us) One) (l +ℚ l') (h +ℚ h') }
{}

/// The total of no units is 0, of one unit that unit's outcome, and of two lists of units the
/// product of their totals.
pub fn law_total()
    ensures none { (scale cells : ℕ) (lo hi : ℕ → ℕ) → Encloses scale cells lo hi nothing
        → Encloses scale cells lo hi (total []) }
    ensures alone { (scale cells : ℕ) (lo hi : ℕ → ℕ) (u : Loss) → IsLoss u
        → Encloses scale cells lo hi u.family → Encloses scale cells lo hi (total (u ∷ [])) }
    ensures both { (scale cells : ℕ) (lo hi : ℕ → ℕ) (us vs : List Loss) → AreDeclarable us
        → Encloses scale cells lo hi (product (total us) (total vs))
        → Encloses scale cells lo hi (total (us ++ vs)) }
    ensures proper { (us : List Loss) → AreDeclarable us → IsProper (total us) }
{}

/// No quantity falls as the bound on the claims grows, whatever a list of outcomes counts for.
#[tactic(auto, using(crate::proofs::Outcomes::outcomes_rise))]
pub fn law_rises()
    ensures { (us : List Loss) → AreDeclarable us → (value : List ℕ → Fraction)
        → Rises (sum_over_outcomes us value) }
{}

/// The distribution is the sum of the points, and with what is above it the whole.
#[tactic(auto, using(crate::proofs::Scores::cdf_points, crate::proofs::Scores::survival_rest))]
pub fn law_distribution()
    ensures points { (us : List Loss) (x N : ℕ)
        → partial_sums us (Cdf x) N ≡ sum_to x (λ y. partial_sums us (Point y) N) }
    ensures rest { (us : List Loss) (x N : ℕ)
        → survival us x N +ℚ partial_sums us (Cdf x) N ≡ partial_sums us One N }
{}

/// The mean of a layer is the sum of what the distribution leaves over the layer. A layer and what
/// is above it make up the layer without a limit, from 0 on the mean.
#[tactic(auto, using(crate::proofs::Scores::layer_survivals, crate::proofs::Scores::mean_split, crate::proofs::TailEnds::excess_split))]
pub fn law_layer()
    ensures survivals { (us : List Loss) (limit attachment N : ℕ)
        → partial_sums us (Layer (Some limit) attachment) N
        ≡ sum_below limit (λ i. survival us (attachment + i) N) }
    ensures split { (us : List Loss) (limit attachment N : ℕ)
        → partial_sums us (Layer None (attachment + limit)) N +ℚ partial_sums us
        (Layer (Some limit) attachment) N ≡ partial_sums us (Layer None attachment) N }
    ensures mean { (us : List Loss) (attachment N : ℕ)
        → partial_sums us (Layer None attachment) N +ℚ partial_sums us
        (Layer (Some attachment) 0) N ≡ partial_sums us Mean N }
{}

/// The tail mean is the quantile, and what is above it over the rest of the probability.
#[tactic(auto, using(crate::proofs::TailScores::tail_excess))]
pub fn law_tail()
    ensures { (us : List Loss) (p : Fraction) (q N : ℕ) → p <ℚ whole 1
        → partial_sums us (Tail p q) N ≡ whole q *ℚ partial_sums us One N +ℚ whole 1 /ℚ
        (whole 1 -ℚ p) *ℚ partial_sums us (Layer None q) N }
{}

/// The joint mean is the sum, over the outcomes of the unit and the totals of the others that add
/// up to `x`, of the outcome times the weights of both.
#[tactic(auto, using(crate::proofs::Joint::joint_cells))]
pub fn law_joint()
    ensures { (us : List Loss) → AreDeclarable us → (i x N : ℕ) → i < length us
        → partial_sums us (Joint i x) N ≡ sum_pairs x
        (λ y z. whole y *ℚ (unit_of us i).cells y N *ℚ partial_sums (without us i) (Point z) N) }
{}

/// The units without unit `i` are those before it and those after it, and the family of unit `i` is
/// that of its outcomes.
#[tactic(auto, using(crate::proofs::Without::without_is, crate::proofs::Without::unit_is, crate::proofs::Without::without_units))]
pub fn law_without()
    ensures parts { (us : List Loss) (i : ℕ) → without us i ≡ take i us ++ drop (i + 1) us }
    ensures unit { (us : List Loss) (i : ℕ) (default : Loss) → i < length us
        → unit_of us i ≡ (get_or us i default).family }
    ensures units { (us : List Loss) (i : ℕ) → AreDeclarable us
        → AreDeclarable (without us i) }
{}
