//! The laws of a common factor: units whose claim counts are Poisson given one gamma factor that
//! scales all of their means (Klugman, Panjer and Willmot, Loss Models, "Mixed frequency
//! distributions").

ghost use Rattle.std.specs.Prelude.{ℕ, suc, ◌≡◌, ◌*◌, ◌<◌, ◌≤◌, Option, List, [], ◌∷◌};
ghost use Rattle.dl_exact.specs.Prelude.{Fraction, whole, ◌+ℚ◌, ◌*ℚ◌, ◌/ℚ◌, ◌≤ℚ◌, ◌<ℚ◌, sum_to, sum_pairs};
ghost use Rattle.dl_plan.specs.Common.{raised};
ghost use Rattle.dl_model.specs.Series.{IsBound, AtLeast, Holds};
ghost use Rattle.dl_model.specs.Compound.{convolve, cell};
ghost use Rattle.dl_model.specs.Counts.{gamma, gamma_of};
ghost use Rattle.dl_model.specs.Severity.{IsSeverity};
ghost use Rattle.dl_model.specs.Divided.{divided_power};
ghost use Rattle.dl_model.specs.Program.{Quantity, PricedTerm, One, Point, Cdf, Mean, Layer, Tail, Joint, Price, Part, score, partial_sums};
ghost use Rattle.dl_model.specs.Units.{loss};
ghost use Rattle.dl_model.specs.Measures.{IsAsked, IsQuantile, IsDeclaredLoss};
ghost use Rattle.dl_model.specs.CommonFactor.{PoissonUnit, expected_claims, common_sums, pooled_severity, pooled_unit, AreSeverities, CountsTotal, IsUnit};

/// The binomial law of divided powers: the divided power of a sum of two is the sum, over all
/// splits of `n` into `j + k`, of the convolutions of the divided powers of the parts.
#[tactic(auto, using(crate::proofs::Divided::divided_plus))]
pub fn law_divided_powers()
    ensures { (f g : ℕ → Fraction) (n s : ℕ) → divided_power (λ j. f j +ℚ g j) n s
        ≡ sum_pairs n (λ j k. convolve (divided_power f j) (divided_power g k) s) }
{}

/// The quantities that a list of outcomes counts for by its total alone.
#[tactic(auto, using(crate::proofs::Pooled::total_point, crate::proofs::Pooled::total_cdf, crate::proofs::Pooled::total_mean, crate::proofs::Pooled::total_layer, crate::proofs::Pooled::total_tail, crate::proofs::Pooled::total_price, crate::proofs::Pooled::total_part))]
pub fn law_counts_total()
    ensures one { CountsTotal One }
    ensures point { (x : ℕ) → CountsTotal (Point x) }
    ensures cdf { (x : ℕ) → CountsTotal (Cdf x) }
    ensures mean { CountsTotal Mean }
    ensures layer { (limit : Option ℕ) (attachment : ℕ) → CountsTotal (Layer limit attachment) }
    ensures tail { (p : Fraction) (q : ℕ) → CountsTotal (Tail p q) }
    ensures price { (terms : List PricedTerm) → CountsTotal (Price terms) }
    ensures part { (q : ℕ) (u : Fraction) → CountsTotal (Part q u) }
{}

/// Of their total, units under a common factor of shape `r` declare at each level `N` what one unit
/// does whose count is the gamma of shape `r` and of all their expected claims, and whose severity
/// is the mixture of theirs; `most` is a number that no amount of it passes.
#[tactic(auto, using(crate::proofs::Pooled::pooled))]
pub fn law_pooled()
    ensures { (r : Fraction) (us : List PoissonUnit) → AreSeverities us
        → whole 0 <ℚ expected_claims us
        → (most : ℕ) → ((a : ℕ) → most < a → pooled_severity us a ≡ whole 0)
        → (quantity : Quantity) → CountsTotal quantity → (N : ℕ)
        → common_sums r us quantity N ≡ sum_to (N * most) (λ x.
        cell (gamma_of r (expected_claims us)) (pooled_severity us) x N *ℚ
        score quantity (x ∷ [])) }
{}

/// The probabilities of the mixture add up to 1, and the whole weight of such units is that of the
/// gamma count of all their expected claims: so the one unit can be declared, and is bounded,
/// positive somewhere and whole.
pub fn law_pooled_unit()
    ensures severity { (us : List PoissonUnit) → AreSeverities us → whole 0 <ℚ expected_claims us
        → (most : ℕ) → ((a : ℕ) → most < a → pooled_severity us a ≡ whole 0)
        → IsSeverity (pooled_severity us) most }
    ensures all { (r : Fraction) (us : List PoissonUnit) → AreSeverities us
        → whole 0 <ℚ expected_claims us
        → (most : ℕ) → ((a : ℕ) → most < a → pooled_severity us a ≡ whole 0) → (N : ℕ)
        → common_sums r us One N ≡ sum_to N (gamma_of r (expected_claims us)) }
{}

/// The joint mean of unit `i` at the total `x`, with claims up to the level `N + 1`: the shape `r`
/// times the unit's chance of a claim, times the sum over the amounts `a` of one claim of it of the
/// amount times its probability times the cell `x - a` of the pooled unit with one more in the
/// shape, at the level `N`. With no claim there is no outcome.
pub fn law_common_joint()
    ensures none { (r : Fraction) (us : List PoissonUnit) → whole 0 <ℚ expected_claims us
        → AreSeverities us
        → (most : ℕ) → ((a : ℕ) → most < a → pooled_severity us a ≡ whole 0)
        → (i : ℕ) (u : PoissonUnit) → IsUnit us i u → (x : ℕ)
        → common_sums r us (Joint i x) 0 ≡ whole 0 }
    ensures next { (r : Fraction) (us : List PoissonUnit) → whole 0 <ℚ expected_claims us
        → AreSeverities us
        → (most : ℕ) → ((a : ℕ) → most < a → pooled_severity us a ≡ whole 0)
        → (i : ℕ) (u : PoissonUnit) → IsUnit us i u → (x N : ℕ)
        → common_sums r us (Joint i x) (suc N)
        ≡ r *ℚ (u.mean /ℚ (r +ℚ expected_claims us)) *ℚ sum_pairs x
        (λ a k. whole a *ℚ u.severity a *ℚ
        cell (gamma (r +ℚ whole 1) (expected_claims us /ℚ (r +ℚ expected_claims us)))
        (pooled_severity us) k N) }
{}

/// The pooled unit with one more in the shape and the raised mean `v * (r + 1) / r` has the gamma
/// weights of the same part `v / (r + v)`.
#[tactic(auto, using(crate::proofs::SharedValues::raised_weights))]
pub fn law_raised()
    ensures { (r : Fraction) → whole 0 <ℚ r → (v : Fraction) (n : ℕ)
        → gamma_of (r +ℚ whole 1) (raised r v) n ≡ gamma (r +ℚ whole 1) (v /ℚ (r +ℚ v)) n }
{}

/// The declared joint mean of unit `i` at the total `x`: its expected number of claims, times the
/// sum over the amounts `a` of one claim of it of the amount times its probability times what the
/// raised unit declares of the sum `x - a`; from low and high ends of that, low and high ends.
pub fn law_common_joint_mean()
    ensures { (r : Fraction) → whole 0 <ℚ r → (us : List PoissonUnit)
        → whole 0 <ℚ expected_claims us → AreSeverities us
        → (most : ℕ) → ((a : ℕ) → most < a → pooled_severity us a ≡ whole 0)
        → (i : ℕ) (u : PoissonUnit) → IsUnit us i u → (x : ℕ) → (lo hi : ℕ → Fraction)
        → ((k : ℕ) → k ≤ x → Holds
        (cell (gamma_of (r +ℚ whole 1) (raised r (expected_claims us))) (pooled_severity us) k)
        (λ N. sum_to N (gamma_of (r +ℚ whole 1) (raised r (expected_claims us)))) (lo k) (hi k))
        → Holds (common_sums r us (Joint i x)) (common_sums r us One)
        (u.mean *ℚ sum_pairs x (λ a k. whole a *ℚ u.severity a *ℚ lo k))
        (u.mean *ℚ sum_pairs x (λ a k. whole a *ℚ u.severity a *ℚ hi k)) }
{}

/// No outcome of a unit is above the total, so its joint sums are at most `x` times those of the
/// total `x`.
#[tactic(auto, using(crate::proofs::SharedBounds::joint_within))]
pub fn law_joint_within()
    ensures { (r : Fraction) (us : List PoissonUnit) (i x N : ℕ)
        → common_sums r us (Joint i x) N ≤ℚ whole x *ℚ common_sums r us (Point x) N }
{}

/// As one loss: whatever counts the total alone is what the pooled unit declares, whose loss can be
/// declared.
pub fn law_pooled_loss()
    ensures same { (r : Fraction) → whole 0 <ℚ r → (us : List PoissonUnit)
        → whole 0 <ℚ expected_claims us → AreSeverities us
        → (most : ℕ) → ((a : ℕ) → most < a → pooled_severity us a ≡ whole 0)
        → (quantity : Quantity) → CountsTotal quantity → (N : ℕ)
        → common_sums r us quantity N
        ≡ partial_sums (loss (pooled_unit r us most) ∷ []) quantity N }
    ensures declared { (r : Fraction) → whole 0 <ℚ r → (us : List PoissonUnit)
        → whole 0 <ℚ expected_claims us → AreSeverities us
        → (most : ℕ) → ((a : ℕ) → most < a → pooled_severity us a ≡ whole 0)
        → IsDeclaredLoss (loss (pooled_unit r us most)) }
{}

/// Under a common factor every quantity that can be asked is bounded, those of one unit too: its
/// joint mean and its share of a tail mean. The whole weight is above 0 at some level; the declared
/// probabilities add up to 1; and there is at most one quantile at each `p`.
pub fn law_common_declared()
    ensures bounded { (r : Fraction) → whole 0 <ℚ r → (us : List PoissonUnit)
        → whole 0 <ℚ expected_claims us → AreSeverities us
        → (most : ℕ) → ((a : ℕ) → most < a → pooled_severity us a ≡ whole 0)
        → (quantity : Quantity) → IsAsked quantity
        → (u : Fraction) × IsBound (common_sums r us quantity) u }
    ensures positive { (r : Fraction) → whole 0 <ℚ r → (us : List PoissonUnit)
        → whole 0 <ℚ expected_claims us → AreSeverities us
        → (most : ℕ) → ((a : ℕ) → most < a → pooled_severity us a ≡ whole 0)
        → (N : ℕ) × (whole 0 <ℚ common_sums r us One N) }
    ensures adds_up { (r : Fraction) → whole 0 <ℚ r → (us : List PoissonUnit)
        → whole 0 <ℚ expected_claims us → AreSeverities us
        → (most : ℕ) → ((a : ℕ) → most < a → pooled_severity us a ≡ whole 0)
        → (p s : Fraction) → p +ℚ s ≡ whole 1 → whole 0 <ℚ s
        → (x : ℕ) × AtLeast (common_sums r us (Cdf x)) (common_sums r us One) p }
    ensures quantile { (r : Fraction) → whole 0 <ℚ r → (us : List PoissonUnit)
        → whole 0 <ℚ expected_claims us → AreSeverities us
        → (most : ℕ) → ((a : ℕ) → most < a → pooled_severity us a ≡ whole 0)
        → (p : Fraction) (x x' : ℕ) → IsQuantile (common_sums r us) x p
        → IsQuantile (common_sums r us) x' p → x ≡ x' }
{}
