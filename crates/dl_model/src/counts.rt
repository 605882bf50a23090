//! The laws of claim counts (Klugman, Panjer and Willmot, Loss Models, "The (a, b, 0) class"): sums
//! of weights, counts added up, and claims of amount 0 left out.

ghost use Rattle.std.specs.Prelude.{ℕ, suc, ◌≡◌, ◌-◌, ◌<◌, ◌≤◌};
ghost use Rattle.dl_exact.specs.Prelude.{Fraction, whole, ◌over◌, ◌+ℚ◌, ◌*ℚ◌, ◌/ℚ◌, ◌<ℚ◌, ◌≤ℚ◌, ◌^ℚ◌, sum_to};
ghost use Rattle.dl_model.specs.Series.{Series, IsBound, Rises, Holds, times, SameBounds, SameValue, IsLeastBound, Settles};
ghost use Rattle.dl_model.specs.Compound.{convolve, at_zero, power, cell};
ghost use Rattle.dl_model.specs.Severity.{IsSeverity, IsPositivePart};
ghost use Rattle.dl_model.specs.Counts.{fixed, binomial, poisson, gamma, gamma_of, IsPanjer};
ghost use Rattle.dl_model.specs.Family.{Family, compound, nothing, times_itself, SameCells, Encloses};

/// Poisson and gamma counts are of the (a, b, 0) class, by a and c = a + b: a = 0 and c the mean;
/// a = x and c = r * x for the shape r.
pub fn law_class()
    ensures poisson { (v : Fraction) → IsPanjer (whole 0) v (poisson v) }
    ensures gamma { (r x : Fraction) → IsPanjer x (r *ℚ x) (gamma r x) }
{}

/// The sums over at most `N` claims of two counts together have the least upper bound of the
/// product of their sums.
pub fn law_product_counts()
    ensures { (v w : ℕ → Fraction) → SameBounds (λ N. sum_to N (convolve v w))
        (times (λ N. sum_to N v) (λ N. sum_to N w)) }
{}

/// The sums of Poisson weights are bounded: past a number `most` with twice the mean at most `most
/// + 1`, by the weight of `most`.
pub fn law_poisson_bounded()
    ensures there { (v : Fraction) → (u : Fraction) × IsBound (λ N. sum_to N (poisson v)) u }
    ensures past { (v : Fraction) (most : ℕ) → v +ℚ v ≤ℚ whole (suc most)
        → IsBound (λ N. sum_to N (poisson v)) (sum_to most (poisson v) +ℚ poisson v most) }
{}

/// The sums of the gamma weights of shape `s + 1` have the least upper bound `(1 / (1 - x))^(s +
/// 1)`, with `d` for `1 - x`.
pub fn law_gamma_least()
    ensures { (x d L : Fraction) (s : ℕ) → x +ℚ d ≡ whole 1 → L *ℚ d ≡ whole 1
        → IsLeastBound (λ N. sum_to N (gamma (whole (suc s)) x)) (L ^ℚ suc s) }
{}

/// The sums of Poisson and of gamma weights, of any shape, come near their least upper bounds, at a
/// rate that is known.
pub fn law_settles()
    ensures poisson { (v : Fraction) → Settles (λ N. sum_to N (poisson v)) }
    ensures gamma { (r x d : Fraction) → x +ℚ d ≡ whole 1 → whole 0 <ℚ d
        → Settles (λ N. sum_to N (gamma r x)) }
{}

/// A bounded factor of both series that is above 0 somewhere changes no declared
/// value.
pub fn law_common_factor()
    ensures { (E Q R : Series) (e : Fraction) (k : ℕ) → Rises E → IsBound E e → whole 0 <ℚ E k
        → Rises Q → Rises R
        → SameValue (times E Q) (times E R) Q R }
{}

/// What encloses a family encloses each that has the same declared value in every cell.
pub fn law_same_cells()
    ensures { (scale cells : ℕ) (lo hi : ℕ → ℕ) (F G : Family) → SameCells F G
        → Encloses scale cells lo hi F
        → Encloses scale cells lo hi G }
{}

/// `n` compound sums with one count and severity, added up, are the compound sum whose count is `n`
/// of these counts added up: so of exactly one claim, and of one trial.
pub fn law_count_powers()
    ensures any { (w f : ℕ → Fraction) (n : ℕ)
        → SameCells (times_itself (compound w f) n) (compound (power w n) f) }
    ensures fixed { (f : ℕ → Fraction) (m : ℕ)
        → SameCells (times_itself (compound (fixed 1) f) m) (compound (fixed m) f) }
    ensures trials { (f : ℕ → Fraction) (m a b : ℕ) → 0 < b
        → SameCells (times_itself (compound (binomial 1 a b) f) m) (compound (binomial m a b) f) }
{}

/// The part of the sum `y` from one claim, and from one trial with probability `a / b`.
#[tactic(auto, using(crate::proofs::Beginnings::one_claim_cell, crate::proofs::Beginnings::one_trial_cell))]
pub fn law_at_most_one_claim()
    ensures claim { (f : ℕ → Fraction) (y : ℕ) → cell (fixed 1) f y 1 ≡ f y }
    ensures trial { (f : ℕ → Fraction) (a b y : ℕ) → 0 < b
        → cell (binomial 1 a b) f y 1 ≡ (b - a) over b *ℚ at_zero y +ℚ a over b *ℚ f y }
{}

/// Where the mean times the probability of an amount above 0 is 0, there is no loss.
pub fn law_no_loss()
    ensures poisson { (v p : Fraction) (f g : ℕ → Fraction) → IsPositivePart f p g
        → v *ℚ p ≡ whole 0 → SameCells nothing (compound (poisson v) f) }
    ensures gamma { (r v p : Fraction) (f g : ℕ → Fraction) → whole 0 <ℚ r → IsPositivePart f p g
        → v *ℚ p ≡ whole 0
        → SameCells nothing (compound (gamma_of r v) f) }
{}

/// Counts added up: `m` times one claim, `m` trials, `k` Poisson counts, `r` geometric counts.
#[tactic(auto, using(crate::proofs::AddedCounts::fixed_power, crate::proofs::AddedCounts::binomial_power, crate::proofs::PoissonTimes::poisson_power, crate::proofs::Gamma::gamma_power))]
pub fn law_added_counts()
    ensures fixed { (m n : ℕ) → power (fixed 1) m n ≡ fixed m n }
    ensures binomial { (a b m n : ℕ) → 0 < b → power (binomial 1 a b) m n ≡ binomial m a b n }
    ensures poisson { (u : Fraction) (k n : ℕ) → power (poisson u) k n ≡ poisson (whole k *ℚ u) n }
    ensures gamma { (x : Fraction) (s n : ℕ)
        → power (gamma (whole 1) x) (suc s) n ≡ gamma (whole (suc s)) x n }
{}

/// Thinning and shares of a Poisson count: with `p` the probability of an amount above 0 and `g`
/// the severity of those amounts, `k` compound sums of mean `u`, where `k * u` is the mean `v`
/// times `p`, have in every cell the declared value of mean `v`.
pub fn law_poisson_shares()
    ensures { (u v p : Fraction) (k : ℕ) (f g : ℕ → Fraction) → IsPositivePart f p g
        → whole k *ℚ u ≡ v *ℚ p
        → SameCells (times_itself (compound (poisson u) g) k) (compound (poisson v) f) }
{}

/// Thinning and shares of a gamma count: as many geometric compound sums of mean `u` as its shape
/// says, where the shape times `u` is the mean `v` times `p`, have in every cell the declared value
/// of the gamma count of mean `v`.
pub fn law_gamma_shares()
    ensures { (q : ℕ) (u v p : Fraction) (f g : ℕ → Fraction) → IsPositivePart f p g
        → whole (suc q) *ℚ u ≡ v *ℚ p
        → SameCells (times_itself (compound (gamma_of (whole 1) u) g) (suc q))
        (compound (gamma_of (whole (suc q)) v) f) }
{}

/// The expected number of claims: of a count of finitely many claims, exact, of trials with
/// probability `a / b`, Poisson, and gamma.
pub fn law_expected_count()
    ensures finite { (w : ℕ → Fraction) (far : ℕ) → IsSeverity w far
        → Holds (λ N. sum_to N (λ n. whole n *ℚ w n)) (λ N. sum_to N w)
        (sum_to far (λ n. whole n *ℚ w n)) (sum_to far (λ n. whole n *ℚ w n)) }
    ensures fixed { (m : ℕ) → Holds (λ N. sum_to N (λ n. whole n *ℚ fixed m n))
        (λ N. sum_to N (fixed m)) (whole m) (whole m) }
    ensures binomial { (m a b : ℕ) → 0 < b → a ≤ b
        → Holds (λ N. sum_to N (λ n. whole n *ℚ binomial m a b n)) (λ N. sum_to N (binomial m a b))
        (whole m *ℚ a over b) (whole m *ℚ a over b) }
    ensures poisson { (v : Fraction) → Holds (λ N. sum_to N (λ n. whole n *ℚ poisson v n))
        (λ N. sum_to N (poisson v)) v v }
    ensures gamma { (r v : Fraction) → whole 0 <ℚ r
        → Holds (λ N. sum_to N (λ n. whole n *ℚ gamma_of r v n))
        (λ N. sum_to N (gamma_of r v)) v v }
{}
