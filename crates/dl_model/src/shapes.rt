//! The laws of gamma counts of any shape (Klugman, Panjer and Willmot, Loss Models, "The (a, b, 0)
//! class"): sums of shapes, how the weights grow, square roots of the probability of no claim, and
//! thinning. No power with a fraction for its exponent is in them.

ghost use Rattle.std.specs.Prelude.{ℕ, ◌≡◌, ◌<◌};
ghost use Rattle.dl_exact.specs.Prelude.{Fraction, whole, ◌+ℚ◌, ◌*ℚ◌, ◌<ℚ◌, ◌≤ℚ◌, sum_to};
ghost use Rattle.dl_model.specs.Series.{IsBound, AtMost, AtLeast};
ghost use Rattle.dl_model.specs.Compound.{convolve};
ghost use Rattle.dl_model.specs.Severity.{IsPositivePart};
ghost use Rattle.dl_model.specs.Counts.{gamma, gamma_of};
ghost use Rattle.dl_model.specs.Family.{SameCells, compound, product, times_itself};

/// Two gamma counts of one `x` added up are one whose shape is the sum of theirs.
pub fn law_sum_of_shapes()
    ensures { (r t x : Fraction) (n : ℕ)
        → convolve (gamma r x) (gamma t x) n ≡ gamma (r +ℚ t) x n }
{}

/// Sums of gamma numbers of claims with one severity and means of `b` times their shapes, added up:
/// `k` of shape 1 are one of shape `k`, and those of shapes `r` and `t` are one of shape `r + t`.
pub fn law_added_shapes()
    ensures powers { (k : ℕ) (b : Fraction) (f : ℕ → Fraction) → 0 < k
        → SameCells (times_itself (compound (gamma_of (whole 1) b) f) k)
        (compound (gamma_of (whole k) (whole k *ℚ b)) f) }
    ensures sum { (r t b : Fraction) (f : ℕ → Fraction) → whole 0 <ℚ r → whole 0 <ℚ t
        → SameCells
        (product (compound (gamma_of r (r *ℚ b)) f) (compound (gamma_of t (t *ℚ b)) f))
        (compound (gamma_of (r +ℚ t) ((r +ℚ t) *ℚ b)) f) }
{}

/// No weight falls as the shape grows; and the sums of the weights are bounded, with `d` for
/// `1 - x`.
pub fn law_rising_shape()
    ensures weights { (r t x : Fraction) (n : ℕ) → r ≤ℚ t → gamma r x n ≤ℚ gamma t x n }
    ensures bounded { (r x d : Fraction) → x +ℚ d ≡ whole 1 → whole 0 <ℚ d
        → (u : Fraction) × IsBound (λ N. sum_to N (gamma r x)) u }
{}

/// The probability of no claim, 1 over the sum of the weights: of the sum of two shapes it is the
/// product of theirs.
pub fn law_no_claim_of_shapes()
    ensures least { (r t x l m : Fraction) → AtLeast (λ N. whole 1) (λ N. sum_to N (gamma r x)) l
        → AtLeast (λ N. whole 1) (λ N. sum_to N (gamma t x)) m
        → AtLeast (λ N. whole 1) (λ N. sum_to N (gamma (r +ℚ t) x)) (l *ℚ m) }
    ensures most { (r t x h k : Fraction) → AtMost (λ N. whole 1) (λ N. sum_to N (gamma r x)) h
        → AtMost (λ N. whole 1) (λ N. sum_to N (gamma t x)) k
        → AtMost (λ N. whole 1) (λ N. sum_to N (gamma (r +ℚ t) x)) (h *ℚ k) }
{}

/// Of a shape up to 1 the probability of no claim is at least that of shape 1, and at most 1.
pub fn law_no_claim_below_one()
    ensures least { (r x l : Fraction) → r ≤ℚ whole 1
        → AtLeast (λ N. whole 1) (λ N. sum_to N (gamma (whole 1) x)) l
        → AtLeast (λ N. whole 1) (λ N. sum_to N (gamma r x)) l }
    ensures most { (r x : Fraction)
        → AtMost (λ N. whole 1) (λ N. sum_to N (gamma r x)) (whole 1) }
{}

/// The probability of no claim of half a shape is its square root: a fraction is below where its
/// square is, and above where its square is.
pub fn law_roots()
    ensures least { (t x l a : Fraction)
        → AtLeast (λ N. whole 1) (λ N. sum_to N (gamma (t +ℚ t) x)) l → a *ℚ a ≤ℚ l
        → AtLeast (λ N. whole 1) (λ N. sum_to N (gamma t x)) a }
    ensures most { (t x h b : Fraction)
        → AtMost (λ N. whole 1) (λ N. sum_to N (gamma (t +ℚ t) x)) h → h ≤ℚ b *ℚ b
        → AtMost (λ N. whole 1) (λ N. sum_to N (gamma t x)) b }
{}

/// Thinning: with `p` the probability of an amount above 0 and `g` the severity of those amounts,
/// the sum of gamma claims of any shape has in every cell the declared value of that of `g` with
/// the mean `v` times `p`.
pub fn law_gamma_thinned()
    ensures { (r v p : Fraction) (f g : ℕ → Fraction) → whole 0 <ℚ r → IsPositivePart f p g
        → SameCells (compound (gamma_of r v) f) (compound (gamma_of r (v *ℚ p)) g) }
{}
