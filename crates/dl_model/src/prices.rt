//! The laws of prices, which are weighted sums of tail means (Klugman, Panjer and Willmot, Loss
//! Models, "Risk measures").

ghost use Rattle.std.specs.Prelude.{ℕ, ◌≡◌, ◌-◌, ◌<◌, ◌≤◌, None, List, All};
ghost use Rattle.dl_exact.specs.Prelude.{Fraction, whole, ◌+ℚ◌, ◌-ℚ◌, ◌*ℚ◌, ◌/ℚ◌, ◌≤ℚ◌, ◌<ℚ◌, sum_over};
ghost use Rattle.dl_model.specs.Series.{IsBound, AtMost, AtLeast};
ghost use Rattle.dl_model.specs.Program.{Loss, AreDeclarable, PricedTerm, One, Cdf, Layer, Tail, Price, partial_sums};
ghost use Rattle.dl_model.specs.Measures.{IsQuantile};

/// A price is the weighted sum of the tail means of its terms: at each level, and so are low and
/// high ends of it.
#[tactic(auto, using(crate::proofs::PriceLaws::price_sums, crate::proofs::PriceLaws::price_least, crate::proofs::PriceLaws::price_most))]
pub fn law_price()
    ensures sums { (us : List Loss) (terms : List PricedTerm) (N : ℕ)
        → partial_sums us (Price terms) N
        ≡ sum_over terms (λ t. t.weight *ℚ partial_sums us (Tail t.p t.quantile) N) }
    ensures least { (us : List Loss) → AreDeclarable us
        → (terms : List PricedTerm) (low : PricedTerm → Fraction)
        → All (λ t. AtLeast (partial_sums us (Tail t.p t.quantile)) (partial_sums us One) (low t))
        terms
        → AtLeast (partial_sums us (Price terms)) (partial_sums us One)
        (sum_over terms (λ t. t.weight *ℚ low t)) }
    ensures most { (us : List Loss) → AreDeclarable us
        → (terms : List PricedTerm) (high : PricedTerm → Fraction)
        → All (λ t. AtMost (partial_sums us (Tail t.p t.quantile)) (partial_sums us One) (high t))
        terms
        → AtMost (partial_sums us (Price terms)) (partial_sums us One)
        (sum_over terms (λ t. t.weight *ℚ high t)) }
{}

/// The tail mean is least at the quantile: a low end of `q + excess(q) / (1 - p)` there is one at
/// every whole number `q`, with `r` for `1 - p`.
pub fn law_tail_least()
    ensures { (us : List Loss) → AreDeclarable us
        → (p r bound : Fraction) → IsBound (partial_sums us One) bound
        → p +ℚ r ≡ whole 1 → whole 0 <ℚ r → (quantile q : ℕ) (low : Fraction)
        → IsQuantile (partial_sums us) quantile p
        → AtLeast (partial_sums us (Tail p quantile)) (partial_sums us One) low
        → AtLeast (partial_sums us (Tail p q)) (partial_sums us One) low }
{}

/// Low ends at every whole number `q` from a bracket of the quantile, from `a` to `b`, where the
/// distribution is at most `p` before `a`, at least `p - s` inside, and at least `p` at `b`: `a`
/// itself, and what the mean of the layer above `a` gives, lowered by what the bracket leaves open.
pub fn law_tail_least_in()
    ensures start { (us : List Loss) → AreDeclarable us
        → (p r bound : Fraction) → IsBound (partial_sums us One) bound
        → p +ℚ r ≡ whole 1 → whole 0 <ℚ r → (a : ℕ)
        → ((x : ℕ) → x < a → AtMost (partial_sums us (Cdf x)) (partial_sums us One) p) → (q : ℕ)
        → AtLeast (partial_sums us (Tail p q)) (partial_sums us One) (whole a) }
    ensures excess { (us : List Loss) → AreDeclarable us
        → (p r bound : Fraction) → IsBound (partial_sums us One) bound
        → p +ℚ r ≡ whole 1 → whole 0 <ℚ r → (a : ℕ)
        → ((x : ℕ) → x < a → AtMost (partial_sums us (Cdf x)) (partial_sums us One) p)
        → (b : ℕ) (s l low : Fraction) → a ≤ b
        → ((x : ℕ) → a ≤ x → x < b → AtLeast (partial_sums us (Cdf x)) (partial_sums us One)
        (p -ℚ s))
        → AtLeast (partial_sums us (Cdf b)) (partial_sums us One) p
        → AtLeast (partial_sums us (Layer None a)) (partial_sums us One) l
        → low +ℚ whole (b - a) *ℚ (whole 1 /ℚ r *ℚ s) ≤ℚ whole a +ℚ whole 1 /ℚ r *ℚ l → (q : ℕ)
        → AtLeast (partial_sums us (Tail p q)) (partial_sums us One) low }
{}
