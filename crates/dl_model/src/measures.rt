//! The laws of quantiles, of layers without a limit, and of tail means.

ghost use Rattle.std.specs.Prelude.{ℕ, ◌≡◌, ◌-◌, ◌<◌, ◌≤◌, Option, List, Some, None};
ghost use Rattle.dl_exact.specs.Fraction.{Fraction, whole, ◌+ℚ◌, ◌-ℚ◌, ◌*ℚ◌, ◌/ℚ◌, ◌<ℚ◌, ◌≤ℚ◌};
ghost use Rattle.dl_model.specs.Series.{IsBound, AtLeast, Holds};
ghost use Rattle.dl_model.specs.Program.{Loss, AreDeclarable, One, Cdf, Mean, Layer, Tail, partial_sums};
ghost use Rattle.dl_model.specs.Measures.{IsQuantile, IsBracketed};

/// The mean of a layer without a limit, from those of the total and of the layer below it.
pub fn law_excess_ends()
    ensures { (us : List Loss) (attachment : ℕ) (l h m n l' h' bound : Fraction)
        → AreDeclarable us
        → IsBound (partial_sums us One) bound
        → Holds (partial_sums us Mean) (partial_sums us One) m n
        → Holds (partial_sums us (Layer (Some attachment) 0)) (partial_sums us One) l h
        → l' +ℚ h ≤ℚ m → n ≤ℚ h' +ℚ l → Holds (partial_sums us (Layer None attachment))
        (partial_sums us One) l' h' }
{}

/// A bracket holds each quantile, and there is at most one.
pub fn law_units_quantile()
    ensures inside { (us : List Loss) (bound p : Fraction) (level q lo : ℕ) (hi : Option ℕ)
        → AreDeclarable us → IsBound (partial_sums us One) bound
        → whole 0 <ℚ partial_sums us One level
        → IsQuantile (partial_sums us) q p → IsBracketed (partial_sums us) lo hi p
        → (lo ≤ q) × ((x : ℕ) → hi ≡ Some x → q ≤ x) }
    ensures one { (us : List Loss) (bound p : Fraction) (level q q' : ℕ) → AreDeclarable us
        → IsBound (partial_sums us One) bound
        → whole 0 <ℚ partial_sums us One level
        → IsQuantile (partial_sums us) q p → IsQuantile (partial_sums us) q' p → q ≡ q' }
{}

/// Ends of the tail mean at `p`, with `r = 1 - p`, where the quantile is from `a` to `b` and the
/// distribution at least `p - s` between these: with the ends `l` and `h` of the mean of the layer
/// above `a`, the high end `a + h / r`, and a low end at most `a + l / r - (b - a) * s / r`.
pub fn law_tail_ends()
    ensures { (us : List Loss) (p r s bound : Fraction) (a b q : ℕ) → AreDeclarable us
        → IsBound (partial_sums us One) bound → p +ℚ r ≡ whole 1 → whole 0 <ℚ r
        → IsQuantile (partial_sums us) q p → a ≤ q → q ≤ b
        → ((x : ℕ) → a ≤ x → x < b → AtLeast (partial_sums us (Cdf x)) (partial_sums us One)
        (p -ℚ s))
        → (l h : Fraction) → Holds (partial_sums us (Layer None a)) (partial_sums us One) l h
        → (m : Fraction) → m +ℚ whole (b - a) *ℚ (whole 1 /ℚ r *ℚ s) ≤ℚ whole a +ℚ whole 1 /ℚ r *ℚ l
        → Holds (partial_sums us (Tail p q)) (partial_sums us One) m
        (whole a +ℚ whole 1 /ℚ r *ℚ h) }
{}
