//! The laws of what a grid that encloses a total gives: `lo` and `hi` are the ends of its cells in
//! units of 1 / `scale`.

ghost use Rattle.std.specs.Prelude.{ℕ, ◌≡◌, ◌+◌, ◌-◌, ◌*◌, ◌<◌, ◌≤◌, min, suc, Option, List, Some};
ghost use Rattle.dl_exact.specs.Prelude.{Fraction, whole, ◌over◌, ◌<ℚ◌, ◌≤ℚ◌, count_below};
ghost use Rattle.dl_model.specs.Prelude.{IsBound, Holds, Loss, AreDeclarable, One, Cdf, Layer, partial_sums, total, Encloses, IsBracketed};
ghost use Rattle.dl_measures.specs.Ends.{low_cdf, high_cdf, low_layer, high_layer, IsTight};

/// The distribution at `x` lies between the sum of the low ends up to `x` and the least of `scale`
/// and the sum of the high ends.
pub fn law_cdf_ends()
    ensures { (us : List Loss) (scale cells : ℕ) (lo hi : ℕ → ℕ) → AreDeclarable us → 0 < scale
        → Encloses scale cells lo hi (total us)
        → (x : ℕ) → x < cells
        → Holds (partial_sums us (Cdf x)) (partial_sums us One) (low_cdf scale lo x)
        (high_cdf scale hi x) }
{}

/// The low ends of a grid that encloses a total add up to at most `scale`, where the whole weight
/// is bounded and somewhere above 0.
pub fn law_mass()
    ensures { (us : List Loss) (scale cells : ℕ) (lo hi : ℕ → ℕ) (bound : Fraction) (level : ℕ)
        → AreDeclarable us → 0 < scale → Encloses scale cells lo hi (total us)
        → IsBound (partial_sums us One) bound → whole 0 <ℚ partial_sums us One level → (n : ℕ)
        → n ≤ cells → count_below n lo ≤ scale }
{}

/// The mean of a layer with a limit lies between the sums of what the ends of the distribution
/// leave over the layer.
pub fn law_layer_ends()
    ensures { (us : List Loss) (scale cells : ℕ) (lo hi : ℕ → ℕ) (bound : Fraction)
        → AreDeclarable us
        → 0 < scale → Encloses scale cells lo hi (total us)
        → IsBound (partial_sums us One) bound → count_below cells lo ≤ scale
        → (limit attachment : ℕ)
        → attachment + limit ≤ cells
        → Holds (partial_sums us (Layer (Some limit) attachment)) (partial_sums us One)
        (low_layer scale hi limit attachment) (high_layer scale lo limit attachment) }
{}

/// Where no high end of the distribution before `a` reaches `p`, and the low end at `b` does where
/// there is one, `a` to `b` is a bracket at `p`.
pub fn law_bracket()
    ensures { (us : List Loss) (scale cells : ℕ) (lo hi : ℕ → ℕ) (p : Fraction) (a : ℕ)
        (b : Option ℕ)
        → AreDeclarable us → 0 < scale → Encloses scale cells lo hi (total us)
        → a ≤ cells → ((x : ℕ) → x < a → high_cdf scale hi x <ℚ p)
        → ((x : ℕ) → b ≡ Some x → (x < cells) × (p ≤ℚ low_cdf scale lo x))
        → IsBracketed (partial_sums us) a b p }
{}

/// Where besides each high end from `a` on reaches `p`, and no low end before `b` does, the bracket
/// is tight within the spread.
pub fn law_tight()
    ensures { (us : List Loss) (scale cells : ℕ) (lo hi : ℕ → ℕ) (p : Fraction) (a : ℕ)
        (b : Option ℕ)
        (w : ℕ) → AreDeclarable us → 0 < scale → Encloses scale cells lo hi (total us)
        → ((x : ℕ) → a ≤ x → x < cells → p ≤ℚ high_cdf scale hi x)
        → ((x : ℕ) → x < cells → ((y : ℕ) → b ≡ Some y → x < y) → low_cdf scale lo x <ℚ p)
        → ((x : ℕ) → x < cells → count_below (suc x) hi ≤ count_below (suc x) lo + w)
        → IsTight (partial_sums us) cells a b p (w over scale) }
{}

/// How wide these ends are: a spread adds up from the cells, and a layer is no wider than its limit
/// times the spread.
pub fn law_widths()
    ensures spread { (n : ℕ) (lo hi : ℕ → ℕ) → ((y : ℕ) → y < n → lo y ≤ hi y)
        → count_below n hi ≡ count_below n lo + count_below n (λ y. hi y - lo y) }
    ensures layer { (scale limit attachment w : ℕ) (lo hi : ℕ → ℕ)
        → ((i : ℕ) → i < limit → count_below (suc (attachment + i)) hi ≤ count_below
        (suc (attachment + i)) lo + w)
        → count_below limit (λ i. scale - count_below (suc (attachment + i)) lo)
        ≤ count_below limit (λ i. scale - min scale (count_below (suc (attachment + i)) hi))
        + limit * w }
{}
