//! The laws of families of outcomes, and of grids that enclose them: `lo` and `hi` are the ends of
//! the cells in units of 1 / `scale`.

ghost use Rattle.std.specs.Prelude.{ℕ, ◌≡◌, ◌⊎◌, ◌+◌, ◌*◌, ◌^◌, ◌/◌, ◌<◌, ◌≤◌, min};
ghost use Rattle.std.specs.Int.{div_ceil};
ghost use Rattle.dl_exact.specs.Prelude.{Fraction, whole, ◌over◌, ◌≤ℚ◌, sum_to, count_pairs};
ghost use Rattle.dl_model.specs.Compound.{convolve, power, cell};
ghost use Rattle.dl_model.specs.Severity.{IsWithinOne};
ghost use Rattle.dl_model.specs.Ways.{ways};
ghost use Rattle.dl_model.specs.Counts.{fixed};
ghost use Rattle.dl_model.specs.Family.{Family, compound, product, nothing, times_itself, IsProper, Encloses};

/// Compound sums are proper families, and products and powers of proper families are.
pub fn law_proper()
    ensures compound { (w f : ℕ → Fraction) → IsWithinOne f → IsProper (compound w f) }
    ensures product { (F G : Family) → IsProper F → IsProper G → IsProper (product F G) }
    ensures powers { (F : Family) (n : ℕ) → IsProper F → IsProper (times_itself F n) }
{}

/// What encloses a family still does with fewer cells, lower low ends and higher high ends.
pub fn law_wider_grid()
    ensures { (scale cells cells' : ℕ) (lo hi lo' hi' : ℕ → ℕ) (F : Family) → 0 < scale
        → cells' ≤ cells
        → ((y : ℕ) → y < cells' → lo' y ≤ lo y)
        → ((y : ℕ) → y < cells' → hi y ≤ hi' y) → Encloses scale cells lo hi F
        → Encloses scale cells' lo' hi' F }
{}

/// A convolution whose ends are rounded outward, in any way, encloses the product; an end of
/// `scale` or more is always high enough.
pub fn law_convolve()
    ensures { (scale cells : ℕ) (lo hi lo' hi' low high : ℕ → ℕ) (F G : Family)
        → 0 < scale → IsProper F
        → IsProper G
        → Encloses scale cells lo hi F → Encloses scale cells lo' hi' G
        → ((y : ℕ) → y < cells → low y * scale ≤ count_pairs y (λ i j. lo i * lo' j))
        → ((y : ℕ) → y < cells
        → (count_pairs y (λ i j. hi i * hi' j) ≤ high y * scale) ⊎ (scale ≤ high y))
        → Encloses scale cells low high (product F G) }
{}

/// So does the one with one floor and one ceiling for each cell.
pub fn law_convolve_rounded()
    ensures { (scale cells : ℕ) (lo hi lo' hi' : ℕ → ℕ) (F G : Family) → 0 < scale
        → IsProper F → IsProper G
        → Encloses scale cells lo hi F → Encloses scale cells lo' hi' G
        → Encloses scale cells (λ y. count_pairs y (λ i j. lo i * lo' j) / scale)
        (λ y. min scale (div_ceil (count_pairs y (λ i j. hi i * hi' j)) scale)) (product F G) }
{}

/// What encloses `m` outcomes added to `n` outcomes encloses `m + n` outcomes, one outcome is the
/// family, and none is the outcome 0.
pub fn law_powers()
    ensures none { (scale cells : ℕ) (lo hi : ℕ → ℕ) (F : Family)
        → Encloses scale cells lo hi nothing
        → Encloses scale cells lo hi (times_itself F 0) }
    ensures one { (scale cells : ℕ) (lo hi : ℕ → ℕ) (F : Family) → Encloses scale cells lo hi F
        → Encloses scale cells lo hi (times_itself F 1) }
    ensures sum { (scale cells m n : ℕ) (lo hi : ℕ → ℕ) (F : Family)
        → Encloses scale cells lo hi (product (times_itself F m) (times_itself F n))
        → Encloses scale cells lo hi (times_itself F (m + n)) }
{}

/// The sum of `m + n` claims is that of `m` claims and that of `n` claims, added up.
#[tactic(auto, using(crate::proofs::Powers::power_plus))]
pub fn law_power_sum()
    ensures { (f : ℕ → Fraction) (m n s : ℕ)
        → power f (m + n) s ≡ convolve (power f m) (power f n) s }
{}

/// Over whole weights the probability of a sum is its share of the weighted ways.
#[tactic(auto, using(crate::proofs::CountLaws::power_ways))]
pub fn law_ways()
    ensures { (w : ℕ → ℕ) (T : ℕ) → 0 < T → (n s : ℕ)
        → power (λ j. w j over T) n s ≡ ways w n s over (T ^ n) }
{}

/// All of the weight in cell 0 encloses the outcome 0.
pub fn law_nothing()
    ensures { (scale cells : ℕ) (lo hi : ℕ → ℕ) → 0 < scale → lo 0 ≤ scale → scale ≤ hi 0
        → ((y : ℕ) → 0 < y → lo y ≡ 0) → Encloses scale cells lo hi nothing }
{}

/// Where the weights of the counts up to `far` add up to 1 and no count is above, a grid that
/// encloses the cells at the level `far` encloses the compound sum.
pub fn law_finite_count()
    ensures { (scale cells far : ℕ) (lo hi : ℕ → ℕ) (w f : ℕ → Fraction) → sum_to far w ≡ whole 1
        → ((n : ℕ) → far < n → w n ≡ whole 0)
        → ((y : ℕ) → y < cells → lo y over scale ≤ℚ cell w f y far)
        → ((y : ℕ) → y < cells → cell w f y far ≤ℚ hi y over scale)
        → Encloses scale cells lo hi (compound w f) }
{}

/// A grid that encloses the compound sum of exactly one claim has the probability of each amount
/// between its ends.
pub fn law_severity()
    ensures { (scale cells : ℕ) (lo hi : ℕ → ℕ) (f : ℕ → Fraction)
        → Encloses scale cells lo hi (compound (fixed 1) f)
        → (y : ℕ) → y < cells → (lo y over scale ≤ℚ f y) × (f y ≤ℚ hi y over scale) }
{}
