//! The laws by which the ends of a probability of no claim and of a mean are small enough.

ghost use Rattle.std.specs.Prelude.{ℕ, ◌-◌, ◌*◌, ◌^◌, ◌≤◌, [], ◌∷◌};
ghost use Rattle.dl_exact.specs.Prelude.{whole, ◌over◌, sum_to};
ghost use Rattle.dl_iv.specs.declared.interval.Iv.{Iv};
ghost use Rattle.dl_model.specs.Prelude.{AtMost, Loss, One, Mean, partial_sums, IsDeclaredLoss, Aggregate, IsDeclared};
ghost use Rattle.dl_outcomes.specs.Before.{HoldsNone, HoldsMean};

/// An interval that holds a probability of no claim of at most 16 / 17 has no low end above it.
pub fn law_none_low()
    ensures { (B : ℕ) (u : Aggregate) (none : Iv B) → IsDeclared u → HoldsNone u none
        → AtMost (λ N. u.count 0) (λ N. sum_to N u.count) (16 over 17)
        → 17 * none.lo ≤ 16 * 2 ^ B }
{}

/// An interval of at most 1 / 306 of width with a low end of at most 16 / 17 has a high end of at
/// most 17 / 18.
pub fn law_none_small()
    ensures { (B : ℕ) (none : Iv B) → 17 * none.lo ≤ 16 * 2 ^ B
        → 306 * (none.hi - none.lo) ≤ 2 ^ B → 18 * none.hi ≤ 17 * 2 ^ B }
{}

/// An interval that holds a mean of at most `m` buckets has no low end above it.
pub fn law_low_mean()
    ensures { (B : ℕ) (l : Loss) (m : ℕ) (mean : Iv B) → IsDeclaredLoss l → HoldsMean l mean
        → AtMost (partial_sums (l ∷ []) Mean) (partial_sums (l ∷ []) One) (whole m)
        → mean.lo ≤ m * 2 ^ B }
{}
