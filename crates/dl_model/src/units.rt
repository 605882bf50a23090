//! The laws of one unit: that its outcomes are a loss, its outcomes after its aggregate clause, and
//! its mean.

ghost use Rattle.std.specs.Prelude.{ℕ, suc, ◌≡◌, ◌-◌, ◌*◌, ◌<◌, ◌≤◌, min, nat_eq, if◌then◌else◌, [], ◌∷◌};
ghost use Rattle.dl_exact.specs.Prelude.{Fraction, whole, ◌over◌, ◌*ℚ◌, sum_to, count_below};
ghost use Rattle.dl_model.specs.Series.{IsBound, Holds};
ghost use Rattle.dl_model.specs.Program.{IsLoss, One, Mean, partial_sums};
ghost use Rattle.dl_model.specs.Family.{compound, IsProper, Encloses};
ghost use Rattle.dl_model.specs.Units.{Aggregate, IsDeclarable, IsDeclared, outcome, mapped, loss};
ghost use Rattle.dl_model.specs.Measures.{IsDeclaredLoss};

/// A unit's outcomes are a proper family, go up to the level times the greatest amount, and make up
/// the whole weight there. So they are a loss, and where the unit can be declared, its loss can.
#[tactic(auto, using(crate::proofs::UnitLaws::unit_proper, crate::proofs::UnitLaws::unit_within, crate::proofs::UnitLaws::unit_whole, crate::proofs::UnitLaws::unit_loss))]
pub fn law_unit()
    ensures proper { (u : Aggregate) → IsDeclarable u → IsProper (mapped u) }
    ensures within { (u : Aggregate) → IsDeclarable u → (y N : ℕ) → N * u.most < y
        → outcome u y N ≡ whole 0 }
    ensures full { (u : Aggregate) → IsDeclarable u → (N : ℕ)
        → sum_to (N * u.most) (λ y. outcome u y N) ≡ sum_to N u.count }
    ensures loss { (u : Aggregate) → IsDeclarable u → IsLoss (loss u) }
    ensures declared { (u : Aggregate) → IsDeclared u → IsDeclaredLoss (loss u) }
{}

/// Where the aggregate clause leaves each sum as it is, what encloses the compound sum encloses the
/// unit.
pub fn law_no_clause()
    ensures { (scale cells : ℕ) (lo hi : ℕ → ℕ) (u : Aggregate) → IsDeclarable u
        → ((s : ℕ) → u.clause s ≡ s)
        → Encloses scale cells lo hi (compound u.count u.severity)
        → Encloses scale cells lo hi (mapped u) }
{}

/// A unit after its aggregate clause, over a grid of the cells 0 to `k` that encloses the sum
/// before it. Where the clause maps only sums inside the grid to `y`, the ends of their cells add
/// up to those of `y`; where it maps every sum past the grid to `y`, the ends of all other cells
/// are taken off `scale`.
pub fn law_clause()
    ensures inside { (u : Aggregate) (scale k : ℕ) (lo hi : ℕ → ℕ) (y : ℕ)
        → IsDeclarable u → 0 < scale
        → Encloses scale (suc k) lo hi (compound u.count u.severity)
        → ((s : ℕ) → u.clause s ≡ y → s ≤ k)
        → Holds (outcome u y) (λ N. sum_to N u.count)
        (count_below (suc k) (λ s. if nat_eq (u.clause s) y then lo s else 0) over scale)
        (min scale
        (count_below (suc k) (λ s. if nat_eq (u.clause s) y then hi s else 0)) over scale) }
    ensures past { (u : Aggregate) (scale k : ℕ) (lo hi : ℕ → ℕ) (y : ℕ) (bound : Fraction)
        → IsDeclarable u
        → 0 < scale → Encloses scale (suc k) lo hi (compound u.count u.severity)
        → IsBound (λ N. sum_to N u.count) bound → ((s : ℕ) → k < s → u.clause s ≡ y)
        → count_below (suc k) (λ s. if nat_eq (u.clause s) y then 0 else lo s) ≤ scale
        → Holds (outcome u y) (λ N. sum_to N u.count)
        ((scale - min scale
        (count_below (suc k) (λ s. if nat_eq (u.clause s) y then 0 else hi s))) over scale)
        ((scale - count_below (suc k)
        (λ s. if nat_eq (u.clause s) y then 0 else lo s)) over scale) }
{}

/// Without an aggregate clause the mean of a unit is the mean of one claim times the expected
/// number of claims.
pub fn law_unit_mean()
    ensures { (u : Aggregate) → IsDeclarable u → ((s : ℕ) → u.clause s ≡ s) → (l h : Fraction)
        → Holds (λ N. sum_to N (λ n. whole n *ℚ u.count n)) (λ N. sum_to N u.count) l h
        → Holds (partial_sums (loss u ∷ []) Mean) (partial_sums (loss u ∷ []) One)
        (sum_to u.most (λ j. whole j *ℚ u.severity j) *ℚ l)
        (sum_to u.most (λ j. whole j *ℚ u.severity j) *ℚ h) }
{}
