//! The meaning of rules on clauses and on probabilities. Nothing here runs.

ghost use Rattle.std.specs.Prelude.{ℕ, ◌≡◌, ◌↔◌, false, List};
ghost use Rattle.dl_exact.specs.Fraction.{Fraction};
ghost use Rattle.dl_plan.specs.Clause.{Clause, IsClause};
ghost use Rattle.dl_severity.specs.Fits.{FitsStep};
ghost use Rattle.dl_reading.specs.Clauses.{is_off_multiples};
ghost use Rattle.dl_reading.specs.Lists.{are_fine, is_fine, is_not_one};

/// A clause maps every multiple of a step to a whole number exactly where it does so with the
/// multiples up to the second one past its greatest edge.
pub fn law_clauses()
    ensures { (clause : Clause) (step : ℕ) → IsClause clause
        → (is_off_multiples clause step ≡ false) ↔ FitsStep clause step }
{}

/// A list of probabilities that keeps the rule on their sum is fine and sums to 1 exactly where it
/// is fine.
pub fn law_fine()
    ensures { (most : ℕ) (probs : List Fraction) → is_not_one most probs ≡ false
        → are_fine most probs ≡ is_fine most probs }
{}
