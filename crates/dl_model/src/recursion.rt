//! The laws of Panjer's recursion (Klugman, Panjer and Willmot, Loss Models, "The recursive
//! method").

ghost use Rattle.std.specs.Prelude.{ℕ, ◌≡◌, ◌≤◌};
ghost use Rattle.dl_exact.specs.Fraction.{Fraction, whole};
ghost use Rattle.dl_model.specs.Compound.{cell};
ghost use Rattle.dl_model.specs.Counts.{IsPanjer};
ghost use Rattle.dl_model.specs.Recursion.{Recursion};

/// For every count of the (a, b, 0) class and every severity without amount 0 the recursion gives
/// cell `s` at each level from `s` on.
pub fn law_panjer()
    ensures { (f w r : ℕ → Fraction) (a c : Fraction) → f 0 ≡ whole 0 → IsPanjer a c w
        → Recursion a c f r
        → (s N : ℕ) → s ≤ N → r s ≡ cell w f s N }
{}

/// The cells follow the recursion, so it has a solution.
pub fn law_panjer_solution()
    ensures { (f w : ℕ → Fraction) (a c : Fraction) → f 0 ≡ whole 0 → IsPanjer a c w
        → Recursion a c f (λ s. cell w f s s) }
{}
