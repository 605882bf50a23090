//! Laws of the definitions alone. Nothing here runs.

ghost use Rattle.std.specs.Prelude.{ℕ, ◌≡◌, ◌<◌, ◌≤◌};
ghost use Rattle.dl_exact.specs.Prelude.{whole, sum_to};
ghost use Rattle.dl_model.specs.Counts.{binomial};

/// The weights of `m` trials with probability `a / b` are whole probabilities: those of up to `m`
/// claims add up to 1, and more claims do not come.
pub fn law_trials()
    ensures add_up { (m a b : ℕ) → 0 < b → a ≤ b → sum_to m (binomial m a b) ≡ whole 1 }
    ensures past { (m a b n : ℕ) → 0 < b → a ≤ b → m < n → binomial m a b n ≡ whole 0 }
{}
