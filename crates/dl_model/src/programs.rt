//! The laws of declared units: every quantity is bounded, the whole weight is above 0, and the
//! probabilities add up to 1.

ghost use Rattle.std.specs.Prelude.{ℕ, ◌≡◌, ◌<◌, ◌≤◌, List};
ghost use Rattle.dl_exact.specs.Fraction.{Fraction, whole, ◌+ℚ◌, ◌<ℚ◌};
ghost use Rattle.dl_model.specs.Series.{IsBound, AtLeast};
ghost use Rattle.dl_plan.specs.declared.item.Item.{Item};
ghost use Rattle.dl_plan.specs.Weighted.{weight_sum};
ghost use Rattle.dl_model.specs.Listed.{probability_at};
ghost use Rattle.dl_model.specs.Counts.{fixed, binomial, poisson, gamma_of, AreCountWeights};
ghost use Rattle.dl_model.specs.Program.{Loss, Quantity, One, Cdf, partial_sums};
ghost use Rattle.dl_model.specs.Measures.{AreDeclared, IsAsked};

/// The counts that can be declared: exact, listed, of trials with probability `a / b`, Poisson, and
/// gamma of any shape above 0.
pub fn law_counts()
    ensures fixed { (m : ℕ) → AreCountWeights (fixed m) }
    ensures listed { (counts : List Item) → 0 < weight_sum counts
        → AreCountWeights (probability_at counts) }
    ensures binomial { (m a b : ℕ) → 0 < b → a ≤ b → AreCountWeights (binomial m a b) }
    ensures poisson { (v : Fraction) → AreCountWeights (poisson v) }
    ensures gamma { (r v : Fraction) → whole 0 <ℚ r → AreCountWeights (gamma_of r v) }
{}

/// Some fraction is a bound of every quantity that can be asked.
#[tactic(auto, using(crate::proofs::Bounded::quantity_bounded))]
pub fn law_units_bounded()
    ensures { (us : List Loss) (quantity : Quantity) → AreDeclared us → IsAsked quantity
        → (u : Fraction) × IsBound (partial_sums us quantity) u }
{}

/// The whole weight is above 0 at some level.
#[tactic(auto, using(crate::proofs::Bounded::whole_positive))]
pub fn law_units_positive()
    ensures { (us : List Loss) → AreDeclared us
        → (N : ℕ) × (whole 0 <ℚ partial_sums us One N) }
{}

/// The declared probabilities add up to 1: for each part `p` of 1, with `q` for the rest, the
/// distribution is at least `p` somewhere.
#[tactic(auto, using(crate::proofs::Bounded::adds_up))]
pub fn law_units_whole()
    ensures { (us : List Loss) (p q : Fraction) → AreDeclared us → p +ℚ q ≡ whole 1
        → whole 0 <ℚ q
        → (x : ℕ) × AtLeast (partial_sums us (Cdf x)) (partial_sums us One) p }
{}
