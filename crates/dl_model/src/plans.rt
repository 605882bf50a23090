//! The laws of valid plans, over the definitions alone: every quantity is bounded, the whole weight
//! is above 0, and the probabilities add up to 1; so there is at most one quantile. Each unit
//! declares what its parts say. All of it holds where the units share a factor, too.

ghost use Rattle.std.specs.Prelude.{ℕ, ◌≡◌, ◌≢◌, ◌*◌, ◌^◌, ◌≤◌, Option, Some, None, List, [], ◌∷◌, All};
ghost use Rattle.dl_exact.specs.Prelude.{Fraction, whole, ◌over◌, ◌*ℚ◌, ◌/ℚ◌, ◌<ℚ◌, sum_to, sum_over};
ghost use Rattle.dl_plan.specs.declared.severity.Sev.{Sev};
ghost use Rattle.dl_plan.specs.declared.plan.Freq.{Freq};
ghost use Rattle.dl_plan.specs.declared.plan.Freq.TheVariants.{Poisson, Gamma};
ghost use Rattle.dl_plan.specs.declared.plan.Unit.{Unit as UnitOfPlan};
ghost use Rattle.dl_plan.specs.declared.plan.Plan.{Plan};
ghost use Rattle.dl_plan.specs.Prelude.{probability_of, pairs_of, mean_amount, conditioned, HasDistribution, common_amount, Clause, kept, expected_count, IsUnbounded, IsClaimCount as IsCountOfPlan, declared_mean, thinned_mean, growth, IsNewZero, IsValidUnit, IsValid, SharesFactor};
ghost use Rattle.dl_model.specs.Series.{IsBound, AtMost, AtLeast, Holds};
ghost use Rattle.dl_model.specs.ChangedZero.{without_none};
ghost use Rattle.dl_model.specs.Compound.{cell};
ghost use Rattle.dl_model.specs.Program.{Quantity, One, Cdf, Mean, AreDeclarable, partial_sums};
ghost use Rattle.dl_model.specs.Family.{nothing, times_itself, SameCells};
ghost use Rattle.dl_model.specs.Measures.{AreDeclared, IsAsked, IsQuantile, IsBracketed};
ghost use Rattle.dl_model.specs.Units.{loss, IsDeclared};
ghost use Rattle.dl_model.specs.Plans.{count_weights, outcome_after, aggregate_of, loss_of, aggregates_of, declared, compound_of};

use dl_plan::Plan;

/// The units of a valid plan can be declared: their probabilities add up to 1, their clauses raise
/// no sum, and their counts are bounded.
#[tactic(auto, using(crate::proofs::PlanUnits::unit_declared, crate::proofs::PlanUnits::plan_declared, crate::proofs::PlanUnits::plan_units))]
pub fn law_declared()
    ensures unit { (cells : ℕ) (u : UnitOfPlan) → IsValidUnit cells u
        → IsDeclared (aggregate_of u) }
    ensures plan { (plan : Plan) → IsValid plan → AreDeclared (aggregates_of plan) }
    ensures units { (plan : Plan) → IsValid plan → AreDeclarable (aggregates_of plan) }
{}

/// The outcome of a sum is what the clause keeps of it, where that is a whole number. It need be
/// whole only at multiples of the amounts' greatest common divisor: no other sum has a weight.
#[tactic(auto, using(crate::proofs::Multiples::clause_whole, crate::proofs::Multiples::no_cell_between))]
pub fn law_outcome_after()
    ensures whole { (clause : Clause) (s y : ℕ) → kept clause s ≡ whole y
        → outcome_after (Some clause) s ≡ y }
    ensures elsewhere { (sev : Sev) (w : ℕ → Fraction) (s N : ℕ)
        → ((n : ℕ) → s ≢ n * common_amount sev.items) → cell w (probability_of sev) s N ≡ whole 0 }
{}

/// Some fraction is a bound of every quantity that can be asked of a valid plan.
pub fn law_bounded(plan: &Plan)
    requires valid { IsValid plan.now }
    ensures { (quantity : Quantity) → IsAsked quantity
        → (u : Fraction) × IsBound (declared plan.now quantity) u }
{}

/// The whole weight of a valid plan is above 0 at some level.
pub fn law_positive(plan: &Plan)
    requires valid { IsValid plan.now }
    ensures { (N : ℕ) × (whole 0 <ℚ declared plan.now One N) }
{}

/// The declared probabilities of a valid plan add up to 1: for each `p` below 1 the distribution is
/// at least `p` somewhere.
pub fn law_whole(plan: &Plan)
    requires valid { IsValid plan.now }
    ensures { (p : Fraction) → p <ℚ whole 1
        → (x : ℕ) × AtLeast (declared plan.now (Cdf x)) (declared plan.now One) p }
{}

/// A valid plan has at most one quantile at each `p`, and a bracket holds it.
pub fn law_quantile(plan: &Plan)
    requires valid { IsValid plan.now }
    ensures one { (p : Fraction) (q q' : ℕ) → IsQuantile (declared plan.now) q p
        → IsQuantile (declared plan.now) q' p → q ≡ q' }
    ensures inside { (p : Fraction) (q lo : ℕ) (hi : Option ℕ)
        → IsQuantile (declared plan.now) q p → IsBracketed (declared plan.now) lo hi p
        → (lo ≤ q) × ((x : ℕ) → hi ≡ Some x → q ≤ x) }
{}

/// Where the probability of no claim of a valid plan's count can be changed, it is at most 16 / 17
/// before the change, and some number of claims above 0 has a positive weight.
pub fn law_new_zero()
    ensures most { (freq : Freq) (p : Fraction) → IsCountOfPlan freq → IsNewZero freq p
        → AtMost (λ N. count_weights freq 0) (λ N. sum_to N (count_weights freq)) (16 over 17) }
    ensures some { (freq : Freq) (p : Fraction) → IsCountOfPlan freq → IsNewZero freq p
        → (level : ℕ) × (whole 0 <ℚ sum_to level (without_none (count_weights freq))) }
{}

/// The expected count of a valid plan's unit is the declared mean of its number of claims.
pub fn law_expected()
    ensures { (freq : Freq) → IsCountOfPlan freq
        → Holds (λ N. sum_to N (λ n. whole n *ℚ count_weights freq n))
        (λ N. sum_to N (count_weights freq)) (expected_count freq) (expected_count freq) }
{}

/// Without an aggregate clause and a changed probability of no claim the mean of a unit is its
/// expected count times the mean of one claim; no clause raises it, and no change of the
/// probability of no claim makes it more than 17 times as large; and the mean of a total is the sum
/// of the means of its units. Where the units share a factor, each has the first of these.
pub fn law_plan_mean()
    ensures unit { (cells : ℕ) (u : UnitOfPlan) → IsValidUnit cells u → u.cede ≡ None
        → u.zero ≡ None
        → Holds (partial_sums (loss_of u ∷ []) Mean) (partial_sums (loss_of u ∷ []) One)
        (expected_count u.freq *ℚ mean_amount (pairs_of u.sev))
        (expected_count u.freq *ℚ mean_amount (pairs_of u.sev)) }
    ensures most { (cells : ℕ) (u : UnitOfPlan) → IsValidUnit cells u
        → AtMost (partial_sums (loss (aggregate_of u) ∷ []) Mean)
        (partial_sums (loss (aggregate_of u) ∷ []) One)
        (expected_count u.freq *ℚ mean_amount (pairs_of u.sev)) }
    ensures changed { (cells : ℕ) (u : UnitOfPlan) → IsValidUnit cells u
        → AtMost (partial_sums (loss_of u ∷ []) Mean) (partial_sums (loss_of u ∷ []) One)
        (whole (growth u.zero) *ℚ declared_mean u) }
    ensures total { (plan : Plan) (l h : UnitOfPlan → Fraction) → IsValid plan
        → All (λ u. Holds (partial_sums (loss_of u ∷ []) Mean) (partial_sums (loss_of u ∷ []) One)
        (l u) (h u)) plan.units
        → Holds (declared plan Mean) (declared plan One) (sum_over plan.units l)
        (sum_over plan.units h) }
    ensures common { (plan : Plan) (r : Fraction) → SharesFactor plan r
        → Holds (declared plan Mean) (declared plan One) (sum_over plan.units declared_mean)
        (sum_over plan.units declared_mean) }
{}

/// Thinning and division: over the positive amounts, with the thinned mean, `2^h` Poisson sums of
/// one `2^h`-th of the mean each, or a gamma sum of the same shape, have in every cell the declared
/// value of the unit's sum of claims. Where the thinned mean is 0, as it is where no amount is
/// positive, there is no loss.
pub fn law_thinned()
    ensures poisson { (u : UnitOfPlan) (positive : Sev) (mean : Fraction) (h : ℕ)
        → u.freq ≡ Poisson mean → HasDistribution positive (conditioned 0 (pairs_of u.sev))
        → SameCells (times_itself (compound_of
        (Poisson (thinned_mean u /ℚ whole (2 ^ h))) positive) (2 ^ h)) (compound_of u.freq u.sev) }
    ensures gamma { (u : UnitOfPlan) (positive : Sev) (shape mean : Fraction)
        → u.freq ≡ Gamma shape mean → whole 0 <ℚ shape
        → HasDistribution positive (conditioned 0 (pairs_of u.sev))
        → SameCells (compound_of (Gamma shape (thinned_mean u)) positive)
        (compound_of u.freq u.sev) }
    ensures none { (u : UnitOfPlan) → IsCountOfPlan u.freq → IsUnbounded u.freq
        → thinned_mean u ≡ whole 0
        → SameCells nothing (compound_of u.freq u.sev) }
    ensures no_amount { (u : UnitOfPlan) → All (λ item. item.amount ≤ 0) u.sev.items
        → thinned_mean u ≡ whole 0 }
{}
