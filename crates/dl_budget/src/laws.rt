//! Laws of the definitions alone. Nothing here runs.

ghost use Rattle.std.specs.Prelude.{ℕ, ◌≡◌, ◌≤◌, All};
ghost use Rattle.dl_limits.specs.Limits.{most_horizon};
ghost use Rattle.dl_exact.specs.Fraction.{Fraction};
ghost use Rattle.dl_plan.specs.declared.plan.Plan.{Plan};
ghost use Rattle.dl_plan.specs.Prelude.{IsHorizonOf, horizon, IsValid};
ghost use Rattle.dl_budget.specs.Halvings.{IsHalvings, halvings};

/// Each unit of a valid plan has one horizon, which is `horizon`: at most 16,384 cells where
/// the plan has up to 4,096 cells, else 65,536. So budgets are functions of the plan.
pub fn law_horizons()
    ensures known { (plan : Plan) → IsValid plan
        → All (λ u. IsHorizonOf u.cede plan.cells (horizon u.cede plan.cells)) plan.units }
    ensures few { (plan : Plan) → IsValid plan
        → All (λ u. horizon u.cede plan.cells ≤ most_horizon plan.cells) plan.units }
    ensures one { (plan : Plan) (k : ℕ) → IsValid plan
        → All (λ u. IsHorizonOf u.cede plan.cells k → k ≡ horizon u.cede plan.cells) plan.units }
{}

/// `halvings` is the least number of halvings that bring a mean to at most 1/2.
pub fn law_halvings()
    ensures { (m : Fraction) → IsHalvings m (halvings m) }
{}
