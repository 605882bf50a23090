//! What follows from the definitions alone. Nothing here runs.

ghost use Rattle.std.specs.Prelude.{ℕ, ◌≡◌, ◌≤◌, ◌^◌, Option, All, IfSome};
ghost use Rattle.dl_limits.specs.Limits.{most_amount};
ghost use Rattle.dl_plan.specs.declared.plan.Plan.{Plan};
ghost use Rattle.dl_plan.specs.Fine.{HasPartsOf48Bits};
ghost use Rattle.dl_plan.specs.Clause.{Clause, IsClause};
ghost use Rattle.dl_plan.specs.Horizon.{edge, IsSettled, IsHorizon, IsHorizonOf, horizon};
ghost use Rattle.dl_plan.specs.Count.{expected_count, IsClaimCount, IsUnbounded};
ghost use Rattle.dl_plan.specs.Means.{thinned_mean};
ghost use Rattle.dl_plan.specs.Valid.{IsValid};

/// There is one horizon, and `horizon` is that of every clause that is accepted. It is at least 1
/// and at least each edge, and there what a clause keeps has reached the cells, or is constant from
/// there on.
#[tactic(auto, using(crate::proofs::Horizons::same_horizon, crate::proofs::Horizons::horizon_is, crate::proofs::Horizons::horizon_settled))]
pub fn law_horizon()
    ensures one { (clause : Option Clause) (cells j k : ℕ) → IsHorizonOf clause cells j
        → IsHorizonOf clause cells k → j ≡ k }
    ensures known { (clause : Option Clause) (cells : ℕ) → IfSome clause IsClause
        → IsHorizonOf clause cells (horizon clause cells) }
    ensures from_one { (clause : Clause) (cells k : ℕ) → IsHorizon clause cells k → 1 ≤ k }
    ensures edges { (clause : Clause) (cells k : ℕ) → IsHorizon clause cells k
        → All (λ l. edge l ≤ k) clause.1 }
    ensures settled { (clause : Clause) (cells k : ℕ) → IsClause clause → IsHorizon clause cells k
        → IsSettled clause cells k }
{}

/// The units of a valid plan can be asked for their thinned mean, their mean and their horizon:
/// what `Freq::thinned` (of Poisson and gamma counts), `Unit::mean_parts` and `Unit::horizon`
/// require holds.
pub fn law_valid_units()
    ensures counts { (plan : Plan) → IsValid plan
        → All (λ u. IsClaimCount u.freq × HasPartsOf48Bits (expected_count u.freq)) plan.units }
    ensures amounts { (plan : Plan) → IsValid plan
        → All (λ u. All (λ item. item.amount ≤ most_amount) u.sev.items) plan.units }
    ensures thinned { (plan : Plan) → IsValid plan
        → All (λ u. IsUnbounded u.freq → HasPartsOf48Bits (thinned_mean u)) plan.units }
    ensures clauses { (plan : Plan) → IsValid plan → All (λ u. IfSome u.cede IsClause) plan.units }
{}
