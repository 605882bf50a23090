//! The laws of joint means, and of the shares in a tail mean, over the definitions alone.

ghost use Rattle.std.specs.Prelude.{ℕ, ◌≡◌, ◌*◌, ◌<◌, ◌≤◌, List, [], ◌∷◌, length, get_or};
ghost use Rattle.dl_exact.specs.Prelude.{Fraction, whole, ◌over◌, ◌+ℚ◌, ◌-ℚ◌, ◌*ℚ◌, ◌≤ℚ◌, ◌<ℚ◌, sum_below, count_pairs};
ghost use Rattle.dl_plan.specs.declared.plan.Plan.{Plan as PlanOf};
ghost use Rattle.dl_plan.specs.declared.plan.Unit.{Unit as UnitOfPlan};
ghost use Rattle.dl_plan.specs.Prelude.{CanShare, IsValid, SharesFactor};
ghost use Rattle.dl_model.specs.Prelude.{AtMost, AtLeast, Holds, Loss, AreDeclarable, AreDeclared, One, Mean, Point, Outcome, Joint, Tail, Part, Share, partial_sums, declared, unit_of, without, total, GridEncloses, compound_of, loss_of, Encloses};
ghost use Rattle.dl_pool.specs.Extra.{CanRaise, IsExtra};
ghost use Rattle.dl_pool.specs.Pooled.{IsRaised};
ghost use Rattle.dl_shares.specs.declared.source.ShareSource.TheVariants as sources;
ghost use Rattle.dl_shares.specs.Source.{GivesJoints};

use crate::source::{Beside, OverClaims};
use dl_plan::Plan;

/// `1 - p` times the shares of all units of a plan, and `q` times what lies below the tail, are
/// `1 - p` times the tail mean, and `p` times `q`, at every level, under a common factor too. So
/// where the part below the tail has the probability `p`, the shares add up to the tail mean.
pub fn law_shares(plan: &Plan)
    ensures { (p u : Fraction) (q N : ℕ) → p <ℚ whole 1 → u ≤ℚ whole 1
        → (whole 1 -ℚ p) *ℚ sum_below (length plan.now.units)
        (λ i. declared plan.now (Share i p q u) N) +ℚ
        whole q *ℚ declared plan.now (Part q u) N
        ≡ (whole 1 -ℚ p) *ℚ declared plan.now (Tail p q) N +ℚ
        p *ℚ whole q *ℚ declared plan.now One N }
{}

/// The mean of a unit beside others is that of the unit alone.
pub fn law_unit_mean()
    ensures { (us : List Loss) (i : ℕ) (u : Loss) (l h : Fraction) → AreDeclarable us
        → i < length us
        → Holds (partial_sums (get_or us i u ∷ []) Mean) (partial_sums (get_or us i u ∷ []) One) l h
        → Holds (partial_sums us (Outcome i)) (partial_sums us One) l h }
{}

/// The mean of a unit's outcome beside the others of a plan, under a common factor too, is that of
/// the unit alone.
pub fn law_plan_unit_mean(plan: &Plan)
    requires valid { IsValid plan.now }
    ensures { (i : ℕ) (u : UnitOfPlan) (l h : Fraction) → i < length plan.now.units
        → Holds (partial_sums (loss_of (get_or plan.now.units i u) ∷ []) Mean)
        (partial_sums (loss_of (get_or plan.now.units i u) ∷ []) One) l h
        → Holds (declared plan.now (Outcome i)) (declared plan.now One) l h }
{}

/// The grids of a unit and of the sum of all others give its joint means.
pub fn law_beside<const B: u32>(from: &Beside<B>)
    ensures { (us : List Loss) (i : ℕ) → AreDeclarable us → i < length us
        → GridEncloses from.now.unit.now (unit_of us i)
        → GridEncloses from.now.others.now (total (without us i))
        → GivesJoints (sources.Beside from.now) (partial_sums us) i }
{}

/// The claims of a Poisson unit over the grid of the total give its joint means, by Panjer's
/// recursion.
pub fn law_of_total<const B: u32>(from: &OverClaims<B>)
    requires poisson { CanShare from.now.unit.now }
    ensures { (us : List Loss) (i : ℕ) → AreDeclarable us → i < length us
        → get_or us i (loss_of from.now.unit.now) ≡ loss_of from.now.unit.now
        → GridEncloses from.now.grid.now (total us)
        → GivesJoints (sources.OverClaims from.now) (partial_sums us) i }
{}

/// The claims of a gamma unit over the grid of the total with its extra claims, `dl_pool::extra`,
/// give its joint means.
pub fn law_with_extra<const B: u32>(from: &OverClaims<B>)
    requires gamma { CanRaise from.now.unit.now }
    ensures { (us : List Loss) (i : ℕ) (extra : UnitOfPlan) → AreDeclarable us → i < length us
        → get_or us i (loss_of from.now.unit.now) ≡ loss_of from.now.unit.now
        → IsExtra from.now.unit.now extra
        → GridEncloses from.now.grid.now (total (loss_of extra ∷ us))
        → GivesJoints (sources.OverClaims from.now) (partial_sums us) i }
{}

/// The claims of a unit of a plan under a common factor, over the grid of the one unit in the place
/// of all with one more in its shape, `dl_pool::raised`, give its joint means.
pub fn law_raised<const B: u32>(from: &OverClaims<B>)
    ensures { (plan : PlanOf) (r : Fraction) (i : ℕ) (raised : UnitOfPlan) → SharesFactor plan r
        → i < length plan.units → get_or plan.units i from.now.unit.now ≡ from.now.unit.now
        → IsRaised r plan.units raised
        → GridEncloses from.now.grid.now (compound_of raised.freq raised.sev)
        → GivesJoints (sources.OverClaims from.now) (declared plan) i }
{}

/// No outcome of a unit is above the total, so its joint mean at `x` is at most `x`; and a low end
/// of it is at most `x` times each high end of the probability of `x`, in units of `1 / S`.
pub fn law_joint_most()
    ensures most { (us : List Loss) (i x : ℕ)
        → AtMost (partial_sums us (Joint i x)) (partial_sums us One) (whole x) }
    ensures below { (us : List Loss) (i x l h S : ℕ) → AreDeclared us → 0 < S
        → AtLeast (partial_sums us (Joint i x)) (partial_sums us One) (l over S)
        → AtMost (partial_sums us (Point x)) (partial_sums us One) (h over S) → l ≤ x * h }
{}

/// The same of what the units of a valid plan declare, under a common factor too.
pub fn law_plan_joint_most(plan: &Plan)
    requires valid { IsValid plan.now }
    ensures most { (i x : ℕ)
        → AtMost (declared plan.now (Joint i x)) (declared plan.now One) (whole x) }
    ensures below { (i x l h S : ℕ) → 0 < S
        → AtLeast (declared plan.now (Joint i x)) (declared plan.now One) (l over S)
        → AtMost (declared plan.now (Point x)) (declared plan.now One) (h over S) → l ≤ x * h }
{}

/// The joint means of all units at a total `x` add up to `x` times its probability, at every level,
/// under a common factor too.
pub fn law_joint_total(plan: &Plan)
    ensures { (x N : ℕ) → sum_below (length plan.now.units)
        (λ i. declared plan.now (Joint i x) N) ≡ whole x *ℚ declared plan.now (Point x) N }
{}

/// The joint mean of a unit at `x` lies between the sums over the grids of the unit and of the
/// others: `lo` and `hi` are the ends of the cells of the one, `lo'` and `hi'` those of the other,
/// in units of 1 / `scale`.
pub fn law_joint_ends()
    ensures { (us : List Loss) (scale cells cells' : ℕ) (lo hi lo' hi' : ℕ → ℕ) (i x : ℕ)
        → AreDeclarable us
        → 0 < scale → i < length us → x < cells → x < cells'
        → Encloses scale cells lo hi (unit_of us i)
        → Encloses scale cells' lo' hi' (total (without us i))
        → Holds (partial_sums us (Joint i x)) (partial_sums us One)
        (count_pairs x (λ y z. y * lo y * lo' z) over (scale * scale))
        (count_pairs x (λ y z. y * hi y * hi' z) over (scale * scale)) }
{}
