//! The share of one unit in the tail mean at every quantile.

ghost use Rattle.std.specs.Prelude.{◌≡◌, ◌↔◌, ℕ, ◌+◌, ◌-◌, ◌*◌, ◌^◌, ◌<◌, ◌≤◌, List, length, Some, IsNone, IfSome};
ghost use Rattle.dl_limits.specs.Limits.{most_level_den, most_mean, most_share_end};
ghost use Rattle.dl_exact.specs.Prelude.{whole, ◌over◌, ◌<ℚ◌};
ghost use Rattle.dl_grid.specs.Cells.{low_at, high_at, spread};
ghost use Rattle.dl_plan.specs.declared.plan.Plan.{Plan};
ghost use Rattle.dl_plan.specs.Prelude.{IsValid};
ghost use Rattle.dl_model.specs.Prelude.{Holds, One, Point, Outcome, IsQuantile, HoldsShare, declared};
ghost use Rattle.dl_shares.specs.Settled.{IsBracketIn, IsPast};
ghost use Rattle.dl_shares.specs.Tails.{HoldJoints, low_above, high_above, part_down, part_up};
ghost use Rattle.dl_shares.specs.Widths.{whole_share_width};

use crate::shares::above;
use crate::source::ShareSource;
use dl_frac::Frac;
use dl_iv::Iv;
use dl_measures::{Distribution, quantile};

/// The joint means of a unit at a total `x` and up to it, in buckets.
#[derive(Clone, Copy)]
struct Joints<const B: u32> {
    /// The total.
    x: u32,
    /// The joint mean at it.
    at: Iv<B>,
    /// The sum of those at the totals up to it.
    up_to: Iv<B>,
}

/// The part of a joint mean that belongs to the tail: all of it where `above`, what the
/// distribution has above the level, is at least the probability `at` of the total, and else the
/// part that `above` is of that.
fn tail_part<const B: u32>(joint: Iv<B>, above: Iv<B>, at: Iv<B>) -> Iv<B>
    requires fits { joint.hi * above.hi < 2 ^ 128 }
    ensures low { result.lo ≡ part_down joint.entry.lo above.entry.lo at.entry.hi }
    ensures high { result.hi ≡ part_up joint.entry.hi above.entry.hi at.entry.lo }
{
    let lo = if at.hi <= above.lo {
        joint.lo
    } else {
        joint.lo * above.lo / at.hi
    };
    let hi = if at.lo <= above.hi {
        joint.hi
    } else {
        (joint.hi * above.hi).div_ceil(at.lo)
    };
    Iv { lo, hi }
}

/// What of the mean of a unit belongs to the tail at `p` where the quantile is the total of
/// `joints`, in buckets: what of `mean` lies above it, and the part of the joint mean at it that
/// belongs to the tail.
fn mean_in_tail<const B: u32>(
    total: &Distribution<B>,
    mean: Iv<B>,
    joints: Joints<B>,
    p: Frac,
) -> Iv<B>
    requires below_one { p <ℚ whole 1 }
    requires small { p.den ≤ most_level_den }
    requires inside { joints.x < length total.now }
    requires mean { mean.hi ≤ most_mean }
    requires joint { joints.at.hi ≤ 4 * joints.x * 2 ^ B }
    ensures low { result.lo ≡ (mean.entry.lo - joints.entry.up_to.hi)
        + part_down joints.entry.at.lo (low_above total.now p joints.entry.x)
        (high_at total.now joints.entry.x) }
    ensures high { result.hi ≡ (mean.entry.hi - joints.entry.up_to.lo)
        + part_up joints.entry.at.hi (high_above total.now p joints.entry.x)
        (low_at total.now joints.entry.x) }
    ensures small { result.hi ≤ most_mean + 4 * joints.entry.x * 2 ^ B }
{
    prove!(total.cells() > 0);
    let part = tail_part(joints.at, above(total.cdf(joints.x), p), total.at(joints.x));
    mean.sub_floor0(joints.up_to).add(part)
}

/// The share of a unit in the tail mean at `p`, in buckets: what of its mean belongs to the tail,
/// over `1 - p`. The bracket of the quantile goes from the total of `first` to that of `last`. What
/// belongs to the tail falls as the quantile rises, so the low end is that at the last total, and
/// the high end that at the first. `mean` is to hold the unit's mean.
#[tactic(auto, using(dl_exact::proofs::BelowOne::num_below))]
fn share_between<const B: u32>(
    total: &Distribution<B>,
    mean: Iv<B>,
    first: Joints<B>,
    last: Joints<B>,
    p: Frac,
) -> Iv<B>
    requires below_one { p <ℚ whole 1 }
    requires small { p.den ≤ most_level_den }
    requires order { first.x ≤ last.x }
    requires same { first.x ≡ last.x → first ≡ last }
    requires inside { last.x < length total.now }
    requires bracket { IsBracketIn total.now p first.x (Some last.x) }
    requires mean { mean.hi ≤ most_mean }
    requires first { first.at.hi ≤ 4 * first.x * 2 ^ B }
    requires last { last.at.hi ≤ 4 * last.x * 2 ^ B }
    ensures holds { (plan : Plan) (i j : ℕ) → IsValid plan
        → ((x : ℕ) → x < length total.now → Holds (declared plan (Point x)) (declared plan One)
        (low_at total.now x over 2 ^ B) (high_at total.now x over 2 ^ B))
        → Holds (declared plan (Outcome i)) (declared plan One) (mean.entry.lo over 2 ^ B)
        (mean.entry.hi over 2 ^ B)
        → HoldJoints plan i j first.entry → HoldJoints plan i j last.entry
        → (q : ℕ) → IsQuantile (declared plan) q p
        → HoldsShare (declared plan) i p q (result.lo over 2 ^ B) (result.hi over 2 ^ B) }
    ensures small { result.hi ≤ most_share_end }
    ensures width { (plan : Plan) (i m j t : ℕ) → IsValid plan
        → ((x : ℕ) → x < length total.now → Holds (declared plan (Point x)) (declared plan One)
        (low_at total.now x over 2 ^ B) (high_at total.now x over 2 ^ B))
        → HoldJoints plan i j first.entry → HoldJoints plan i j last.entry
        → mean.entry.hi - mean.entry.lo ≤ m → spread total.now ≤ t
        → result.hi - result.lo ≤ whole_share_width p m (length total.now) j t }
{
    prove!(total.cells() > 0);
    let low = mean_in_tail(total, mean, last, p).lo;
    let high = mean_in_tail(total, mean, first, p).hi;
    let ends = Iv {
        lo: low,
        hi: high.max(low),
    };
    ends.scale(p.den(), p.den() - p.num())
}

impl<'a, const B: u32> ShareSource<'a, B> {
    ghost use Rattle.dl_shares.specs.Source.{GivesJoints, IsSharedBy, joint_width, reach};

    /// The joint means of the unit at `x` and up to it.
    fn joints(&self, x: u32) -> Joints<B>
        requires inside { x < reach self.now }
        ensures total { result.x ≡ x }
        ensures holds { (plan : Plan) (i : ℕ) → IsValid plan
            → GivesJoints self.now (declared plan) i
            → HoldJoints plan i (joint_width self.now) result }
        ensures small { result.at.hi ≤ 4 * x * 2 ^ B }
    {
        Joints {
            x,
            at: self.joint(x),
            up_to: self.joints_to(x),
        }
    }

    /// Those at `lo`, which is at most the total of `last`: `last` itself where it is that total.
    fn first_joints(&self, lo: u32, last: Joints<B>) -> Joints<B>
        requires order { lo ≤ last.x }
        requires inside { last.x < reach self.now }
        requires holds { (plan : Plan) (i : ℕ) → IsValid plan
            → GivesJoints self.now (declared plan) i
            → HoldJoints plan i (joint_width self.now) last }
        requires small { last.at.hi ≤ 4 * last.x * 2 ^ B }
        ensures total { result.x ≡ lo }
        ensures same { lo ≡ last.entry.x → result ≡ last.entry }
        ensures holds { (plan : Plan) (i : ℕ) → IsValid plan
            → GivesJoints self.now (declared plan) i
            → HoldJoints plan i (joint_width self.now) result }
        ensures small { result.at.hi ≤ 4 * lo * 2 ^ B }
    {
        if lo < last.x {
            return self.joints(lo);
        }
        last
    }

    /// The share of the unit in the tail mean at `p`, in buckets, at every quantile inside the
    /// grid: of the greatest totals, whose probability is `1 - p`, the mean of the unit's outcome.
    /// That is, over `1 - p`: its mean where the total is above the quantile, and its joint mean at
    /// the quantile times `(F - p) / P`, at most 1, with `P` the probability of the quantile and `F`
    /// that of a total up to it. Where the bracket of the quantile has two ends, the low end is
    /// that at the greater, and the high end that at the lesser.
    ///
    /// `total` is the grid of the total, and `mean` is to hold the unit's mean. `p` is below 1,
    /// with parts of at most `10^9`. None exactly where the grid ends before the quantile. Takes no
    /// memory.
    pub fn share(&self, total: &Distribution<B>, mean: Iv<B>, p: Frac) -> Option<Iv<B>>
        requires below_one { p <ℚ whole 1 }
        requires small { p.den ≤ most_level_den }
        requires cells { length total.now ≡ reach self.now }
        requires mean { mean.hi ≤ most_mean }
        ensures none { IsNone result ↔ IsPast total.now p }
        ensures holds { (plan : Plan) (i : ℕ) → IsValid plan → i < length plan.units
            → IsSharedBy plan i self.now total.now mean.entry
            → IfSome result (λ r. (q : ℕ) → IsQuantile (declared plan) q p
            → HoldsShare (declared plan) i p q (r.lo over 2 ^ B) (r.hi over 2 ^ B)) }
        ensures small { IfSome result (λ r. r.hi ≤ most_share_end) }
        // within the budget for spreads and means within theirs
        ensures width { (plan : Plan) (i : ℕ) → IsValid plan → i < length plan.units
            → IsSharedBy plan i self.now total.now mean.entry
            → IfSome result (λ r. (m t : ℕ) → mean.entry.hi - mean.entry.lo ≤ m
            → spread total.now ≤ t
            → r.hi - r.lo ≤ whole_share_width p m (length total.now) (joint_width self.now) t) }
    {
        prove!(total.cells() > 0);
        let bracket = quantile(total, p);
        let hi = bracket.hi?;
        let last = self.joints(hi);
        let first = self.first_joints(bracket.lo, last);
        Some(share_between(total, mean, first, last, p))
    }
}
