//! Shares in a tail mean.

ghost use Rattle.std.specs.Prelude.{◌≡◌, ◌↔◌, ◌⊎◌, ℕ, ◌-◌, ◌*◌, ◌/◌, ◌^◌, ◌<◌, ◌≤◌, List, length, Some, IsNone, IfSome};
ghost use Rattle.std.specs.Int.{div_ceil};
ghost use Rattle.dl_limits.specs.Limits.{rarest_parts, most_level_den, most_share_den, most_mean, most_share_mean};
ghost use Rattle.dl_exact.specs.Prelude.{Fraction, whole, ◌over◌, ◌-ℚ◌, ◌<ℚ◌, sum_to};
ghost use Rattle.dl_iv.specs.Enclosure.{LiesIn};
ghost use Rattle.dl_grid.specs.Cells.{low_at, spread};
ghost use Rattle.dl_model.specs.Prelude.{Holds, Loss, AreDeclarable, One, Point, Outcome, Joint, partial_sums, total as total_of, GridEncloses, IsQuantile, AreDeclared, HoldsShare};
ghost use Rattle.dl_measures.specs.Prelude.{IsFirstFound, low_cdf};
ghost use Rattle.dl_shares.specs.Settled.{IsPast, IsOpen, IsRare, IsSettled, MayBeAbsent};
ghost use Rattle.dl_shares.specs.Widths.{conditional_width, share_width};

use crate::conditional::conditional_mean;
use crate::settled::common_quantile;
use crate::source::ShareSource;
use dl_frac::Frac;
use dl_grid::units_of_one;
use dl_iv::Iv;
use dl_measures::Distribution;

/// The conditional mean of a unit at the total `q`, in buckets, from its joint mean there: at most
/// `q`, since the unit's outcome is not above the total.
fn share_at<const B: u32>(total: &Distribution<B>, joint: Iv<B>, q: u32) -> Iv<B>
    requires inside { q < length total.now }
    requires common { 2 ^ B ≤ low_at total.now q * rarest_parts }
    ensures holds { (us : List Loss) (i : ℕ) → AreDeclarable us → GridEncloses total.now (total_of us)
        → Holds (partial_sums us (Joint i q)) (partial_sums us One) (joint.entry.lo over 2 ^ B)
        (joint.entry.hi over 2 ^ B)
        → Holds (partial_sums us (Joint i q)) (partial_sums us (Point q)) (result.lo over 2 ^ B)
        (result.hi over 2 ^ B) }
    ensures width { (j t : ℕ) → joint.entry.hi - joint.entry.lo ≤ j → spread total.now ≤ t
        → result.hi - result.lo ≤ conditional_width (length total.now) j t }
    ensures most { result.hi ≤ q * 2 ^ B }
{
    prove!(total.cells() > 0);
    let at = total.at(q);
    let most = u128::from(q);
    let lowered = joint.clamp_to(most * at.hi);
    let Some(share) = conditional_mean(lowered, at) else {
        unreachable!()
    };
    share.clamp_to(most * units_of_one(B))
}

/// The difference `cdf - p`, 0 where `cdf` is below `p`.
pub(crate) fn above<const B: u32>(cdf: Iv<B>, p: Frac) -> Iv<B>
    requires below_one { p <ℚ whole 1 }
    requires small { p.den ≤ most_level_den }
    ensures low { result.lo ≡ cdf.entry.lo - div_ceil (2 ^ B * p.num) p.den }
    ensures high { result.hi ≡ cdf.entry.hi - 2 ^ B * p.num / p.den }
    ensures holds { (x : Fraction) → LiesIn x cdf.entry → LiesIn (x -ℚ p) result }
{
    cdf.sub_floor0(Iv::enclose(u128::from(p.num()), u128::from(p.den())))
}

/// The share of one unit in the tail mean at `p`, whose quantile is `q`, in buckets. Of the
/// greatest totals, whose probability is `1 - p`, it is the mean of the unit's outcome: what of its
/// mean lies above the quantile, and its conditional mean at the quantile times what the
/// distribution has there above `p`, over `1 - p`. `mean` is to hold the unit's mean, `joint` its
/// joint mean at `q`, and `below` the sum of those up to `q`.
#[tactic(auto, using(dl_exact::proofs::BelowOne::num_below))]
fn tail_share_at<const B: u32>(
    total: &Distribution<B>,
    mean: Iv<B>,
    joint: Iv<B>,
    below: Iv<B>,
    q: u32,
    p: Frac,
) -> Iv<B>
    requires below_one { p <ℚ whole 1 }
    requires small { p.den ≤ most_share_den }
    requires settled { IsSettled total.now p q }
    requires mean { mean.hi ≤ most_mean }
    ensures holds { (us : List Loss) (i : ℕ) → AreDeclared us → GridEncloses total.now (total_of us)
        → Holds (partial_sums us (Outcome i)) (partial_sums us One) (mean.entry.lo over 2 ^ B)
        (mean.entry.hi over 2 ^ B)
        → Holds (partial_sums us (Joint i q)) (partial_sums us One) (joint.entry.lo over 2 ^ B)
        (joint.entry.hi over 2 ^ B)
        → Holds (λ N. sum_to q (λ x. partial_sums us (Joint i x) N)) (partial_sums us One)
        (below.entry.lo over 2 ^ B) (below.entry.hi over 2 ^ B)
        → (x : ℕ) → IsQuantile (partial_sums us) x p
        → HoldsShare (partial_sums us) i p x (result.lo over 2 ^ B) (result.hi over 2 ^ B) }
    ensures small { result.hi ≤ most_share_mean }
    ensures width { (m j t : ℕ) → mean.entry.hi - mean.entry.lo ≤ m
        → joint.entry.hi - joint.entry.lo ≤ j → below.entry.hi - below.entry.lo ≤ j
        → spread total.now ≤ t
        → result.hi - result.lo ≤ share_width p m (length total.now) j t }
{
    prove!(total.cells() > 0);
    let share = share_at(total, joint, q);
    let beyond = mean.sub_floor0(below);
    let at = above(total.cdf(q), p).mul(share);
    beyond.add(at).scale(p.den(), p.den() - p.num())
}

impl<'a, const B: u32> ShareSource<'a, B> {
    ghost use Rattle.dl_shares.specs.Source.{GivesJoints, joint_width, reach};

    /// The share of the unit in the tail mean at `p`, in buckets. Of the greatest totals, whose
    /// probability is `1 - p`, it is the mean of the unit's outcome: what of its mean lies above the
    /// quantile, and its conditional mean at the quantile times what the distribution has there
    /// above `p`, over `1 - p`.
    ///
    /// `total` is the grid of the total, and `mean` is to hold the unit's mean. `p` is below 1, with
    /// parts of at most 10,000. None exactly where the grid ends before the quantile, the bracket of
    /// the quantile has two ends, or its probability may be below one in `rarest_parts`. Takes no
    /// memory.
    pub fn tail_share(&self, total: &Distribution<B>, mean: Iv<B>, p: Frac) -> Option<Iv<B>>
        requires below_one { p <ℚ whole 1 }
        requires small { p.den ≤ most_share_den }
        requires cells { length total.now ≡ reach self.now }
        requires mean { mean.hi ≤ most_mean }
        ensures none { IsNone result
            ↔ (IsPast total.now p ⊎ IsOpen total.now p ⊎ IsRare total.now p) }
        ensures holds { (us : List Loss) (i : ℕ) → AreDeclared us
            → GivesJoints self.now (partial_sums us) i → GridEncloses total.now (total_of us)
            → Holds (partial_sums us (Outcome i)) (partial_sums us One) (mean.entry.lo over 2 ^ B)
            (mean.entry.hi over 2 ^ B)
            → IfSome result (λ r. (q : ℕ) → IsQuantile (partial_sums us) q p
            → HoldsShare (partial_sums us) i p q (r.lo over 2 ^ B) (r.hi over 2 ^ B)) }
        ensures small { IfSome result (λ r. r.hi ≤ most_share_mean) }
        // at a quantile inside the grid there is none only where the distribution is near p, or the
        // quantile is rare
        ensures absent { (us : List Loss) (x : ℕ) → AreDeclared us
            → GridEncloses total.now (total_of us) → IsNone result
            → IsFirstFound (low_cdf (2 ^ B) (low_at total.now)) p (length total.now) (Some x)
            → MayBeAbsent (partial_sums us) (length total.now) p (spread total.now over 2 ^ B) }
        // within the budget for spreads and means within theirs
        ensures width { IfSome result (λ r. (m t : ℕ) → mean.entry.hi - mean.entry.lo ≤ m
            → spread total.now ≤ t
            → r.hi - r.lo ≤ share_width p m (length total.now) (joint_width self.now) t) }
    {
        let q = common_quantile(total, p)?;
        let joint = self.joint(q);
        let below = self.joints_to(q);
        Some(tail_share_at(total, mean, joint, below, q, p))
    }
}
