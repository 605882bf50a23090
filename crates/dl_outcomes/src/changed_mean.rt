//! The mean of a unit with a changed probability of no claim.

ghost use Rattle.std.specs.Prelude.{ℕ, ◌-◌, ◌*◌, ◌^◌, ◌<◌, ◌≤◌};
ghost use Rattle.dl_limits.specs.Limits.{zero_bound, most_mean_before};
ghost use Rattle.dl_exact.specs.Fraction.{whole, ◌<ℚ◌};
ghost use Rattle.dl_model.specs.Prelude.{Aggregate, IsDeclared, loss, changed};
ghost use Rattle.dl_outcomes.specs.Before.{HoldsNone, HoldsMean};
ghost use Rattle.dl_outcomes.specs.Ends.{changed_mean_width};

use dl_frac::Frac;
use dl_iv::Iv;

/// The mean of a unit with the probability `p` of no claim in place of its own, in buckets. `mean`
/// holds the mean of the unit before the change, of at most `most_mean_before`, and `none`
/// its probability of no claim, of at most 17 / 18. `p` is below 1, with parts below `2^37`. No
/// claim adds 0, so that the mean is multiplied by `1 - p`, and divided by the probability of a
/// claim after: in the other order the product could pass 128 bits. It takes no memory.
#[tactic(auto, using(dl_exact::proofs::BelowOne::num_below))]
pub fn zero_mean<const B: u32>(mean: Iv<B>, none: Iv<B>, p: Frac) -> Iv<B>
    requires below_one { p <ℚ whole 1 }
    requires parts { p.den < zero_bound }
    requires some_claim { 18 * none.hi ≤ 17 * 2 ^ B }
    requires small { mean.hi ≤ most_mean_before }
    ensures holds { (u : Aggregate) → IsDeclared u → HoldsMean (loss u) mean.entry
        → HoldsNone u none.entry → HoldsMean (changed p u) result }
    // where the mean before was at most m buckets, and the probability of no claim at most 16 / 17
    ensures width { (m : ℕ) → mean.entry.lo ≤ m * 2 ^ B → 17 * none.entry.lo ≤ 16 * 2 ^ B
        → result.hi - result.lo ≤ changed_mean_width (mean.entry.hi - mean.entry.lo) m
        (none.entry.hi - none.entry.lo) }
    ensures small { result.hi ≤ 18 * mean.entry.hi }
{
    let part = mean.scale(p.den() - p.num(), p.den());
    part.div(none.complement())
}
