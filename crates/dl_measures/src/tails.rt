//! Tail means.

ghost use Rattle.std.specs.Prelude.{◌≡◌, ◌↔◌, ℕ, ◌+◌, ◌-◌, ◌*◌, ◌/◌, ◌^◌, ◌≤◌, List, length, None, IsNone, IfSome};
ghost use Rattle.std.specs.Int.{div_ceil};
ghost use Rattle.dl_limits.specs.Limits.{most_level_den, most_mean};
ghost use Rattle.dl_exact.specs.Fraction.{whole, ◌over◌, ◌<ℚ◌};
ghost use Rattle.dl_grid.specs.Prelude.{low_at, spread, tail_width};
ghost use Rattle.dl_model.specs.Prelude.{AtLeast, Holds, Loss, One, Mean, Tail, partial_sums, total, GridEncloses, IsQuantile, AreDeclared};
ghost use Rattle.dl_measures.specs.Ends.{low_cdf};
ghost use Rattle.dl_measures.specs.Brackets.{IsFirstFound};

use crate::distribution::Distribution;
use crate::layers::layer_mean;
use crate::quantiles::quantile;
use dl_frac::Frac;
use dl_grid::units_of_one;
use dl_iv::Iv;

/// The mean above the quantile over `1 - p`: the quotients, of which the low end is
/// lowered first by `slack` units.
#[tactic(auto, using(dl_exact::proofs::BelowOne::num_below))]
fn over_the_rest<const B: u32>(excess: Iv<B>, slack: u128, p: Frac) -> Iv<B>
    requires below_one { p <ℚ whole 1 }
    requires small { p.den ≤ most_level_den }
    requires excess { excess.hi ≤ most_mean }
    ensures low { result.lo ≡ (excess.entry.lo - slack) * p.den / (p.den - p.num) }
    ensures high { result.hi ≡ div_ceil (excess.entry.hi * p.den) (p.den - p.num) }
{
    let lowered = Iv {
        lo: excess.lo.saturating_sub(slack),
        hi: excess.hi,
    };
    lowered.scale(p.den(), p.den() - p.num())
}

/// The tail mean at `p`, in buckets: the mean of the total over its greatest outcomes, whose
/// probability is `1 - p`. It is the quantile at `p`, and the mean of what lies above the quantile
/// over `1 - p`. `p` is below 1, with parts of at most `10^9`, and `mean` is to hold the mean of
/// the total. None exactly where the bracket of the quantile has no high end.
pub fn tail_mean<const B: u32>(g: &Distribution<B>, p: Frac, mean: Iv<B>) -> Option<Iv<B>>
    requires below_one { p <ℚ whole 1 }
    requires small { p.den ≤ most_level_den }
    requires mean { mean.hi ≤ most_mean }
    ensures none { IsNone result ↔ IsFirstFound (low_cdf (2 ^ B) (low_at g.now)) p
        (length g.now) None }
    ensures holds { (us : List Loss) (q : ℕ) → AreDeclared us → GridEncloses g.now (total us)
        → Holds (partial_sums us Mean) (partial_sums us One) (mean.entry.lo over 2 ^ B)
        (mean.entry.hi over 2 ^ B) → IsQuantile (partial_sums us) q p
        → IfSome result
        (λ r. Holds (partial_sums us (Tail p q)) (partial_sums us One) (r.lo over 2 ^ B)
        (r.hi over 2 ^ B)) }
    // no number in the place of the quantile gives less
    ensures least { (us : List Loss) (q : ℕ) → AreDeclared us → GridEncloses g.now (total us)
        → Holds (partial_sums us Mean) (partial_sums us One) (mean.entry.lo over 2 ^ B)
        (mean.entry.hi over 2 ^ B)
        → IfSome result
        (λ r. AtLeast (partial_sums us (Tail p q)) (partial_sums us One) (r.lo over 2 ^ B)) }
    ensures width { IfSome result (λ r. r.hi - r.lo ≤ tail_width p (mean.entry.hi - mean.entry.lo)
        (length g.now) (spread g.now)) }
    ensures most { IfSome result (λ r. r.hi ≤ length g.now * 2 ^ B + mean.entry.hi * p.den) }
{
    let bracket = quantile(g, p);
    prove!(bracket.lo <= g.cells());
    let hi = bracket.hi?;
    let excess = layer_mean(g, None, bracket.lo, mean);
    // the quantile may lie above the low end of its bracket, up to `hi`
    let slack = u128::from(hi - bracket.lo) * g.spread();
    let start = Iv::point(u128::from(bracket.lo) * units_of_one(B));
    Some(start.add(over_the_rest(excess, slack, p)))
}
