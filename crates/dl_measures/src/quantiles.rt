//! Quantiles.

ghost use Rattle.std.specs.Prelude.{◌≡◌, ℕ, ◌^◌, ◌≤◌, List, length, Some};
ghost use Rattle.dl_limits.specs.Limits.{most_level_den};
ghost use Rattle.dl_exact.specs.Fraction.{whole, ◌over◌, ◌<ℚ◌};
ghost use Rattle.dl_grid.specs.Cells.{low_at, high_at, spread};
ghost use Rattle.dl_model.specs.Prelude.{Loss, AreDeclarable, total, partial_sums, GridEncloses, IsQuantile, IsBracketed, AreDeclared};
ghost use Rattle.dl_measures.specs.Ends.{low_cdf, high_cdf, IsTight};
ghost use Rattle.dl_measures.specs.Brackets.{IsFirstAtLeast, IsFirstFound};

use crate::distribution::Distribution;
use dl_frac::Frac;
use dl_grid::units_of_one;

/// Where a quantile lies, in buckets: at `lo` or above, and at `hi` or below where there is one.
#[derive(Clone, Copy, Debug, PartialEq, Eq)]
pub struct Bracket {
    /// The first amount at which the distribution may have reached the probability; the number of
    /// cells where the grid ends before.
    pub lo: u32,
    /// The first amount at which it has surely reached it; none where the grid ends before.
    pub hi: Option<u32>,
}

/// The bracket of the quantile at `p`, which is below 1, with parts of at most `10^9`: the first
/// cell at which the high end of the distribution is at least `p`, and the first at which the low
/// end is. Between them the distribution is within the spread of the grid of `p`.
pub fn quantile<const B: u32>(g: &Distribution<B>, p: Frac) -> Bracket
    requires below_one { p <ℚ whole 1 }
    requires small { p.den ≤ most_level_den }
    ensures lo { IsFirstAtLeast (high_cdf (2 ^ B) (high_at g.now)) p (length g.now) result.lo }
    ensures hi { IsFirstFound (low_cdf (2 ^ B) (low_at g.now)) p (length g.now) result.hi }
    ensures holds { (us : List Loss) → AreDeclarable us → GridEncloses g.now (total us)
        → IsBracketed (partial_sums us) result.lo result.hi p }
    ensures tight { (us : List Loss) → AreDeclarable us → GridEncloses g.now (total us)
        → IsTight (partial_sums us) (length g.now) result.lo result.hi p (spread g.now over 2 ^ B) }
    ensures quantile { (us : List Loss) (q : ℕ) → AreDeclared us
        → GridEncloses g.now (total us) → IsQuantile (partial_sums us) q p
        → (result.lo ≤ q) × ((x : ℕ) → result.hi ≡ Some x → q ≤ x) }
{
    let cells = g.cells();
    let den = u128::from(p.den());
    let goal = u128::from(p.num()) * units_of_one(B);
    let lo = g.highs().first_reaching(den, goal);
    let hi = g.lows().first_reaching(den, goal);
    if hi < cells {
        return Bracket { lo, hi: Some(hi) };
    }
    Bracket { lo, hi: None }
}
