//! The quantile that a grid settles.

ghost use Rattle.std.specs.Prelude.{ℕ, ◌↔◌, ◌^◌, ◌<◌, ◌≤◌, ◌⊎◌, List, length, Some, IsNone, IfSome};
ghost use Rattle.dl_limits.specs.Limits.{most_level_den};
ghost use Rattle.dl_exact.specs.Fraction.{whole, ◌<ℚ◌, ◌over◌};
ghost use Rattle.dl_grid.specs.Cells.{low_at, spread};
ghost use Rattle.dl_model.specs.Prelude.{Loss, AreDeclared, partial_sums, total, GridEncloses};
ghost use Rattle.dl_measures.specs.Prelude.{IsFirstFound, low_cdf};
ghost use Rattle.dl_shares.specs.Settled.{IsBracketIn, IsPast, IsOpen, IsRare, IsSettled, MayBeAbsent};

use dl_frac::Frac;
use dl_grid::units_of_one;
use dl_limits::RAREST_PARTS;
use dl_measures::{Distribution, quantile};

/// The quantile at `p`, in buckets, where both ends of its bracket are equal. `p` is below 1, with
/// parts of at most `10^9`. None exactly where the grid ends before the quantile, or its bracket
/// has two ends.
pub(crate) fn settled_quantile<const B: u32>(g: &Distribution<B>, p: Frac) -> Option<u32>
    requires below_one { p <ℚ whole 1 }
    requires small { p.den ≤ most_level_den }
    ensures some { IfSome result (λ q. (q < length g.now) × IsBracketIn g.now p q (Some q)) }
    ensures none { IsNone result → IsPast g.now p ⊎ IsOpen g.now p }
{
    prove!(g.cells() > 0);
    let bracket = quantile(g, p);
    let hi = bracket.hi?;
    if bracket.lo < hi {
        return None;
    }
    Some(hi)
}

/// The quantile at `p`, in buckets, where the grid settles it and its probability is at least one
/// in `rarest_parts`. `p` is below 1, with parts of at most `10^9`. None exactly where the grid
/// ends before the quantile, its bracket has two ends, or its probability may be lower.
pub(crate) fn common_quantile<const B: u32>(g: &Distribution<B>, p: Frac) -> Option<u32>
    requires below_one { p <ℚ whole 1 }
    requires small { p.den ≤ most_level_den }
    ensures some { IfSome result (IsSettled g.now p) }
    ensures none { IsNone result ↔ (IsPast g.now p ⊎ IsOpen g.now p ⊎ IsRare g.now p) }
    // inside the grid there is none only where the distribution is near p, or the quantile is rare
    ensures absent { (us : List Loss) (x : ℕ) → AreDeclared us → GridEncloses g.now (total us)
        → IsNone result → IsFirstFound (low_cdf (2 ^ B) (low_at g.now)) p (length g.now) (Some x)
        → MayBeAbsent (partial_sums us) (length g.now) p (spread g.now over 2 ^ B) }
{
    let q = settled_quantile(g, p)?;
    prove!(g.cells() > 0);
    if g.at(q).lo * RAREST_PARTS < units_of_one(B) {
        return None;
    }
    Some(q)
}
