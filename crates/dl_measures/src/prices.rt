//! Prices.

ghost use Rattle.std.specs.Prelude.{◌↔◌, ℕ, ◌+◌, ◌-◌, ◌*◌, ◌^◌, ◌≤◌, List, length, None, IsNone, IfSome, All, Any};
ghost use Rattle.std.specs.Int.{div_ceil};
ghost use Rattle.dl_limits.specs.Limits.{most_level_den, most_mean};
ghost use Rattle.dl_exact.specs.Fraction.{whole, ◌over◌, ◌*ℚ◌, ◌≤ℚ◌, ◌<ℚ◌};
ghost use Rattle.dl_grid.specs.Cells.{low_at, spread};
ghost use Rattle.dl_plan.specs.Terms.{ArePriced};
ghost use Rattle.dl_model.specs.Prelude.{AtLeast, Holds, Loss, PricedTerm, One, Mean, Tail, Price, partial_sums, total, GridEncloses, IsQuantile, AreDeclared};
ghost use Rattle.dl_measures.specs.Brackets.{IsFirstFound};
ghost use Rattle.dl_measures.specs.Ends.{low_cdf};
ghost use Rattle.dl_measures.specs.Prices.{AreTermsOf, AreQuantiles, most_tail, term_width, price_width};

use crate::distribution::Distribution;
use crate::tails::tail_mean;
use dl_iv::Iv;
use dl_plan::Term;

/// The part of a price from a term, in buckets: its weight times the tail mean at its `p`. None
/// exactly where the bracket of the quantile has no high end.
fn weighted_tail<const B: u32>(g: &Distribution<B>, term: Term, mean: Iv<B>) -> Option<Iv<B>>
    requires below_one { term.p <ℚ whole 1 }
    requires small { term.p.den ≤ most_level_den }
    requires part { term.weight ≤ℚ whole 1 }
    requires mean { mean.hi ≤ most_mean }
    ensures none { IsNone result ↔ IsFirstFound (low_cdf (2 ^ B) (low_at g.now)) term.p
        (length g.now) None }
    ensures holds { (us : List Loss) (q : ℕ) → AreDeclared us → GridEncloses g.now (total us)
        → Holds (partial_sums us Mean) (partial_sums us One) (mean.entry.lo over 2 ^ B)
        (mean.entry.hi over 2 ^ B) → IsQuantile (partial_sums us) q term.p
        → IfSome result
        (λ r. Holds (λ N. term.weight *ℚ partial_sums us (Tail term.p q) N) (partial_sums us One)
        (r.lo over 2 ^ B) (r.hi over 2 ^ B)) }
    ensures least { (us : List Loss) (q : ℕ) → AreDeclared us → GridEncloses g.now (total us)
        → Holds (partial_sums us Mean) (partial_sums us One) (mean.entry.lo over 2 ^ B)
        (mean.entry.hi over 2 ^ B)
        → IfSome result
        (λ r. AtLeast (λ N. term.weight *ℚ partial_sums us (Tail term.p q) N)
        (partial_sums us One) (r.lo over 2 ^ B)) }
    ensures width { IfSome result (λ r. r.hi - r.lo
        ≤ term_width (mean.entry.hi - mean.entry.lo) (length g.now) (spread g.now) term) }
    ensures most { IfSome result (λ r. r.hi
        ≤ div_ceil (most_tail * term.weight.num) term.weight.den) }
{
    prove!(g.cells() > 0);
    let tail = tail_mean(g, term.p, mean)?;
    Some(tail.part(term.weight.num(), term.weight.den()))
}

/// The price of the total by these terms, in buckets: the sum of the tail means at their
/// probabilities, each times its weight. Each probability is below 1, with parts of at most `10^9`,
/// and `mean` is to hold the mean of the total. None exactly where the bracket of the quantile of
/// some term has no high end, whatever its weight.
pub fn price<const B: u32>(g: &Distribution<B>, terms: &[Term], mean: Iv<B>) -> Option<Iv<B>>
    requires priced { ArePriced terms.now }
    requires below_one { All (λ term. term.p <ℚ whole 1) terms.now }
    requires small { All (λ term. term.p.den ≤ most_level_den) terms.now }
    requires mean { mean.hi ≤ most_mean }
    ensures none { IsNone result ↔ Any (λ term. IsFirstFound (low_cdf (2 ^ B) (low_at g.now)) term.p
        (length g.now) None) terms.now }
    ensures holds { (us : List Loss) (priced : List PricedTerm) → AreDeclared us
        → GridEncloses g.now (total us)
        → Holds (partial_sums us Mean) (partial_sums us One) (mean.entry.lo over 2 ^ B)
        (mean.entry.hi over 2 ^ B)
        → AreTermsOf terms.now priced → AreQuantiles (partial_sums us) priced
        → IfSome result
        (λ r. Holds (partial_sums us (Price priced)) (partial_sums us One) (r.lo over 2 ^ B)
        (r.hi over 2 ^ B)) }
    // no numbers in the place of the quantiles give less
    ensures least { (us : List Loss) (priced : List PricedTerm) → AreDeclared us
        → GridEncloses g.now (total us)
        → Holds (partial_sums us Mean) (partial_sums us One) (mean.entry.lo over 2 ^ B)
        (mean.entry.hi over 2 ^ B)
        → AreTermsOf terms.now priced
        → IfSome result
        (λ r. AtLeast (partial_sums us (Price priced)) (partial_sums us One) (r.lo over 2 ^ B)) }
    // within the budget for means and spreads within theirs
    ensures width { IfSome result (λ r. (m s : ℕ) → mean.entry.hi - mean.entry.lo ≤ m
        → spread g.now ≤ s → r.hi - r.lo ≤ price_width terms.now m (length g.now) s) }
{
    prove!(g.cells() > 0);
    let mut sum = Iv::point(0);
    for term in terms {
        sum = sum.add(weighted_tail(g, *term, mean)?);
    }
    Some(sum)
}
