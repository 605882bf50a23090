//! The mean of what a clause keeps.

ghost use Rattle.std.specs.Prelude.{ℕ, ◌≡◌, ◌+◌, ◌-◌, ◌*◌, ◌^◌, ◌≤◌, None, Some, [], ◌∷◌, length, All, sum_by};
ghost use Rattle.dl_limits.specs.Limits.{most_gross_mean, most_parts};
ghost use Rattle.dl_exact.specs.Fraction.{whole, ◌≤ℚ◌};
ghost use Rattle.dl_grid.specs.Cells.{spread};
ghost use Rattle.dl_plan.specs.declared.plan.Unit.{Unit as UnitOfPlan};
ghost use Rattle.dl_plan.specs.Prelude.{IsClause, edge, IsHorizonOf, declared_mean, IsValidUnit, part_width, mean_width};
ghost use Rattle.dl_model.specs.Prelude.{GridEncloses, compound_of};
ghost use Rattle.dl_measures.specs.Layers.{layer_most};
ghost use Rattle.dl_outcomes.specs.Means.{AreNearestEnds, HoldsClaims, HoldsCeded, HoldsKept};
ghost use Rattle.dl_outcomes.specs.Means.{IsNear, most_claims_mean, most_limited};

use dl_grid::Grid;
use dl_iv::Iv;
use dl_measures::{Distribution, layer_mean};
use dl_plan::{Cede, CedeLayer, Unit};

/// The mean of the sum of the claims of a unit of a valid plan, before its clause, in buckets: the
/// expected number of claims times the mean of one. It needs no grid.
pub fn claims_mean<const B: u32>(unit: &Unit) -> Iv<B>
    requires scale_above { 1 ≤ B }
    requires scale_below { B ≤ 56 }
    requires valid { (cells : ℕ) × IsValidUnit cells unit.now }
    ensures holds { HoldsClaims unit.now result }
    ensures ends { AreNearestEnds unit.now result }
    ensures width { result.hi ≤ result.lo + 1 }
    ensures few { (n : ℕ) → declared_mean unit.now ≤ℚ whole n → result.hi ≤ n * 2 ^ B }
    ensures small { (cells : ℕ) → IsValidUnit cells unit.now
        → result.hi ≤ most_claims_mean cells (2 ^ B) }
{
    let (num, den) = unit.mean_parts();
    Iv::enclose(num, den)
}

/// The mean of what a layer takes of the sum of a unit's claims, by its share, in buckets, from the
/// grid of the sum and from its mean `claims`.
fn part_of<const B: u32>(layer: &CedeLayer, grid: &Grid<B>, claims: Iv<B>) -> Iv<B>
    requires near { IsNear layer.now }
    requires share { layer.now.share ≤ℚ whole 1 }
    requires fine { layer.now.share.den ≤ most_parts }
    requires inside { edge layer.now ≤ length grid.now }
    requires narrow { claims.hi ≤ claims.lo + 1 }
    requires small { claims.hi ≤ most_gross_mean }
    ensures holds { (cells : ℕ) (u : UnitOfPlan) → IsValidUnit cells u
        → GridEncloses grid.now (compound_of u.freq u.sev) → HoldsClaims u claims.entry
        → HoldsCeded u (layer.now ∷ []) result }
    ensures width { result.hi - result.lo ≤ part_width
        (spread grid.now) layer.now.limit layer.now.attach }
    ensures small { result.hi ≤ layer_most layer.now.limit (2 ^ B) claims.entry.hi }
{
    let walked = Distribution::walked(grid);
    let mean = layer_mean(&walked, layer.limit, layer.attach, claims);
    mean.scale(layer.share.num(), layer.share.den())
}

/// The mean of what the layers of a clause take of the sum of a unit's claims, each by its share,
/// in buckets, from the grid of the sum and from its mean `claims`.
fn ceded_mean<const B: u32>(cede: &Cede, grid: &Grid<B>, claims: Iv<B>) -> Iv<B>
    requires clause { IsClause cede.now }
    requires near { All IsNear cede.now.1 }
    requires inside { All (λ l. edge l ≤ length grid.now) cede.now.1 }
    requires narrow { claims.hi ≤ claims.lo + 1 }
    requires small { claims.hi ≤ most_gross_mean }
    ensures holds { (cells : ℕ) (u : UnitOfPlan) → IsValidUnit cells u
        → GridEncloses grid.now (compound_of u.freq u.sev) → HoldsClaims u claims.entry
        → HoldsCeded u cede.now.1 result }
    ensures width { result.hi - result.lo ≤ sum_by
        (λ l. part_width (spread grid.now) l.limit l.attach) cede.now.1 }
    ensures small { result.hi ≤ claims.entry.hi + most_limited (2 ^ B) }
{
    let mut ceded = Iv::point(0);
    let layers = cede.layers();
    'layers: for layer in layers {
        ceded = ceded.add(part_of(layer, grid, claims));
    }
    ceded
}

/// The mean of what a clause keeps of the sum of a unit's claims, in buckets: on the ceded side
/// what its layers take, and on the net side what this leaves of `claims`, the mean of the sum.
pub fn kept_mean<const B: u32>(cede: &Cede, grid: &Grid<B>, claims: Iv<B>) -> Iv<B>
    requires clause { IsClause cede.now }
    requires near { All IsNear cede.now.1 }
    requires inside { All (λ l. edge l ≤ length grid.now) cede.now.1 }
    requires narrow { claims.hi ≤ claims.lo + 1 }
    requires small { claims.hi ≤ most_gross_mean }
    ensures holds { (cells : ℕ) (u : UnitOfPlan) → IsValidUnit cells u → u.cede ≡ Some cede.now
        → GridEncloses grid.now (compound_of u.freq u.sev) → HoldsClaims u claims.entry
        → HoldsKept u result }
    ensures width { result.hi - result.lo ≤ mean_width (Some cede.now) (spread grid.now) }
    ensures small { result.hi ≤ claims.entry.hi + most_limited (2 ^ B) }
{
    let ceded = ceded_mean(cede, grid, claims);
    if cede.net() {
        claims.sub_floor0(ceded)
    } else {
        ceded
    }
}

/// The mean of a unit of a valid plan after its aggregate clause, before its probability of no
/// claim is changed, in buckets, from the grid of the sum of its claims before the clause. The grid
/// is as long as the clause's horizon for some number of cells, so that each layer begins on it,
/// and ends on it where it has a limit. Without a clause the grid is not looked at. It takes no
/// memory.
pub fn cede_mean<const B: u32>(unit: &Unit, grid: &Grid<B>) -> Iv<B>
    requires scale_above { 1 ≤ B }
    requires scale_below { B ≤ 56 }
    requires valid { (cells : ℕ) × IsValidUnit cells unit.now }
    requires horizon { (cells : ℕ) × IsHorizonOf unit.now.cede cells (length grid.now) }
    requires encloses { GridEncloses grid.now (compound_of unit.now.freq unit.now.sev) }
    ensures holds { HoldsKept unit.now result }
    ensures plain { unit.now.cede ≡ None → AreNearestEnds unit.now result }
    ensures width { result.hi - result.lo ≤ mean_width unit.now.cede (spread grid.now) }
    ensures few { (n : ℕ) → declared_mean unit.now ≤ℚ whole n
        → result.hi ≤ n * 2 ^ B + most_limited (2 ^ B) }
    ensures small { (cells : ℕ) → IsValidUnit cells unit.now
        → result.hi ≤ most_claims_mean cells (2 ^ B) + most_limited (2 ^ B) }
{
    let claims = claims_mean(unit);
    match &unit.cede {
        Some(cede) => kept_mean(cede, grid, claims),
        None => claims,
    }
}
