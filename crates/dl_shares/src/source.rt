//! What the joint means of a unit are drawn from.

ghost use Rattle.std.specs.Prelude.{◌≡◌, ◌^◌, ◌<◌, ℕ, length};
ghost use Rattle.dl_grid.specs.Cells.{spread};
ghost use Rattle.dl_plan.specs.Prelude.{IsValidUnit, IsUnbounded};
ghost use Rattle.dl_shares.specs.Claims.{HasClaims, HasClaims-prop};

use dl_grid::Grid;
use dl_measures::Distribution;
use dl_plan::Unit;

/// A unit's joint means from the grid of its outcomes and that of the sum of all other units.
#[derive(Clone, Copy)]
pub struct Beside<'a, const B: u32> {
    /// The grid of the unit.
    pub unit: &'a Grid<B>,
    /// That of the sum of all others, on as many cells.
    pub others: &'a Grid<B>,
    pub ghost alike: { length others.now ≡ length unit.now },
    pub ghost narrow: { spread unit.now < 2 ^ B },
    pub ghost others_narrow: { spread others.now < 2 ^ B },
}

/// The same from the claims of a Poisson or a gamma unit, over the grid of what there is beside one
/// claim: of a Poisson unit, that is the total; of a gamma unit, the total with its extra claims;
/// and under a common factor, the one unit in the place of all with one more in its shape.
#[derive(Clone, Copy)]
pub struct OverClaims<'a, const B: u32> {
    /// The unit.
    pub unit: &'a Unit,
    /// The grid of what there is beside one of its claims.
    pub grid: &'a Distribution<'a, B>,
    pub ghost fit: { HasClaims unit.now } by { HasClaims-prop unit.now },
    pub ghost narrow: { spread grid.now < 2 ^ B },
}

/// What the joint means of one unit are drawn from.
#[derive(Clone, Copy)]
pub enum ShareSource<'a, const B: u32> {
    /// Two grids.
    Beside(Beside<'a, B>),
    /// The claims of the unit over one grid.
    OverClaims(OverClaims<'a, B>),
}

impl<'a, const B: u32> OverClaims<'a, B> {
    /// The claims of a Poisson or a gamma unit of a valid plan over a grid.
    #[tactic(auto, using(crate::proofs::ClaimCounts::has_claims))]
    pub fn of(unit: &'a Unit, grid: &'a Distribution<'a, B>) -> Self
        requires valid { (cells : ℕ) × IsValidUnit cells unit.now }
        requires unbounded { IsUnbounded unit.now.freq }
        requires narrow { spread grid.now < 2 ^ B }
        ensures unit { result.unit.now ≡ unit.now }
        ensures grid { result.grid.now ≡ grid.now }
    {
        OverClaims { unit, grid }
    }
}
