//! Layers.

ghost use Rattle.std.specs.Prelude.{◌≡◌, ℕ, ◌-◌, ◌^◌, ◌≤◌, List, length, None};
ghost use Rattle.dl_exact.specs.Prelude.{◌over◌};
ghost use Rattle.dl_grid.specs.Prelude.{spread, layer_width};
ghost use Rattle.dl_model.specs.Prelude.{Holds, Loss, One, Mean, Layer, partial_sums, total, GridEncloses, AreDeclared};
ghost use Rattle.dl_plan.specs.Horizon.{edge_of};
ghost use Rattle.dl_measures.specs.Layers.{layer_most};

use crate::distribution::Distribution;
use dl_grid::Grid;
use dl_iv::Iv;

/// The mean of what lies in a layer, in buckets: the part of the total above `attach`, at most
/// `limit` where there is one. Without a limit it is what the layer below `attach` leaves of
/// `mean`, which is then to hold the mean of the total. A layer with a limit lies inside the grid,
/// and one without a limit begins there.
pub fn layer_mean<const B: u32>(
    g: &Distribution<B>,
    limit: Option<u32>,
    attach: u32,
    mean: Iv<B>,
) -> Iv<B>
    requires { edge_of limit attach ≤ length g.now }
    ensures holds { (us : List Loss) → AreDeclared us → GridEncloses g.now (total us)
        → (limit ≡ None
        → Holds (partial_sums us Mean) (partial_sums us One) (mean.entry.lo over 2 ^ B)
        (mean.entry.hi over 2 ^ B))
        → Holds (partial_sums us (Layer limit attach)) (partial_sums us One) (result.lo over 2 ^ B)
        (result.hi over 2 ^ B) }
    ensures width { result.hi - result.lo ≤ layer_width limit attach (mean.entry.hi - mean.entry.lo)
        (spread g.now) }
    ensures most { result.hi ≤ layer_most limit (2 ^ B) mean.entry.hi }
{
    prove!(attach <= g.cells());
    match limit {
        Some(limit) => g.finite_layer(limit, attach),
        None => mean.sub_floor0(g.finite_layer(attach, 0)),
    }
}

/// The mean of what lies in a layer, as `layer_mean` gives it, by a walk over the grid: for a grid
/// of which few layers are asked.
pub fn grid_layer_mean<const B: u32>(
    g: &Grid<B>,
    limit: Option<u32>,
    attach: u32,
    mean: Iv<B>,
) -> Iv<B>
    requires { edge_of limit attach ≤ length g.now }
    ensures holds { (us : List Loss) → AreDeclared us → GridEncloses g.now (total us)
        → (limit ≡ None
        → Holds (partial_sums us Mean) (partial_sums us One) (mean.entry.lo over 2 ^ B)
        (mean.entry.hi over 2 ^ B))
        → Holds (partial_sums us (Layer limit attach)) (partial_sums us One) (result.lo over 2 ^ B)
        (result.hi over 2 ^ B) }
    ensures width { result.hi - result.lo ≤ layer_width limit attach (mean.entry.hi - mean.entry.lo)
        (spread g.now) }
    ensures most { result.hi ≤ layer_most limit (2 ^ B) mean.entry.hi }
{
    let distribution = Distribution::walked(g);
    layer_mean(&distribution, limit, attach, mean)
}
