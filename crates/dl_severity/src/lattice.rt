//! Whether a clause maps each multiple of a step to a whole number.

ghost use Rattle.std.specs.Prelude.{◌<◌, ◌↔◌, IsTrue, All};
ghost use Rattle.dl_limits.specs.Limits.{sum_bound, edge_bound};
ghost use Rattle.dl_plan.specs.Prelude.{IsWhole, kept, IsClause};
ghost use Rattle.dl_severity.specs.Fits.{FitsStep, FitsAfter, FitsLayer};

use dl_plan::{Cede, CedeLayer};

/// Whether the clause maps every multiple of `step` buckets to a whole number of buckets. Between
/// the ends of its layers what it keeps is a straight line, so the two multiples past each end
/// decide. Takes no memory.
pub fn fits(cede: &Cede, step: u32) -> bool
    requires { IsClause cede.now }
    ensures { IsTrue result ↔ FitsStep cede.now step }
{
    step == 0 || is_whole_at(cede, step as u64) && fits_layers(cede, step, cede.layers())
}

/// Whether the multiples of `step` just past both ends of each of these layers are mapped to whole
/// numbers.
fn fits_layers(cede: &Cede, step: u32, layers: &[CedeLayer]) -> bool
    requires step { 0 < step }
    requires clause { IsClause cede.now }
    ensures { IsTrue result ↔ All (FitsLayer cede.now step) layers.now }
{
    layers.iter().all(|layer| fits_layer(cede, step, layer))
}

/// Whether those just past both ends of one layer are.
fn fits_layer(cede: &Cede, step: u32, layer: &CedeLayer) -> bool
    requires step { 0 < step }
    requires clause { IsClause cede.now }
    ensures { IsTrue result ↔ FitsLayer cede.now step layer.now }
{
    fits_after(cede, step, layer.attach as u64) && fits_after(cede, step, layer.edge())
}

/// Whether the first two multiples of `step` that are not below `bound` are mapped to whole
/// numbers.
fn fits_after(cede: &Cede, step: u32, bound: u64) -> bool
    requires step { 0 < step }
    requires bound { bound < edge_bound }
    requires clause { IsClause cede.now }
    ensures { IsTrue result ↔ FitsAfter cede.now step bound }
{
    let first = bound.div_ceil(step as u64) * step as u64;
    is_whole_at(cede, first) && is_whole_at(cede, first + step as u64)
}

/// Whether the clause maps `x` to a whole number.
fn is_whole_at(cede: &Cede, x: u64) -> bool
    requires amount { x < sum_bound }
    requires clause { IsClause cede.now }
    ensures { IsTrue result ↔ IsWhole (kept cede.now x) }
{
    cede.at(x).is_some()
}
