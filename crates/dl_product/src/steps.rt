//! Lists whose items lie a common step apart, as the cells of losses that are multiples of 100
//! buckets: their items at the multiples of the step make shorter lists.

ghost use Rattle.std.specs.Prelude.{◌≡◌, ℕ, ◌+◌, ◌*◌, ◌<◌, ◌≤◌, length, get_or, IfOk};
ghost use Rattle.std.specs.Int.{div_ceil};
ghost use Prim.Native.Nat.{◌∣◌};
ghost use Rattle.dl_limits.specs.Limits.{most_cells};
ghost use Rattle.dl_product.specs.Places.{AreMultiples, IsCount, LieApart, LieFrom};

use dl_frac::small_divisor;
use std::alloc::{AllocError, Global};

/// The greatest common divisor of `step` and of the places of the items that are not 0; 0 where
/// `step` is 0 and no item past the first is.
fn step_with(xs: &[u128], step: u32) -> u32
    requires { length xs.now ≤ most_cells }
    ensures divides { result ∣ step }
    ensures apart { LieApart result xs.now }
{
    let mut step = step;
    for i in 0..xs.len() {
        if step == 1 {
            return 1;
        }
        if xs[i] != 0 {
            step = small_divisor(step, i as u32);
        }
    }
    step
}

/// The greatest common divisor of the places of the items of two lists that are not 0; 1 where no
/// item past the first is.
pub(crate) fn common_step(a: &[u128], b: &[u128]) -> usize
    requires first { length a.now ≤ most_cells }
    requires second { length b.now ≤ most_cells }
    ensures some { 0 < result }
    ensures first { LieApart result a.now }
    ensures second { LieApart result b.now }
{
    let step = step_with(b, step_with(a, 0));
    step.max(1) as usize
}

/// Makes a list as long as `items`, in the room that it has where that is enough.
pub(crate) fn set_length(list: &mut Vec<u128>, items: usize) -> Result<(), AllocError>
    ensures { IfOk result (λ _. length list.new.items ≡ items) }
{
    list.resize(items, 0)
}

/// Writes into `out` the items at the multiples of `step`.
pub(crate) fn take_multiples(
    xs: &[u128],
    step: usize,
    out: &mut Vec<u128>,
) -> Result<(), AllocError>
    requires { 0 < step }
    ensures many { IfOk result (λ _. length out.new.items ≡ div_ceil (length xs.now) step) }
    ensures each { IfOk result (λ _. AreMultiples step xs.now out.new.items) }
{
    set_length(out, xs.len().div_ceil(step))?;
    for k in 0..out.len() {
        out[k] = xs[k * step];
    }
    Ok(())
}

/// How many items from place `start` on, `step` apart, lie before place `cells`; `most` at most.
pub(crate) fn count_before(cells: usize, start: usize, step: usize, most: usize) -> usize
    requires { 0 < step }
    ensures { IsCount cells start step most result }
{
    cells.saturating_sub(start).div_ceil(step).min(most)
}

/// A list of `cells` items: the given ones `step` apart from `start` on, and zeros.
pub(crate) fn spread_out(
    alloc: Global,
    items: &[u128],
    start: usize,
    step: usize,
    cells: u32,
) -> Result<Vec<u128>, AllocError>
    requires some { 0 < step }
    requires inside { (k : ℕ) → k < length items.now → start + k * step < cells }
    ensures cells { IfOk result (λ v. length v.items ≡ cells) }
    ensures each { IfOk result (λ v. LieFrom start step (λ k. get_or items.now k 0)
        (λ s. get_or v.items s 0)) }
{
    let mut out = Vec::from_elem(alloc, 0, cells as usize)?;
    for k in 0..items.len() {
        out[start + k * step] = items[k];
    }
    Ok(out)
}
