//! The first items of a product of two lists, by halves where that is faster.

ghost use Rattle.std.specs.Prelude.{◌≡◌, ℕ, ◌+◌, ◌*◌, ◌^◌, ◌<◌, ◌≤◌, length, get_or, take};
ghost use Rattle.dl_limits.specs.Limits.{most_cells};
ghost use Rattle.dl_convolution.specs.Sums.{pair_sum, ItemsFit};
ghost use Rattle.dl_halves.specs.Halves.{halved_from, IsHalvable};

use crate::halves::halved;
use crate::ring::Words;
use dl_convolution::plain_sums;

/// The number of items from which on halving is faster than the plain product.
const HALVED_FROM: usize = 1536;

/// The number of items of work memory that a product of `cells` items takes.
pub fn work_for(cells: u32) -> usize
    ensures { halved_from ≤ cells → 6 * cells ≤ result }
{
    if (cells as usize) < HALVED_FROM {
        0
    } else {
        6 * cells as usize
    }
}

/// The least length of `32 * 2^k` items that is at least half of `cells`.
fn half_length(cells: usize) -> usize
    requires some { 64 ≤ cells }
    requires few { cells ≤ most_cells }
    ensures halvable { IsHalvable result }
    ensures enough { cells ≤ 2 * result }
    ensures less { result < cells }
{
    let mut half = 32;
    for _doublings in 0..10u32 {
        if cells <= 2 * half {
            return half;
        }
        half *= 2;
    }
    half
}

/// The product of two lists of `32 * 2^k` items, exactly.
fn exact_product(a: &[u128], b: &[u128], out: &mut [u128], work: &mut [u128])
    requires halvable { IsHalvable (length a.now) }
    requires paired { length b.now ≡ length a.now }
    requires room { length out.old ≡ 2 * length a.now }
    requires work { 4 * length a.now ≤ length work.old }
    requires fits { ItemsFit a.now b.now (length a.now) }
    ensures each { (s : ℕ) → s < length out.old → get_or out.new s 0 ≡ pair_sum a.now b.now s }
{
    halved(&mut Words, a, b, out, work);
}

/// The first items of the product of the first `half` items of two lists, as many as `out` has.
fn first_sums(a: &[u128], b: &[u128], half: usize, out: &mut [u128], work: &mut [u128])
    requires halvable { IsHalvable half }
    requires in_first { half ≤ length a.now }
    requires in_second { half ≤ length b.now }
    requires enough { length out.old ≤ 2 * half }
    requires work { 6 * half ≤ length work.old }
    requires fits { ItemsFit a.now b.now half }
    ensures each { (s : ℕ) → s < length out.old
        → get_or out.new s 0 ≡ pair_sum (take half a.now) (take half b.now) s }
{
    let (product, spare) = work.split_at_mut(2 * half);
    exact_product(&a[..half], &b[..half], product, spare);
    out.copy_from_slice(&product[..out.len()]);
}

/// Adds `more` to the items of `out` from `start` on.
fn add_from(out: &mut [u128], start: usize, more: &[u128])
    requires within { start + length more.now ≤ length out.old }
    requires fits { (t : ℕ) → t < length more.now
        → get_or out.old (start + t) 0 + get_or more.now t 0 < 2 ^ 128 }
    ensures first { (s : ℕ) → s < start → get_or out.new s 0 ≡ get_or out.old s 0 }
    ensures each { (t : ℕ) → t < length more.now
        → get_or out.new (start + t) 0 ≡ get_or out.old (start + t) 0 + get_or more.now t 0 }
{
    for t in 0..more.len() {
        out[start + t] += more[t];
    }
}

/// The first items of the product of two lists, as many as `out` has, each as the sum of all its
/// products; by halves where there are many. It takes no memory: `work` then has as many items as
/// `work_for` says.
pub fn halved_sums(a: &[u128], b: &[u128], out: &mut [u128], work: &mut [u128])
    requires fits { ItemsFit a.now b.now (length out.old) }
    requires in_first { length out.old ≤ length a.now }
    requires in_second { length out.old ≤ length b.now }
    requires work { halved_from ≤ length out.old → 6 * length out.old ≤ length work.old }
    ensures each { (s : ℕ) → s < length out.old → get_or out.new s 0 ≡ pair_sum a.now b.now s }
{
    let cells = out.len();
    if cells < HALVED_FROM {
        plain_sums(a, b, out);
        return;
    }
    let half = half_length(cells);
    first_sums(a, b, half, out, work);
    let (cross, spare) = work.split_at_mut(cells - half);
    halved_sums(&a[half..], b, cross, spare);
    add_from(out, half, cross);
    halved_sums(a, &b[half..], cross, spare);
    add_from(out, half, cross);
}
