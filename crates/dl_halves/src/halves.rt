//! Products of lists of equal length by halves (Karatsuba), in any ring.

ghost use Rattle.std.specs.Prelude.{◌≡◌, ℕ, ◌+◌, ◌-◌, ◌*◌, ◌%◌, ◌^◌, ◌<◌, ◌≤◌, min, map, length, get_or};
ghost use Rattle.dl_limits.specs.Limits.{most_cells};
ghost use Rattle.dl_halves.specs.Modulo.{IsSame};
ghost use Rattle.dl_convolution.specs.Sums.{pair_sum};
ghost use Rattle.dl_halves.specs.Halves.{IsHalvable};

use crate::ring::Ring;

/// The length from which on lists are halved no more.
const BLOCK: usize = 32;

/// The sum of the products of items whose places add up to `s`.
fn column<R: Ring>(ring: &mut R, a: &[R::Elem], b: &[R::Elem], s: usize) -> R::Elem
    requires some { 1 ≤ length a.now }
    requires few { length a.now ≤ most_cells }
    requires paired { length b.now ≡ length a.now }
    requires inside { s < 2 * length a.now }
    ensures value { IsSame (R.value result) (pair_sum (map R.value a.now) (map R.value b.now) s) }
    ensures products { R.products ring.new ≤ R.products ring.old +
        (min (length a.now) (s + 1) - (s + 1 - length a.now)) }
{
    let mut sum = ring.zero();
    let first = (s + 1).saturating_sub(b.len());
    let last = a.len().min(s + 1);
    for i in first..last {
        let product = ring.mul(a[i], b[s - i]);
        sum = ring.add(sum, product);
    }
    sum
}

/// The product of two lists of 32 items, item by item.
fn block<R: Ring>(ring: &mut R, a: &[R::Elem], b: &[R::Elem], out: &mut [R::Elem])
    requires long { length a.now ≡ 32 }
    requires paired { length b.now ≡ length a.now }
    requires room { length out.old ≡ 2 * length a.now }
    ensures value { (s : ℕ) → s < length out.old
        → IsSame (get_or (map R.value out.new) s 0)
        (pair_sum (map R.value a.now) (map R.value b.now) s) }
    ensures products { R.products ring.new ≤ R.products ring.old + 1024 }
{
    for s in 0..out.len() {
        let sum = column(ring, a, b, s);
        out[s] = sum;
    }
}

/// Each item of the first half of `a` and its fellow of the second half, added up.
fn add_halves<R: Ring>(ring: &mut R, a: &[R::Elem], out: &mut [R::Elem])
    requires { length a.now ≡ 2 * length out.old }
    ensures value { (i : ℕ) → i < length out.old → IsSame (get_or (map R.value out.new) i 0)
        (get_or (map R.value a.now) i 0 + get_or (map R.value a.now) (length out.old + i) 0) }
    ensures products { R.products ring.new ≡ R.products ring.old }
{
    let half = out.len();
    for i in 0..half {
        let sum = ring.add(a[i], a[half + i]);
        out[i] = sum;
    }
}

/// Takes the products of the two halves off the product of their sums.
fn take_off<R: Ring>(ring: &mut R, low: &[R::Elem], high: &[R::Elem], middle: &mut [R::Elem])
    requires low { length low.now ≡ length middle.old }
    requires high { length high.now ≡ length middle.old }
    ensures value { (t : ℕ) → t < length middle.old → IsSame
        (get_or (map R.value middle.new) t 0
        + (get_or (map R.value low.now) t 0 + get_or (map R.value high.now) t 0))
        (get_or (map R.value middle.old) t 0) }
    ensures products { R.products ring.new ≡ R.products ring.old }
{
    for t in 0..middle.len() {
        let without_low = ring.sub(middle[t], low[t]);
        let rest = ring.sub(without_low, high[t]);
        middle[t] = rest;
    }
}

/// Adds `middle` to the items of `out` from `half` on.
fn add_middle<R: Ring>(ring: &mut R, middle: &[R::Elem], half: usize, out: &mut [R::Elem])
    requires { half + length middle.now ≤ length out.old }
    ensures value { (t : ℕ) → t < length middle.now
        → IsSame (get_or (map R.value out.new) (half + t) 0)
        (get_or (map R.value out.old) (half + t) 0 + get_or (map R.value middle.now) t 0) }
    ensures first { (s : ℕ) → s < half → get_or (map R.value out.new) s 0
        ≡ get_or (map R.value out.old) s 0 }
    ensures last { (s : ℕ) → half + length middle.now ≤ s
        → get_or (map R.value out.new) s 0 ≡ get_or (map R.value out.old) s 0 }
    ensures products { R.products ring.new ≡ R.products ring.old }
{
    for t in 0..middle.len() {
        let sum = ring.add(out[half + t], middle[t]);
        out[half + t] = sum;
    }
}

/// The product of two lists of `32 * 2^k` items, by halves: the products of the low halves, of the
/// high halves, and of the sums of both (Karatsuba). Item `s` of `out` becomes, modulo `2^128`, the
/// sum of all products of an item of `a` and one of `b` whose places add up to `s`. It makes at
/// most `1024 * 3^k` products and takes no memory; `work` has at least four times the items of `a`.
pub fn halved<R: Ring>(
    ring: &mut R,
    a: &[R::Elem],
    b: &[R::Elem],
    out: &mut [R::Elem],
    work: &mut [R::Elem],
)
    requires halvable { IsHalvable (length a.now) }
    requires paired { length b.now ≡ length a.now }
    requires room { length out.old ≡ 2 * length a.now }
    requires work { 4 * length a.now ≤ length work.old }
    ensures value { (s : ℕ) → s < length out.old
        → get_or (map R.value out.new) s 0 ≡ pair_sum (map R.value a.now)
        (map R.value b.now) s % 2 ^ 128 }
    ensures products { (k : ℕ) → length a.now ≡ 32 * 2 ^ k
        → R.products ring.new ≤ R.products ring.old + 1024 * 3 ^ k }
{
    if a.len() == BLOCK {
        block(ring, a, b, out);
        return;
    }
    let half = a.len() / 2;
    let (low, high) = out.split_at_mut(a.len());
    halved(ring, &a[..half], &b[..half], low, work);
    halved(ring, &a[half..], &b[half..], high, work);
    let (left, after_left) = work.split_at_mut(half);
    let (right, after_right) = after_left.split_at_mut(half);
    let (middle, spare) = after_right.split_at_mut(a.len());
    add_halves(ring, a, left);
    add_halves(ring, b, right);
    halved(ring, left, right, middle, spare);
    take_off(ring, low, high, middle);
    add_middle(ring, middle, half, out);
}
