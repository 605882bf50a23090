//! The passes of a transform, from items to values and back.

ghost use Rattle.std.specs.Prelude.{◌≡◌, ℕ, ◌+◌, ◌-◌, ◌*◌, ◌/◌, ◌^◌, ◌<◌, ◌≤◌};
ghost use Rattle.std.specs.Prelude.{length, slice_index};
ghost use Rattle.dl_transform.specs.Residue.{HasInverse, Same, IsFactor, IsModulus};
ghost use Rattle.dl_transform.specs.Lists.{product_at, mixed_at, AreBelow, AreHalves, AreItemsBelow};
ghost use Rattle.dl_transform.specs.Lists.{AreOver, AreValuesBelow, IsListOf, IsPart};

use crate::factors::{join, lowered, part, reduced};
use crate::tables::Table;

/// Each pair of cells `u` and `v` at one place becomes `u + w * v` and `u - w * v`.
fn part_all(low: &mut [u64], high: &mut [u64], w: u64, q: u64, p: u64)
    requires modulus { IsModulus p }
    requires factor { IsFactor p w q }
    requires halves { AreHalves (4 * p) low.old high.old }
    ensures low { (i : ℕ) → i < length low.old
        → Same p (slice_index low.new i) (slice_index low.old i + w * slice_index high.old i) }
    ensures low_small { AreBelow (4 * p) low.new }
    ensures high { (i : ℕ) → i < length low.old
        → Same p (slice_index high.new i)
        (slice_index low.old i + (p - w) * slice_index high.old i) }
    ensures high_small { AreBelow (4 * p) high.new }
{
    for i in 0..low.len() {
        let (a, b) = part(low[i], high[i], w, q, p);
        low[i] = a;
        high[i] = b;
    }
}

/// Each pair of cells `u` and `v` at one place becomes `u + v` and `(u - v) * w`.
fn join_all(low: &mut [u64], high: &mut [u64], w: u64, q: u64, p: u64)
    requires modulus { IsModulus p }
    requires factor { IsFactor p w q }
    requires halves { AreHalves (2 * p) low.old high.old }
    ensures low { (i : ℕ) → i < length low.old
        → Same p (slice_index low.new i) (slice_index low.old i + slice_index high.old i) }
    ensures low_small { AreBelow (2 * p) low.new }
    ensures high { (i : ℕ) → i < length low.old
        → Same p (slice_index high.new i + w * slice_index high.old i) (w * slice_index low.old i) }
    ensures high_small { AreBelow (2 * p) high.new }
{
    for i in 0..low.len() {
        let (a, b) = join(low[i], high[i], w, q, p);
        low[i] = a;
        high[i] = b;
    }
}

/// The values of 2 items at the lowest nodes below a node.
#[inline(always)]
fn to_values_2(x: &mut [u64], node: usize, table: &Table)
    requires { IsPart table.now 2 node (4 * table.now.p) x.old }
    ensures small { AreBelow (4 * table.now.p) x.new }
    ensures values { AreValuesBelow table.now 2 node (λ i. slice_index x.old i) x.new }
{
    let (w, q) = table.root(node);
    let (a, b) = part(x[0], x[1], w, q, table.p);
    x[0] = a;
    x[1] = b;
}

/// The values of 4 items at the lowest nodes below a node.
#[inline(always)]
fn to_values_4(x: &mut [u64], node: usize, table: &Table)
    requires { IsPart table.now 4 node (4 * table.now.p) x.old }
    ensures small { AreBelow (4 * table.now.p) x.new }
    ensures values { AreValuesBelow table.now 4 node (λ i. slice_index x.old i) x.new }
{
    let (w, q) = table.root(node);
    let (low, high) = x.split_at_mut(2);
    part_all(low, high, w, q, table.p);
    let child = 2 * node;
    to_values_2(low, child, table);
    to_values_2(high, child + 1, table);
}

/// The values of 8 items at the lowest nodes below a node.
#[inline(always)]
fn to_values_8(x: &mut [u64], node: usize, table: &Table)
    requires { IsPart table.now 8 node (4 * table.now.p) x.old }
    ensures small { AreBelow (4 * table.now.p) x.new }
    ensures values { AreValuesBelow table.now 8 node (λ i. slice_index x.old i) x.new }
{
    let (w, q) = table.root(node);
    let (low, high) = x.split_at_mut(4);
    part_all(low, high, w, q, table.p);
    let child = 2 * node;
    to_values_4(low, child, table);
    to_values_4(high, child + 1, table);
}

/// The values of the polynomial `x` at the lowest nodes below `node`, `levels` levels down.
pub(crate) fn to_values(x: &mut [u64], node: usize, table: &Table, levels: u32)
    requires { IsPart table.now (2 ^ levels) node (4 * table.now.p) x.old }
    ensures small { AreBelow (4 * table.now.p) x.new }
    ensures values { AreValuesBelow table.now (2 ^ levels) node (λ i. slice_index x.old i) x.new }
{
    if levels == 3 {
        to_values_8(x, node, table);
        return;
    }
    if levels == 0 {
        return;
    }
    let (w, q) = table.root(node);
    let half = x.len() / 2;
    let (low, high) = x.split_at_mut(half);
    part_all(low, high, w, q, table.p);
    let child = 2 * node;
    to_values(low, child, table, levels - 1);
    to_values(high, child + 1, table, levels - 1);
}

/// The 2 items with these values at the lowest nodes below a node, times 2.
#[inline(always)]
fn to_items_2(x: &mut [u64], node: usize, table: &Table)
    requires { IsPart table.now 2 node (2 * table.now.p) x.old }
    ensures small { AreBelow (2 * table.now.p) x.new }
    ensures items { AreItemsBelow table.now 2 node x.old x.new }
{
    let (w, q) = table.inverse(node);
    let (a, b) = join(x[0], x[1], w, q, table.p);
    x[0] = a;
    x[1] = b;
}

/// The 4 items with these values at the lowest nodes below a node, times 4.
#[inline(always)]
fn to_items_4(x: &mut [u64], node: usize, table: &Table)
    requires { IsPart table.now 4 node (2 * table.now.p) x.old }
    ensures small { AreBelow (2 * table.now.p) x.new }
    ensures items { AreItemsBelow table.now 4 node x.old x.new }
{
    let (low, high) = x.split_at_mut(2);
    let child = 2 * node;
    to_items_2(low, child, table);
    to_items_2(high, child + 1, table);
    let (w, q) = table.inverse(node);
    join_all(low, high, w, q, table.p);
}

/// The 8 items with these values at the lowest nodes below a node, times 8.
#[inline(always)]
fn to_items_8(x: &mut [u64], node: usize, table: &Table)
    requires { IsPart table.now 8 node (2 * table.now.p) x.old }
    ensures small { AreBelow (2 * table.now.p) x.new }
    ensures items { AreItemsBelow table.now 8 node x.old x.new }
{
    let (low, high) = x.split_at_mut(4);
    let child = 2 * node;
    to_items_4(low, child, table);
    to_items_4(high, child + 1, table);
    let (w, q) = table.inverse(node);
    join_all(low, high, w, q, table.p);
}

/// The polynomial with these values at the lowest nodes below a node, `2^levels` times.
pub(crate) fn to_items(x: &mut [u64], node: usize, table: &Table, levels: u32)
    requires { IsPart table.now (2 ^ levels) node (2 * table.now.p) x.old }
    ensures small { AreBelow (2 * table.now.p) x.new }
    ensures items { AreItemsBelow table.now (2 ^ levels) node x.old x.new }
{
    if levels == 3 {
        to_items_8(x, node, table);
        return;
    }
    if levels == 0 {
        return;
    }
    let half = x.len() / 2;
    let (low, high) = x.split_at_mut(half);
    let child = 2 * node;
    to_items(low, child, table, levels - 1);
    to_items(high, child + 1, table, levels - 1);
    let (w, q) = table.inverse(node);
    join_all(low, high, w, q, table.p);
}

/// The numbers `a` at the first places.
fn load_front(x: &mut [u64], a: &[u128], p: u64)
    requires modulus { IsModulus p }
    requires room { length a.now ≤ length x.old }
    requires items { (i : ℕ) → slice_index a.now i < 2 ^ 64 }
    ensures alike { length x.new ≡ length x.old }
    ensures small { (i : ℕ) → i < length a.now → slice_index x.new i < 4 * p }
    ensures same { (i : ℕ) → i < length a.now → Same p (slice_index x.new i) (slice_index a.now i) }
{
    for i in 0..a.len() {
        x[i] = lowered(a[i] as u64, 2 * p);
    }
}

/// Zeros from a place on.
fn clear(x: &mut [u64], from: usize)
    ensures alike { length x.new ≡ length x.old }
    ensures before { (i : ℕ) → i < from → slice_index x.new i ≡ slice_index x.old i }
    ensures zero { (i : ℕ) → from ≤ i → slice_index x.new i ≡ 0 }
{
    for i in from..x.len() {
        x[i] = 0;
    }
}

/// The numbers `a` and then zeros, each below `4 * p`.
pub(crate) fn load(x: &mut [u64], a: &[u128], p: u64)
    requires modulus { IsModulus p }
    requires room { length a.now ≤ length x.old }
    requires items { (i : ℕ) → slice_index a.now i < 2 ^ 64 }
    ensures small { (i : ℕ) → slice_index x.new i < 4 * p }
    ensures same { (i : ℕ) → Same p (slice_index x.new i) (slice_index a.now i) }
{
    load_front(x, a, p);
    clear(x, a.len());
}

/// Each product `x * y` over `2^64` modulo `p`, in the place of `x`; `p * k + 1` is a multiple of
/// `2^64`.
pub(crate) fn multiply_all(x: &mut [u64], y: &[u64], k: u64, p: u64)
    requires inverse { HasInverse p k }
    requires first { AreBelow (4 * p) x.old }
    requires second { IsListOf (length x.old) (4 * p) y.now }
    ensures small { AreBelow (2 * p) x.new }
    ensures same { AreOver p (length x.old) (product_at x.old y.now) x.new }
{
    for i in 0..x.len() {
        x[i] = reduced(lowered(x[i], 2 * p), lowered(y[i], 2 * p), k, p);
    }
}

/// Each square over `2^64` modulo `p`; `p * k + 1` is a multiple of `2^64`.
pub(crate) fn square_all(x: &mut [u64], k: u64, p: u64)
    requires inverse { HasInverse p k }
    requires small { AreBelow (4 * p) x.old }
    ensures small { AreBelow (2 * p) x.new }
    ensures same { AreOver p (length x.old) (product_at x.old x.old) x.new }
{
    for i in 0..x.len() {
        let y = lowered(x[i], 2 * p);
        x[i] = reduced(y, y, k, p);
    }
}

/// Each sum `2 * x + u` modulo `p`: a low end and the high end above it by the width `u`.
pub(crate) fn add_ends(sums: &mut [u64], x: &[u64], u: &[u64], p: u64)
    requires modulus { IsModulus p }
    requires lows { IsListOf (length sums.old) (4 * p) x.now }
    requires widths { IsListOf (length sums.old) (4 * p) u.now }
    ensures small { AreBelow (4 * p) sums.new }
    ensures same { (i : ℕ) → i < length sums.old
        → Same p (slice_index sums.new i) (2 * slice_index x.now i + slice_index u.now i) }
{
    for i in 0..sums.len() {
        let low = lowered(x[i], 2 * p);
        sums[i] = lowered(2 * low, 2 * p) + lowered(u[i], 2 * p);
    }
}

/// The sum of two products, `x * v` and `u * (y + v)`, over `2^64` modulo `p`; `p * k + 1` is a
/// multiple of `2^64`.
fn mixed(x: u64, y: u64, u: u64, v: u64, k: u64, p: u64) -> u64
    requires inverse { HasInverse p k }
    requires first_low { x < 4 * p }
    requires second_low { y < 4 * p }
    requires first_width { u < 4 * p }
    requires second_width { v < 4 * p }
    ensures small { result < 2 * p }
    ensures same { Same p (result * 2 ^ 64) (x * v + u * (y + v)) }
{
    let width = lowered(v, 2 * p);
    let high = lowered(lowered(y, 2 * p) + width, 2 * p);
    let a = reduced(lowered(x, 2 * p), width, k, p);
    let b = reduced(lowered(u, 2 * p), high, k, p);
    lowered(a + b, 2 * p)
}

/// Each sum of two products, `x * v` and `u * (y + v)`, over `2^64` modulo `p`, in the place of
/// `u`; `p * k + 1` is a multiple of `2^64`.
pub(crate) fn mix_all(x: &[u64], y: &[u64], u: &mut [u64], v: &[u64], k: u64, p: u64)
    requires inverse { HasInverse p k }
    requires first_lows { IsListOf (length u.old) (4 * p) x.now }
    requires second_lows { IsListOf (length u.old) (4 * p) y.now }
    requires first_widths { AreBelow (4 * p) u.old }
    requires second_widths { IsListOf (length u.old) (4 * p) v.now }
    ensures small { AreBelow (2 * p) u.new }
    ensures same { AreOver p (length u.old) (mixed_at x.now y.now u.old v.now) u.new }
{
    for i in 0..u.len() {
        u[i] = mixed(x[i], y[i], u[i], v[i], k, p);
    }
}
