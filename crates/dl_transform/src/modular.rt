//! Products of polynomials modulo `p`, by their values.

ghost use Rattle.std.specs.Prelude.{◌≡◌, ℕ, ◌+◌, ◌*◌, ◌/◌, ◌^◌, ◌<◌, ◌≤◌, length, slice_index};
ghost use Rattle.dl_transform.specs.Table.{value_at};
ghost use Rattle.dl_transform.specs.Lists.{AreBelow, AreItems, AreOver, AreValues, IsTableFor};
ghost use Rattle.dl_transform.specs.Ends.{low_sum, mixed_sum};
ghost use Rattle.dl_transform.specs.Products.{other};

use crate::cells::Cells;
use crate::passes::{add_ends, load, mix_all, multiply_all, square_all, to_items, to_values};
use crate::tables::Table;

/// The values of the polynomial `a` at all lowest nodes, where the upper half of its items is
/// zeros: then both halves begin alike.
fn padded_values(x: &mut [u64], a: &[u128], table: &Table, levels: u32)
    requires table { IsTableFor table.now levels }
    requires some { 0 < levels }
    requires size { length x.old ≡ 2 ^ levels }
    requires room { length a.now ≤ length x.old / 2 }
    requires items { AreBelow (2 ^ 64) a.now }
    ensures small { AreBelow (4 * table.now.p) x.new }
    ensures values { AreValues table.now levels (λ i. slice_index a.now i) x.new }
{
    let half = x.len() / 2;
    let (low, high) = x.split_at_mut(half);
    load(low, a, table.p);
    to_values(low, 0, table, levels - 1);
    load(high, a, table.p);
    to_values(high, 1, table, levels - 1);
}

/// The values of the polynomial `a` at all lowest nodes.
fn values_of(x: &mut [u64], a: &[u128], table: &Table, levels: u32)
    requires table { IsTableFor table.now levels }
    requires size { length x.old ≡ 2 ^ levels }
    requires room { length a.now ≤ length x.old }
    requires items { AreBelow (2 ^ 64) a.now }
    ensures small { AreBelow (4 * table.now.p) x.new }
    ensures values { AreValues table.now levels (λ i. slice_index a.now i) x.new }
{
    if levels > 0 && a.len() <= x.len() / 2 {
        padded_values(x, a, table, levels);
        return;
    }
    load(x, a, table.p);
    to_values(x, 0, table, levels);
}

/// The polynomial whose values at the lowest nodes are those in `x` times `2^64`, where its scale
/// is still to come.
fn items_of(x: &mut [u64], table: &Table, levels: u32)
    requires table { IsTableFor table.now levels }
    requires size { length x.old ≡ 2 ^ levels }
    requires small { AreBelow (2 * table.now.p) x.old }
    ensures small { AreBelow (2 * table.now.p) x.new }
    ensures items { (f : ℕ → ℕ)
        → AreOver table.now.p (2 ^ levels) (value_at table.now (2 ^ levels) f) x.old
        → AreItems table.now levels f x.new }
{
    to_items(x, 0, table, levels);
}

/// The sums of products of low ends modulo the prime of a table, in `x`, before their scale; `y` is
/// for what is needed on the way. A square needs the values of its cells once.
pub(crate) fn sums_modulo(
    x: &mut [u64],
    y: &mut [u64],
    a: Cells<'_>,
    b: Option<Cells<'_>>,
    table: &Table,
    levels: u32,
)
    requires table { IsTableFor table.now levels }
    requires size { length x.old ≡ 2 ^ levels }
    requires second_size { length y.old ≡ 2 ^ levels }
    requires room { length a.lows.now + length (other a b).lows.now ≤ 2 ^ levels }
    ensures { AreItems table.now levels
        (low_sum a.entry.lows.now (other a.entry b.entry).lows.now) x.new }
{
    values_of(x, a.lows, table, levels);
    let Some(b) = b else {
        square_all(x, table.minus_inverse, table.p);
        items_of(x, table, levels);
        return;
    };
    values_of(y, b.lows, table, levels);
    multiply_all(x, y, table.minus_inverse, table.p);
    items_of(x, table, levels);
}

/// The sums of products of low ends modulo the prime of a table, in `x`, before their scale, and in
/// `u` what the sums of products of high ends have beyond them; `y` and `v` are for
/// what is needed on the way. For a square this is the width times the sum of both ends.
pub(crate) fn ends_modulo(
    x: &mut [u64],
    y: &mut [u64],
    u: &mut [u64],
    v: &mut [u64],
    a: Cells<'_>,
    b: Option<Cells<'_>>,
    table: &Table,
    levels: u32,
)
    requires table { IsTableFor table.now levels }
    requires size { length x.old ≡ 2 ^ levels }
    requires second_size { length y.old ≡ 2 ^ levels }
    requires widths_size { length u.old ≡ 2 ^ levels }
    requires spare_size { length v.old ≡ 2 ^ levels }
    requires room { length a.lows.now + length (other a b).lows.now ≤ 2 ^ levels }
    ensures low { AreItems table.now levels
        (low_sum a.entry.lows.now (other a.entry b.entry).lows.now) x.new }
    ensures mixed { AreItems table.now levels
        (mixed_sum a.entry.lows.now a.entry.widths.now
        (other a.entry b.entry).lows.now (other a.entry b.entry).widths.now) u.new }
{
    values_of(x, a.lows, table, levels);
    values_of(u, a.widths, table, levels);
    let Some(b) = b else {
        add_ends(y, x, u, table.p);
        multiply_all(u, y, table.minus_inverse, table.p);
        square_all(x, table.minus_inverse, table.p);
        items_of(x, table, levels);
        items_of(u, table, levels);
        return;
    };
    values_of(y, b.lows, table, levels);
    values_of(v, b.widths, table, levels);
    mix_all(x, y, u, v, table.minus_inverse, table.p);
    multiply_all(x, y, table.minus_inverse, table.p);
    items_of(x, table, levels);
    items_of(u, table, levels);
}
