//! What the sums of products of two lists of cells come to at most, and how many cells there are.

ghost use Rattle.std.specs.Prelude.{◌≡◌, ℕ, ◌+◌, ◌*◌, ◌^◌, ◌<◌, ◌≤◌};
ghost use Rattle.std.specs.Prelude.{true, length, slice_index, sum_by, All};
ghost use Rattle.dl_transform.specs.Ends.{high_at};
ghost use Rattle.dl_transform.specs.Products.{AreHighSumsBelow, AreNarrow, AreSumsBelow};

use crate::cells::Cells;

/// The number of cells of `levels` levels.
pub(crate) fn cells_of(levels: u32) -> usize
    requires { levels < 40 }
    ensures { result ≡ 2 ^ levels }
{
    1usize << levels
}

/// The least number of levels with room for `cells` cells.
pub(crate) fn levels_for(cells: usize, most: u32) -> u32
    requires room { cells ≤ 2 ^ most }
    requires few { most < 40 }
    ensures room { cells ≤ 2 ^ result }
    ensures within { result ≤ most }
{
    for levels in 0..most {
        if cells <= 1usize << levels {
            return levels;
        }
    }
    most
}

/// The sum of all items.
fn total(xs: &[u128]) -> u128
    requires { All (λ x. x < 2 ^ 64) xs.now }
    ensures sum { result ≡ sum_by (λ x. x) xs.now }
    ensures small { result ≤ length xs.now * 2 ^ 64 }
{
    let mut total = 0;
    for x in xs {
        total += *x;
    }
    total
}

/// The greatest item, 0 of none.
fn most(xs: &[u128]) -> u128
    ensures above { (k : ℕ) → slice_index xs.now k ≤ result }
    ensures least { (m : ℕ) → ((k : ℕ) → slice_index xs.now k ≤ m) → result ≤ m }
{
    let mut most = 0;
    for x in xs {
        if *x > most {
            most = *x;
        }
    }
    most
}

/// The greatest high end, 0 of none.
fn greatest_high(a: Cells<'_>) -> u128
    ensures above { (k : ℕ) → high_at a.entry.lows.now a.entry.widths.now k ≤ result }
    ensures least { (m : ℕ) → ((k : ℕ) → high_at a.entry.lows.now a.entry.widths.now k ≤ m)
        → result ≤ m }
{
    let mut greatest = most(&a.lows[a.widths.len()..]);
    for k in 0..a.widths.len() {
        let high = a.lows[k] + a.widths[k];
        if high > greatest {
            greatest = high;
        }
    }
    greatest
}

/// Whether the sum of the high ends of `a` times the greatest of `b` is below `2^123`.
pub(crate) fn are_sums_small(a: Cells<'_>, b: Cells<'_>) -> bool
    ensures sums { result ≡ true → AreHighSumsBelow (2 ^ 123) a.entry b.entry }
    ensures found { AreSumsBelow (2 ^ 123) a.entry b.entry → result ≡ true }
{
    let sum = total(a.lows) + total(a.widths);
    greatest_high(b).saturating_mul(sum) < 1 << 123
}

/// Whether what the sums of products of high ends are above those of low ends is below `p`: the sum
/// of the low ends of `a` times the greatest width of `b`, and the greatest width of `a` times the
/// sum of the high ends of `b`, together.
pub(crate) fn are_narrow(a: Cells<'_>, b: Cells<'_>, p: u64) -> bool
    ensures { result ≡ true → AreNarrow p a.entry b.entry }
{
    let sum = total(b.lows) + total(b.widths);
    let first = most(b.widths).saturating_mul(total(a.lows));
    let second = most(a.widths).saturating_mul(sum);
    first.saturating_add(second) < p as u128
}
