//! Sums from their remainders: by both primes (the Chinese remainder theorem), or by one.

ghost use Rattle.std.specs.Prelude.{◌≡◌, ℕ, ◌+◌, ◌*◌, ◌^◌, ◌<◌, ◌≤◌, length, slice_index};
ghost use Rattle.dl_transform.specs.Residue.{Same, IsFactor, IsModulus};
ghost use Rattle.dl_transform.specs.Lists.{IsTableFor};

use crate::factors::{lowered, times};
use crate::setup::Setup;
use crate::tables::Table;

/// The number below `p1 * p2` with these remainders (Garner); `w` is the inverse of `p1` by `p2`,
/// with its quotient `q`.
fn combined(r1: u64, r2: u64, p1: u64, p2: u64, w: u64, q: u64) -> u128
    requires modulus { IsModulus p2 }
    requires factor { IsFactor p2 w q }
    requires inverse { Same p2 (p1 * w) 1 }
    requires order { p1 ≤ p2 }
    requires first_small { r1 < p1 }
    requires second_small { r2 < p2 }
    ensures small { result < 2 ^ 124 }
    ensures is { (n : ℕ) → n < p1 * p2 → Same p1 r1 n → Same p2 r2 n → result ≡ n }
{
    let v = lowered(times(r2 + p2 - r1, w, q, p2), p2);
    r1 as u128 + p1 as u128 * v as u128
}

/// The product of `x` and the factor `w` modulo `p`.
fn scaled(x: u64, w: u64, q: u64, p: u64) -> u64
    requires modulus { IsModulus p }
    requires factor { IsFactor p w q }
    ensures small { result < p }
    ensures same { Same p result (x * w) }
{
    lowered(times(x, w, q, p), p)
}

/// The numbers below `2^123` with these remainders, each times its scale, as many as `out` has room
/// for.
pub(crate) fn combine_all(x: &[u64], y: &[u64], setup: &Setup, levels: u32, out: &mut [u128])
    requires in_first { length out.old ≤ length x.now }
    requires in_second { length out.old ≤ length y.now }
    requires levels { levels ≤ setup.now.levels }
    ensures small { (s : ℕ) → s < length out.old → slice_index out.new s < 2 ^ 124 }
    ensures is { (s : ℕ) → s < length out.old → (n : ℕ) → n < 2 ^ 123
        → Same setup.now.first.p
        (slice_index x.now s * slice_index setup.now.first.scales.items levels) n
        → Same setup.now.second.p
        (slice_index y.now s * slice_index setup.now.second.scales.items levels) n
        → slice_index out.new s ≡ n }
{
    let p1 = setup.first.p;
    let p2 = setup.second.p;
    let (w1, q1) = setup.first.scale(levels);
    let (w2, q2) = setup.second.scale(levels);
    for s in 0..out.len() {
        let r1 = scaled(x[s], w1, q1, p1);
        let r2 = scaled(y[s], w2, q2, p2);
        out[s] = combined(r1, r2, p1, p2, setup.inverse, setup.inverse_quotient);
    }
}

/// The numbers below the prime with these remainders, each times its scale, added to `lows`.
pub(crate) fn add_mixed(
    mixed: &[u64],
    lows: &[u128],
    table: &Table,
    levels: u32,
    highs: &mut [u128],
)
    requires table { IsTableFor table.now levels }
    requires in_mixed { length highs.old ≤ length mixed.now }
    requires in_lows { length highs.old ≤ length lows.now }
    requires small { (s : ℕ) → s < length highs.old → slice_index lows.now s < 2 ^ 124 }
    ensures { (s : ℕ) → s < length highs.old → (n : ℕ) → n < table.now.p
        → Same table.now.p (slice_index mixed.now s * slice_index table.now.scales.items levels) n
        → slice_index highs.new s ≡ slice_index lows.now s + n }
{
    let (w, q) = table.scale(levels);
    for s in 0..highs.len() {
        highs[s] = lows[s] + scaled(mixed[s], w, q, table.p) as u128;
    }
}

/// Each low end added to what a high end is above it.
pub(crate) fn add_lows(lows: &[u128], highs: &mut [u128])
    requires alike { length highs.old ≤ length lows.now }
    requires low { (s : ℕ) → s < length highs.old → slice_index lows.now s < 2 ^ 124 }
    requires mixed { (s : ℕ) → s < length highs.old → slice_index highs.old s < 2 ^ 124 }
    ensures { (s : ℕ) → s < length highs.old
        → slice_index highs.new s ≡ slice_index highs.old s + slice_index lows.now s }
{
    for s in 0..highs.len() {
        highs[s] += lows[s];
    }
}
