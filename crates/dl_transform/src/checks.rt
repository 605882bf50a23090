//! Checks of the constants of a transform.

ghost use Rattle.std.specs.Prelude.{◌≡◌, ℕ, ◌+◌, ◌-◌, ◌*◌, ◌/◌, ◌%◌, ◌^◌, ◌<◌, ◌≤◌};
ghost use Rattle.std.specs.Prelude.{true, length, slice_index};
ghost use Rattle.dl_transform.specs.Residue.{Same, IsFactor, IsModulus, IsPair};
ghost use Rattle.dl_transform.specs.Table.{point, IsTable, IsRoot, IsScale};
ghost use Rattle.dl_transform.specs.Lists.{IsTableFor};
ghost use Rattle.dl_transform.specs.Transforms.{AreTransforms};

use crate::factors::{lowered, times};
use crate::tables::Table;

/// Whether `q` is `w * 2^64 / p`, rounded down, and `w` is below `p`.
pub(crate) fn is_factor(p: u64, w: u64, q: u64) -> bool
    ensures { result ≡ true → IsFactor p w q }
{
    let whole = (w as u128) << 64;
    let part = q as u128 * p as u128;
    w < p && part <= whole && whole < part + p as u128
}

/// Whether the square of `w` is `wanted`, and `v` its inverse, and `q` and `r` are their quotients.
fn is_pair(p: u64, w: u64, q: u64, v: u64, r: u64, wanted: u64) -> bool
    requires modulus { IsModulus p }
    ensures { result ≡ true → IsPair p w q v r wanted }
{
    if !is_factor(p, w, q) || !is_factor(p, v, r) {
        return false;
    }
    if lowered(times(w, v, r, p), p) != 1 {
        return false;
    }
    lowered(times(w, w, q, p), p) == wanted
}

/// The number at a node.
#[tactic(auto, using(std::proofs::lemmas::Grind::get_or_default_zero), unfolding(crate::specs::Table::point))]
fn node_number(t: &Table, k: usize) -> u64
    requires inside { k / 2 < length t.now.roots.items }
    ensures { result ≡ point t.now.p t.now.roots.items k }
{
    let half = t.roots[k / 2];
    if k % 2 == 0 {
        half
    } else {
        t.p.saturating_sub(half)
    }
}

/// Whether the constants at one node are right.
fn is_root(t: &Table, k: usize) -> bool
    requires modulus { IsModulus t.now.p }
    requires inside { k < length t.now.roots.items }
    requires in_quotients { k < length t.now.quotients.items }
    requires in_inverses { k < length t.now.inverses.items }
    requires in_inverse_quotients { k < length t.now.inverse_quotients.items }
    ensures { result ≡ true → IsRoot t.now k }
{
    is_pair(
        t.p,
        t.roots[k],
        t.quotients[k],
        t.inverses[k],
        t.inverse_quotients[k],
        node_number(t, k),
    )
}

/// Whether `w` undoes `l` levels and the unit, and `q` is its quotient.
fn is_undoing(p: u64, unit: u64, l: u32, w: u64, q: u64) -> bool
    requires modulus { IsModulus p }
    requires few { l < 40 }
    ensures factor { result ≡ true → IsFactor p w q }
    ensures same { result ≡ true → Same p (unit * 2 ^ l * w) 1 }
{
    if !is_factor(p, w, q) {
        return false;
    }
    let lifted = unit as u128 * (1u128 << l) % p as u128;
    lifted * (w as u128) % p as u128 == 1
}

/// Whether the scale of `l` levels is right.
fn is_scale(t: &Table, l: usize) -> bool
    requires modulus { IsModulus t.now.p }
    requires few { l < 40 }
    requires inside { l < length t.now.scales.items }
    requires in_quotients { l < length t.now.scale_quotients.items }
    ensures { result ≡ true → IsScale t.now l }
{
    is_undoing(t.p, t.unit, l as u32, t.scales[l], t.scale_quotients[l])
}

/// Whether a test holds at each number below `n`.
fn holds_below<F: Fn(usize) -> bool>(n: usize, test: F) -> bool
    requires { (k : ℕ) → k < n → F.pre test k }
    ensures { result ≡ true → (k : ℕ) → k < n → F.post test k true }
{
    for k in 0..n {
        if !test(k) {
            return false;
        }
    }
    true
}

/// Whether the constants at all nodes are right.
fn are_roots(t: &Table) -> bool
    requires modulus { IsModulus t.now.p }
    requires quotients { length t.now.quotients.items ≡ length t.now.roots.items }
    requires inverses { length t.now.inverses.items ≡ length t.now.roots.items }
    requires inverse_quotients { length t.now.inverse_quotients.items ≡ length t.now.roots.items }
    ensures { result ≡ true → (k : ℕ) → k < length t.now.roots.items → IsRoot t.now k }
{
    holds_below(t.roots.len(), |k| is_root(t, k))
}

/// Whether the numbers that undo levels are all right.
fn are_scales(t: &Table) -> bool
    requires modulus { IsModulus t.now.p }
    requires few { length t.now.scales.items ≤ 40 }
    requires quotients { length t.now.scale_quotients.items ≡ length t.now.scales.items }
    ensures { result ≡ true → (l : ℕ) → l < length t.now.scales.items → IsScale t.now l }
{
    holds_below(t.scales.len(), |l| is_scale(t, l))
}

/// Whether all constants are right.
fn is_table(t: &Table) -> bool
    ensures { result ≡ true → IsTable t.now }
{
    let p = t.p;
    if p < 3458764513820540928 || p >= 4611686018427387904 {
        return false;
    }
    let n = t.roots.len();
    let levels = t.scales.len();
    if n > 1099511627776 || levels > 40 {
        return false;
    }
    if t.quotients.len() != n || t.inverses.len() != n || t.inverse_quotients.len() != n {
        return false;
    }
    if t.scale_quotients.len() != levels {
        return false;
    }
    if p.wrapping_mul(t.minus_inverse).wrapping_add(1) != 0 {
        return false;
    }
    if ((t.unit as u128) << 64) % p as u128 != 1 {
        return false;
    }
    are_roots(t) && are_scales(t)
}

/// Whether all constants are right, those of `levels` levels among them.
fn is_table_for(t: &Table, levels: u32) -> bool
    requires few { levels < 40 }
    ensures { result ≡ true → IsTableFor t.now levels }
{
    is_table(t)
        && (levels as usize) < t.scales.len()
        && (1u128 << levels) <= 2 * (t.roots.len() as u128)
}

/// Whether both transforms and what joins them are right.
pub(crate) fn are_transforms(
    first: &Table,
    second: &Table,
    inverse: u64,
    quotient: u64,
    levels: u32,
) -> bool
    ensures { result ≡ true → AreTransforms first.now second.now inverse quotient levels }
{
    if levels >= 40 || !is_table_for(first, levels) || !is_table_for(second, levels) {
        return false;
    }
    if first.p > second.p || !is_factor(second.p, inverse, quotient) {
        return false;
    }
    if first.p as u128 * inverse as u128 % second.p as u128 != 1 {
        return false;
    }
    true
}
