//! Arithmetic modulo `p` with a factor whose quotient is known (Shoup), and Montgomery's.

ghost use Rattle.std.specs.Prelude.{◌≡◌, ℕ, ◌+◌, ◌-◌, ◌*◌, ◌/◌, ◌%◌, ◌^◌, ◌<◌, ◌≤◌};
ghost use Rattle.dl_transform.specs.Residue.{HasInverse, Same, IsFactor, IsModulus};

/// The product of `x` and the factor `w` modulo `p`, below `2 * p`; `q` is the quotient of `w`.
#[tactic(auto, using(crate::proofs::Quotients::quotient_low, crate::proofs::Quotients::quotient_high, crate::proofs::Quotients::left_same))]
pub(crate) fn times(x: u64, w: u64, q: u64, p: u64) -> u64
    requires modulus { IsModulus p }
    requires factor { IsFactor p w q }
    ensures small { result < 2 * p }
    ensures same { Same p result (x * w) }
{
    let k = (x as u128 * q as u128) >> 64;
    (x as u128 * w as u128 - k * p as u128) as u64
}

/// `x` less `most` where it is no less. Where `most` is a multiple of `p` the remainder by `p`
/// stays.
#[tactic(auto, using(crate::proofs::Quotients::less_same))]
pub(crate) fn lowered(x: u64, most: u64) -> u64
    ensures small { x < most + most → result < most }
    ensures within { (b : ℕ) → most ≤ b → x < b + most → result < b }
    ensures least { result ≤ x }
    ensures same { (p k : ℕ) → most ≡ k * p → Same p result x }
{
    if x >= most { x - most } else { x }
}

/// `x` less `most` where it is no less, and then below `most`. The sign of the difference tells,
/// which is quicker than to compare the two.
#[tactic(auto, using(crate::proofs::Quotients::less_same))]
fn lowered_once(x: u64, most: u64) -> u64
    requires few { most ≤ 2 ^ 63 }
    requires within { x < most + most }
    ensures small { result < most }
    ensures same { (p k : ℕ) → most ≡ k * p → Same p result x }
{
    let rest = x.wrapping_sub(most);
    if rest < 9223372036854775808 { rest } else { x }
}

/// One step towards values: `u` with `w * v` added, and `u` with `w * v` taken off.
pub(crate) fn part(u: u64, v: u64, w: u64, q: u64, p: u64) -> (u64, u64)
    requires modulus { IsModulus p }
    requires factor { IsFactor p w q }
    requires small { u < 4 * p }
    ensures first_small { result.0 < 4 * p }
    ensures second_small { result.1 < 4 * p }
    ensures first { Same p result.0 (u + w * v) }
    ensures second { Same p result.1 (u + (p - w) * v) }
{
    let a = lowered_once(u, 2 * p);
    let b = times(v, w, q, p);
    (a + b, a + 2 * p - b)
}

/// One step back towards items: the sum of `u` and `v`, and `w` times the difference of `u` and
/// `v`.
#[tactic(auto, using(crate::proofs::Quotients::joined))]
pub(crate) fn join(u: u64, v: u64, w: u64, q: u64, p: u64) -> (u64, u64)
    requires modulus { IsModulus p }
    requires factor { IsFactor p w q }
    requires first_small { u < 2 * p }
    requires second_small { v < 2 * p }
    ensures first_small { result.0 < 2 * p }
    ensures second_small { result.1 < 2 * p }
    ensures first { Same p result.0 (u + v) }
    ensures second { Same p (result.1 + w * v) (w * u) }
{
    let a = lowered_once(u + v, 2 * p);
    let b = times(u + 2 * p - v, w, q, p);
    (a, b)
}

/// The product of `x` and `y` over `2^64`, modulo `p` (Montgomery); `k` is such that `p * k + 1` is
/// a multiple of `2^64`.
#[tactic(auto, using(crate::proofs::Quotients::filled_same))]
pub(crate) fn reduced(x: u64, y: u64, k: u64, p: u64) -> u64
    requires inverse { HasInverse p k }
    requires first_small { x < 2 * p }
    requires second_small { y < 2 * p }
    ensures small { result < 2 * p }
    ensures same { Same p (result * 2 ^ 64) (x * y) }
{
    let m = x.wrapping_mul(y).wrapping_mul(k);
    ((x as u128 * y as u128 + m as u128 * p as u128) >> 64) as u64
}
