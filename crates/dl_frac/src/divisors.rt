//! Greatest common divisors and least common multiples.

ghost use Rattle.std.specs.Prelude.{◌≡◌, ◌<◌, ◌≤◌};
ghost use Prim.Native.Nat.{◌∣◌};
ghost use Rattle.std.specs.Option.{SomeIff};
ghost use Rattle.dl_exact.specs.Prelude.{gcd, lcm};
ghost use Rattle.dl_frac.specs.Cuts.{IsCut};

/// The greatest common divisor.
pub fn divisor(a: u64, b: u64) -> u64
    ensures value { result ≡ gcd a b }
    ensures positive { 0 < b → 0 < result }
{
    let mut x = a;
    let mut y = b;
    'steps: while y != 0 {
        let rest = x % y;
        x = y;
        y = rest;
    }
    x
}

/// The greatest common divisor of numbers below 2^32.
pub fn small_divisor(a: u32, b: u32) -> u32
    ensures { result ≡ gcd a b }
{
    divisor(a as u64, b as u64) as u32
}

/// The greatest common divisor of wide numbers: wide steps only until the second fits 64 bits.
pub(crate) fn wide_divisor(a: u128, b: u128) -> u128
    ensures value { result ≡ gcd a b }
    ensures positive { 0 < b → 0 < result }
{
    let mut x = a;
    let mut y = b;
    'steps: while y > u64::MAX as u128 {
        let rest = x % y;
        x = y;
        y = rest;
    }
    if y == 0 {
        return x;
    }
    divisor(y as u64, (x % y) as u64) as u128
}

/// Two numbers, the second above 0, divided by `P`, which is above 1, as often as it divides both.
pub(crate) fn without<const P: u64>(num: u64, den: u64) -> (u64, u64)
    requires factor { 1 < P }
    requires positive { 0 < den }
    ensures cut { IsCut num den result.0 result.1 }
    ensures apart { P ∣ result.0 → ¬ (P ∣ result.1) }
{
    let mut left = num;
    let mut right = den;
    'cuts: while right % P == 0 && left % P == 0 {
        left /= P;
        right /= P;
    }
    (left, right)
}

/// The least common multiple of two numbers above 0; `None` exactly where it passes `limit`.
#[tactic(auto, unfolding(dl_exact::specs::Multiples::lcm))]
pub fn lcm_to(a: u64, b: u64, limit: u64) -> Option<u64>
    requires first { 0 < a }
    requires second { 0 < b }
    ensures { SomeIff result (lcm a b ≤ limit) (lcm a b) }
{
    let multiple = (a / divisor(a, b)) as u128 * b as u128;
    if multiple <= limit as u128 {
        Some(multiple as u64)
    } else {
        None
    }
}
