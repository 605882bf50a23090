//! The constants of the two transforms.

ghost use Rattle.std.specs.Prelude.{◌≡◌, ◌<◌, IfOk, IfSome};
ghost use Rattle.dl_transform.specs.Residue.{IsModulus};

use crate::checks::{are_transforms, is_factor};
use crate::factors::{lowered, times};
use crate::setup::Setup;
use crate::tables::Table;
use std::alloc::{AllocError, Global};

/// The primes, each 1 more than a multiple of `2^19`, so that there are roots for up to 18 levels.
const FIRST: u64 = 4611686018422669313;

const SECOND: u64 = 4611686018425815041;

/// A number that is no square modulo either prime.
const NO_SQUARE: u64 = 3;

/// A factor and its quotient.
#[derive(Clone, Copy)]
struct Factor {
    value: u64,
    quotient: u64,
}

/// The item at `i`, or 0 past the end.
fn read(xs: &[u64], i: usize) -> u64 {
    if i < xs.len() { xs[i] } else { 0 }
}

/// The product modulo `p`.
fn multiplied(x: u64, y: u64, p: u64) -> u64
    requires { 0 < p }
{
    (x as u128 * y as u128 % p as u128) as u64
}

/// The power modulo `p`.
fn power(x: u64, e: u64, p: u64) -> u64
    requires { 0 < p }
{
    let mut result = 1;
    let mut square = x;
    for k in 0..64u32 {
        if (e >> k) % 2 == 1 {
            result = multiplied(result, square, p);
        }
        square = multiplied(square, square, p);
    }
    result
}

/// The inverse of an odd `p` modulo `2^64`: each step of Newton's method doubles the number of
/// right bits.
fn inverse_by_words(p: u64) -> u64 {
    let mut inverse: u64 = 1;
    for _ in 0..6u32 {
        let left = 2u64.wrapping_sub(p.wrapping_mul(inverse));
        inverse = inverse.wrapping_mul(left);
    }
    inverse
}

/// `2^126 / p` less `2^64`, rounded down, for the quotients.
fn excess(p: u64) -> u64
    requires { 0 < p }
{
    ((1u128 << 126) / p as u128 % 18446744073709551616) as u64
}

/// The quotient that a product by `w` modulo `p` needs, without a division.
fn quotient(w: u64, excess: u64, p: u64) -> u64 {
    let whole = (w as u128) << 64;
    let near = (whole.wrapping_add(w as u128 * excess as u128) >> 62) % 18446744073709551616;
    let left = whole.wrapping_sub(near * (p as u128));
    let k = near as u64;
    if left >= p as u128 {
        k.wrapping_add(1)
    } else {
        k
    }
}

/// The quotients of these factors.
fn quotients(alloc: Global, p: u64, factors: &[u64]) -> Result<Vec<u64>, AllocError>
    requires modulus { IsModulus p }
{
    let more = excess(p);
    let mut all = Vec::with_capacity(alloc, factors.len())?;
    for w in factors {
        all.push(quotient(*w, more, p))?;
    }
    Ok(all)
}

/// A number and its repeated squares, `count` in all.
fn squares(alloc: Global, p: u64, first: u64, count: u32) -> Result<Vec<Factor>, AllocError>
    requires modulus { IsModulus p }
{
    let more = excess(p);
    let mut value = first;
    let mut all = Vec::with_capacity(alloc, count as usize)?;
    for _ in 0..count {
        all.push(Factor {
            value,
            quotient: quotient(value, more, p),
        })?;
        value = multiplied(value, value, p);
    }
    Ok(all)
}

/// Appends to these numbers each of them times a step modulo `p`, in the same order; nothing where
/// the quotient of the step is not right.
fn append_times(all: &mut Vec<u64>, step: Factor, p: u64) -> Result<(), AllocError>
    requires modulus { IsModulus p }
{
    if !is_factor(p, step.value, step.quotient) {
        return Ok(());
    }
    for k in 0..all.len() {
        let x = read(all.as_slice(), k);
        all.push(lowered(times(x, step.value, step.quotient, p), p))?;
    }
    Ok(())
}

/// The root at each node for up to `levels` levels: a step goes with each bit of the number of the
/// node. That of the lowest bit is a square root of -1, and each is the square of the next.
fn roots(alloc: Global, p: u64, levels: u32) -> Result<Vec<u64>, AllocError>
    requires modulus { IsModulus p }
    requires few { levels < 40 }
{
    let last = power(NO_SQUARE, (p - 1) >> levels, p);
    let steps = squares(alloc, p, last, levels.saturating_sub(1))?;
    let mut all = Vec::with_capacity(alloc, (1usize << levels) / 2)?;
    all.push(1)?;
    for k in 1..=steps.len() {
        append_times(&mut all, steps[steps.len() - k], p)?;
    }
    Ok(all)
}

/// The inverses of the roots, and their quotients. The inverse of a root after the first is `p`
/// less the root at the node whose number has the same highest bit and each lower bit the other
/// way, and its quotient is `2^64 - 1` less the quotient of that root.
fn inverses(
    alloc: Global,
    p: u64,
    roots: &[u64],
    quotients: &[u64],
) -> Result<(Vec<u64>, Vec<u64>), AllocError> {
    let mut all = Vec::with_capacity(alloc, roots.len())?;
    let mut all_quotients = Vec::with_capacity(alloc, roots.len())?;
    all.push(1)?;
    all_quotients.push(read(quotients, 0))?;
    for k in 1..roots.len() {
        let node = k ^ ((1 << k.ilog2()) - 1);
        all.push(p.saturating_sub(read(roots, node)))?;
        all_quotients.push(u64::MAX - read(quotients, node))?;
    }
    Ok((all, all_quotients))
}

/// For each number of levels, the inverse of the product of `2^levels` and the unit: the first is
/// `lift`, and each is half of the one before; and their quotients.
fn scales(alloc: Global, p: u64, lift: u64, levels: u32) -> Result<(Vec<u64>, Vec<u64>), AllocError>
    requires modulus { IsModulus p }
{
    let mut scale = lift;
    let mut all = Vec::with_capacity(alloc, 40)?;
    for _ in 0..levels {
        all.push(scale)?;
        scale = multiplied(scale, p / 2 + 1, p);
    }
    all.push(scale)?;
    let quotients = quotients(alloc, p, all.as_slice())?;
    Ok((all, quotients))
}

/// The constants for up to `levels` levels, which `are_transforms` checks.
fn table(alloc: Global, p: u64, levels: u32) -> Result<Table, AllocError>
    requires modulus { IsModulus p }
    requires few { levels < 40 }
{
    let roots = roots(alloc, p, levels)?;
    let quotients = quotients(alloc, p, roots.as_slice())?;
    let (inverses, inverse_quotients) = inverses(alloc, p, roots.as_slice(), quotients.as_slice())?;
    let lift = multiplied(4294967296, 4294967296, p);
    let (scales, scale_quotients) = scales(alloc, p, lift, levels)?;
    Ok(Table {
        p,
        roots,
        quotients,
        inverses,
        inverse_quotients,
        minus_inverse: 0u64.wrapping_sub(inverse_by_words(p)),
        unit: power(lift, p.saturating_sub(2), p),
        scales,
        scale_quotients,
    })
}

/// The setup for products of up to `2^levels` cells, each of whose constants has been checked. Or
/// None, where one of them turned out wrong: no clause excludes it, so a caller has to have another
/// way to multiply, and None costs it time alone.
pub fn set_up(alloc: Global, levels: u32) -> Result<Option<Setup>, AllocError>
    requires few { levels < 40 }
    ensures levels { IfOk result (λ o. IfSome o (λ s. s.levels ≡ levels)) }
{
    let first = table(alloc, FIRST, levels)?;
    let second = table(alloc, SECOND, levels)?;
    let inverse = power(FIRST, SECOND - 2, SECOND);
    let inverse_quotient = quotient(inverse, excess(SECOND), SECOND);
    if !are_transforms(&first, &second, inverse, inverse_quotient, levels) {
        return Ok(None);
    }
    Ok(Some(Setup {
        first,
        second,
        inverse,
        inverse_quotient,
        levels,
    }))
}
