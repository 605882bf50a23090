//! A program from a number, the same at each run: a portfolio to try things on.

ghost use Rattle.std.specs.Prelude.{◌≡◌, ◌<◌, ◌++◌, IfOk, OnOk};
ghost use Rattle.dl_top.specs.Made.{next_value, drawn_below, frequency, claims_text, unit_text, made_of};

use crate::number::push_number;
use std::alloc::{AllocError, Global};

/// A linear congruential generator of 32 bits.
#[derive(Drop)]
struct Draws {
    value: u32,
}

impl Draws {
    /// The next number, below `limit`.
    fn below(&mut self, limit: u32) -> u32
        requires { 0 < limit }
        ensures next { self.new.value ≡ next_value self.old.value }
        ensures drawn { result ≡ drawn_below limit self.new.value }
        ensures below { result < limit }
    {
        self.value = ((1664525 * self.value as u64 + 1013904223) % 4294967296) as u32;
        self.value / 65536 % limit
    }
}

/// The distribution of the claim count of a unit, the units counted from 1.
#[tactic(auto, unfolding(crate::specs::Made::frequency))]
fn frequency(unit: u32) -> &'static [u8]
    ensures { result.now ≡ frequency unit }
{
    match unit % 4 {
        1 => b"poisson",
        2 => b"mixed gamma 0.5",
        3 => b"binomial 0.5",
        _ => b"fixed",
    }
}

/// Appends the name of a unit and its expected count.
fn push_claims(alloc: Global, text: &mut Vec<u8>, unit: u32, claims: u32) -> Result<(), AllocError>
    ensures { OnOk result (text.new.items ≡ text.old.items ++ claims_text unit claims) }
{
    text.extend_from_slice(b"agg U")?;
    push_number(alloc, text, unit as u128)?;
    text.extend_from_slice(b" ")?;
    push_number(alloc, text, claims as u128)?;
    text.extend_from_slice(b" claims ")
}

/// Appends the line of a unit, with its expected count and its greatest amount.
fn push_unit(
    alloc: Global,
    text: &mut Vec<u8>,
    unit: u32,
    claims: u32,
    greatest: u32,
) -> Result<(), AllocError>
    ensures { OnOk result (text.new.items ≡ text.old.items ++ unit_text unit claims greatest) }
{
    push_claims(alloc, text, unit, claims)?;
    text.extend_from_slice(b"dsev [1:")?;
    push_number(alloc, text, greatest as u128)?;
    text.extend_from_slice(b"] ")?;
    text.extend_from_slice(frequency(unit))?;
    text.extend_from_slice(b"\n")
}

/// The text of a portfolio of eight units, which the number alone decides.
pub fn made(alloc: Global, n: u32) -> Result<Vec<u8>, AllocError>
    ensures { IfOk result (λ text. text.items ≡ made_of n) }
{
    let mut text = b"port Made\n".to_vec(alloc)?;
    let mut draws = Draws { value: n };
    for before in 0..8u32 {
        let claims = 20 + draws.below(21);
        let greatest = 5 + draws.below(6);
        push_unit(alloc, &mut text, before + 1, claims, greatest)?;
    }
    Ok(text)
}
