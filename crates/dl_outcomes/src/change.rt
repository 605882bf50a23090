//! The change of one cell of a grid.

ghost use Rattle.std.specs.Prelude.{◌≡◌, ◌+◌, ◌-◌, ◌*◌, ◌/◌, ◌^◌, ◌<◌, ◌≤◌, min};
ghost use Rattle.std.specs.Int.{div_ceil};
ghost use Rattle.dl_limits.specs.Limits.{zero_bound};
ghost use Rattle.dl_exact.specs.Fraction.{whole, ◌<ℚ◌};
ghost use Rattle.dl_grid.specs.Cells.{all_at_zero};

use crate::factor::Factor;
use dl_frac::Frac;
use dl_iv::{Iv, units_of_one};

/// What is taken off, multiplied by and added where the probability `p` of no claim stands in place
/// of `none`. It is the same for each cell.
#[derive(Clone, Copy)]
pub(crate) struct Change<const B: u32> {
    /// The probability of no claim before, at most 17 / 18.
    none: Iv<B>,
    /// 1 over the high end of the probability of a claim before: it multiplies low ends.
    low: Factor,
    /// 1 over the low end of the probability of a claim before: it multiplies high ends.
    high: Factor,
    /// `1 - p`.
    claims: Factor,
    /// `p`.
    at_0: Iv<B>,
    ghost some_claim: { 18 * none.hi ≤ 17 * 2 ^ B },
    ghost low_units: { low.times ≡ 2 ^ B },
    ghost low_claim: { low.by ≡ 2 ^ B - none.lo },
    ghost high_units: { high.times ≡ 2 ^ B },
    ghost high_claim: { high.by ≡ 2 ^ B - none.hi },
    ghost part: { claims.times ≤ claims.by },
    ghost at_0_small: { at_0.hi ≤ 2 ^ B },
}

/// `value` at the outcome 0, and 0 at every other.
#[tactic(auto, using(crate::proofs::Rounded::nothing_past, crate::proofs::Rounded::all_at))]
fn only_at_0<const B: u32>(value: Iv<B>, y: u32) -> Iv<B>
    ensures low { result.lo ≡ all_at_zero value.entry.lo y }
    ensures high { result.hi ≡ all_at_zero value.entry.hi y }
{
    if y == 0 { value } else { Iv { lo: 0, hi: 0 } }
}

impl<const B: u32> Change<B> {
    /// The change from `none`, at most 17 / 18, to `p`, below 1.
    pub(crate) fn new(none: Iv<B>, p: Frac) -> Self
        requires below_one { p <ℚ whole 1 }
        requires parts { p.den < zero_bound }
        requires some_claim { 18 * none.hi ≤ 17 * 2 ^ B }
        ensures none { result.none ≡ none.entry }
        ensures claims_times { result.claims.times ≡ p.den - p.num }
        ensures claims_by { result.claims.by ≡ p.den }
        ensures at_0_low { result.at_0.lo ≡ 2 ^ B * p.num / p.den }
        ensures at_0_high { result.at_0.hi ≡ div_ceil (2 ^ B * p.num) p.den }
    {
        let one = units_of_one(B) as u64;
        Change {
            none,
            low: Factor::new(one, one - none.lo as u64),
            high: Factor::new(one, one - none.hi as u64),
            claims: Factor::new(p.den() - p.num(), p.den()),
            at_0: Iv::enclose(u128::from(p.num()), u128::from(p.den())),
        }
    }

    /// The outcome `y` after the change, from the probability `cell` of it before. What is left of
    /// it after `none` is taken off at `y = 0` is divided by the probability of a claim first and
    /// multiplied by `1 - p` after: in the other order each rounding would be multiplied by 18.
    pub(crate) fn cell(self, cell: Iv<B>, y: u32) -> Iv<B>
        requires small { cell.hi ≤ 2 ^ B }
        ensures low { result.lo ≡ min ((cell.entry.lo - all_at_zero self.entry.none.hi y) * 2 ^ B
            / (2 ^ B - self.entry.none.lo) * self.entry.claims.times / self.entry.claims.by
            + all_at_zero self.entry.at_0.lo y) (2 ^ B) }
        ensures high { result.hi ≡ min (div_ceil (div_ceil ((cell.entry.hi
            - all_at_zero self.entry.none.lo y) * 2 ^ B) (2 ^ B - self.entry.none.hi)
            * self.entry.claims.times) self.entry.claims.by
            + all_at_zero self.entry.at_0.hi y) (2 ^ B) }
    {
        let left = cell.sub_floor0(only_at_0(self.none, y));
        let lo = self.claims.floor(self.low.floor(left.lo as u64));
        let hi = self.claims.ceil(self.high.ceil(left.hi as u64));
        let part = Iv {
            lo: u128::from(lo),
            hi: u128::from(hi),
        };
        part.add(only_at_0(self.at_0, y)).clamp_to(units_of_one(B))
    }
}
