//! Which units can be pooled, how many claims they have, and which part of them each has.

ghost use Rattle.std.specs.Prelude.{ℕ, ◌≡◌, ◌≤◌, map, take, filter, length, All, IsSome, IfOk, IfSome};
ghost use Rattle.dl_exact.specs.Fraction.{whole, ◌<ℚ◌};
ghost use Rattle.dl_plan.specs.Prelude.{IsFineTo40Bits, HasPartsOf48Bits, CanShare, can_share, expected_of, unit_share, expected_count};
ghost use Rattle.dl_pool.specs.Pooled.{lent};

use dl_frac::Frac;
use dl_plan::Unit;
use std::alloc::{AllocError, Global};

/// The units that can be pooled, in their order: those with a Poisson count, without an aggregate
/// clause and without a changed probability of no claim.
pub fn sharing<'a>(alloc: Global, units: &'a [Unit]) -> Result<Vec<&'a Unit>, AllocError>
    ensures units { IfOk result (λ made. lent made.items ≡ filter can_share units.now) }
    ensures can_share { IfOk result (λ made. All CanShare (lent made.items)) }
{
    let mut made = Vec::new(alloc);
    'units: for unit in units {
        if unit.can_share() {
            made.push(unit)?;
        }
    }
    Ok(made)
}

/// The expected number of claims of all units together; none where a part of a running sum passes
/// 62 bits.
#[tactic(auto, using(crate::proofs::Units::each_counts, crate::proofs::Units::each_admitted))]
pub(crate) fn expected(units: &[&Unit]) -> Option<Frac>
    requires poisson { All CanShare (lent units.now) }
    requires each { All (λ u. HasPartsOf48Bits (expected_count u.freq)) (lent units.now) }
    ensures value { IfSome result (λ all. all ≡ expected_of (lent units.now)) }
    ensures there { ((k : ℕ) → 1 ≤ k → k ≤ length units.now
        → HasPartsOf48Bits (expected_of (take k (lent units.now)))) → IsSome result }
{
    let mut sum = Frac::whole(0);
    'units: for unit in units {
        let Ok(more) = sum.add(unit.freq.expected()) else {
            return None;
        };
        sum = more;
    }
    Some(sum)
}

/// Which part of all claims each unit has: its expected number of claims over that of all units;
/// none where a part of one passes 62 bits.
pub(crate) fn shares(
    alloc: Global,
    units: &[&Unit],
    all: Frac,
) -> Result<Option<Vec<Frac>>, AllocError>
    requires poisson { All CanShare (lent units.now) }
    requires each { All (λ u. HasPartsOf48Bits (expected_count u.freq)) (lent units.now) }
    requires all { all ≡ expected_of (lent units.now) }
    requires some { whole 0 <ℚ all }
    ensures value { IfOk result (λ made. IfSome made (λ parts. parts.items
        ≡ map (unit_share all) (lent units.now))) }
    ensures there { IfOk result (λ made.
        IsFineTo40Bits (map (unit_share all) (lent units.now)) → IsSome made) }
{
    let mut made = Vec::new(alloc);
    'units: for unit in units {
        let Ok(share) = unit.freq.expected().div(all) else {
            return Ok(None);
        };
        made.push(share)?;
    }
    Ok(Some(made))
}
