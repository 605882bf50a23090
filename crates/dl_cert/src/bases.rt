//! The starts of a plan's units: what the cells of such a step are compared with.

ghost use Rattle.std.specs.Prelude.{ℕ, ◌≡◌, ◌*◌, ◌/◌, ◌<◌, ◌≤◌, ◌↔◌, ◌⊎◌, IsTrue, List, length, get_or, slice_index_or, All, IfOk, true, false};
ghost use Rattle.std.specs.Int.{div_ceil};
ghost use Rattle.std.specs.List.Sorted.{IsStrictlyIncreasing};
ghost use Rattle.dl_limits.specs.Limits.{admitted_bound, most_shape};
ghost use Rattle.dl_exact.specs.Fraction.{Fraction, whole, ◌over◌, ◌/ℚ◌, ◌≤ℚ◌};
ghost use Rattle.dl_grid.specs.Prelude.{low_at, high_at, IsGridSize};
ghost use Rattle.dl_plan.specs.declared.plan.Freq.TheVariants.{Gamma, Poisson as PoissonCount};
ghost use Rattle.dl_plan.specs.Prelude.{IsProbability, IsValidUnit, amounts_of, weight_at};
ghost use Rattle.dl_cert.specs.Covered.{IsTable};
ghost use Rattle.dl_cert.specs.Steps.{AreStepCells};
ghost use Rattle.dl_cert.specs.Targets.{unit_parts};
ghost use Rattle.dl_cert.specs.Numbers.{one};
ghost use Rattle.dl_cert.specs.Bases.{low_base, high_base, low_share, high_share, trial_parts, IsBaseOf, PassesTo};

use crate::base::{Base, Chance, Share};
use dl_budget::halvings;
use dl_frac::Frac;
use dl_iv::{Iv, units_of_one};
use dl_panjer::{count_at_most, exp_neg, next_cell};
use dl_plan::{Freq, Item, Sev, Unit};
use std::alloc::{AllocError, Global};

/// The weight of an amount.
fn weight_of(items: &[Item], amount: usize) -> u64
    requires rising { IsStrictlyIncreasing (amounts_of items.now) }
    ensures { result ≡ weight_at items.now amount }
{
    let count = count_at_most(items, amount);
    if count == 0 {
        return 0;
    }
    if items[count - 1].amount as usize != amount {
        return 0;
    }
    items[count - 1].weight
}

/// The probability of an amount in one trial, in parts of which the chance's second part times the
/// total of the severity make 1.
fn trial_parts(chance: Chance, sev: &Sev, y: usize) -> u128
    ensures value { result ≡ trial_parts chance.q sev.now y }
    ensures within { result ≤ chance.q.den * sev.now.total }
{
    let q = chance.q;
    let claim = u128::from(q.num()) * u128::from(weight_of(sev.items.as_slice(), y));
    if y > 0 {
        return claim;
    }
    u128::from(q.den() - q.num()) * u128::from(sev.total) + claim
}

/// The number with which a cell of one trial is compared.
fn trial_number(chance: Chance, sev: &Sev, y: usize) -> Iv<56>
    ensures low { result.lo ≡ one * trial_parts chance.q sev.now y / (chance.q.den * sev.now.total) }
    ensures high { result.hi
        ≡ div_ceil (one * trial_parts chance.q sev.now y) (chance.q.den * sev.now.total) }
    ensures small { result.hi ≤ one }
{
    let parts = u128::from(chance.q.den()) * u128::from(sev.total);
    Iv::enclose(trial_parts(chance, sev, y), parts)
}

/// The number with which the cell after `before` of a share is compared.
fn share_number<const BY_AMOUNT: bool>(share: &Share, before: &[Iv<56>]) -> Iv<56>
    requires cells { AreStepCells before.now }
    ensures low { result.lo ≡ low_share BY_AMOUNT share.now (low_at before.now)
        (length before.now) }
    ensures high { result.hi ≡ high_share BY_AMOUNT share.now (high_at before.now)
        (length before.now) }
    ensures small { result.hi ≤ one }
{
    if before.is_empty() {
        return share.first;
    }
    let sev = &share.positive;
    next_cell::<56, BY_AMOUNT>(sev.items.as_slice(), sev.total, share.rate, before)
}

/// The number with which the cell after `before` of a start is compared.
pub(crate) fn number_after(base: &Base, sev: &Sev, before: &[Iv<56>]) -> Iv<56>
    requires cells { AreStepCells before.now }
    ensures low { result.lo ≡ low_base base.now sev.now (low_at before.now) (length before.now) }
    ensures high { result.hi ≡ high_base base.now sev.now (high_at before.now)
        (length before.now) }
    ensures small { result.hi ≤ one }
{
    match base {
        Base::Nothing => Iv::point(0),
        Base::Trial(chance) => trial_number(*chance, sev, before.len()),
        Base::Poisson(share) => share_number::<true>(share, before),
        Base::Geometric(share) => share_number::<false>(share, before),
    }
}

/// The number with which a cell of a start is compared.
fn number_at(base: &Base, sev: &Sev, cells: &[Iv<56>], y: usize) -> Iv<56>
    requires cells { AreStepCells cells.now }
    requires inside { y < length cells.now }
    ensures low { result.lo ≡ low_base base.now sev.now (low_at cells.now) y }
    ensures high { result.hi ≡ high_base base.now sev.now (high_at cells.now) y }
{
    number_after(base, sev, &cells[..y])
}

/// Whether no low end is above its number, and no high end is below its own but where it is 1.
pub(crate) fn is_outside(cell: Iv<56>, number: Iv<56>) -> bool
    ensures { IsTrue result ↔ (cell.lo ≤ number.lo)
        × ((number.hi ≤ cell.hi) ⊎ (one ≤ cell.hi)) }
{
    cell.lo <= number.lo && (number.hi <= cell.hi || units_of_one(56) <= cell.hi)
}

/// Whether the cells of a start pass.
pub(crate) fn is_start(base: &Base, sev: &Sev, cells: &[Iv<56>]) -> bool
    requires cells { AreStepCells cells.now }
    ensures { IsTrue result ↔ PassesTo (length cells.now) cells.now
        (low_base base.now sev.now (low_at cells.now))
        (high_base base.now sev.now (high_at cells.now)) }
{
    for y in 0..cells.len() {
        let number = number_at(base, sev, cells, y);
        if !is_outside(cells[y], number) {
            return false;
        }
    }
    true
}
