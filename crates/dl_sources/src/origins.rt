//! What the joint means of independent units come from.

ghost use Rattle.std.specs.Prelude.{[], ◌≡◌, ◌+◌, ◌<◌, ◌^◌, IfOk, OnOk, IfSome, IsSome, length, get_or};
ghost use Rattle.dl_grid.specs.Cells.{spread};
ghost use Rattle.dl_budget.specs.Once.{IsBudgetOf};
ghost use Rattle.dl_shares.specs.Drawn.{AreOthersOf, IsTotalOf};
ghost use Rattle.dl_sources.specs.Origins.{AreBesideOnly, AreGridsFor, AreOthers, AreSourcesOf, HaveOthers, IsBeside, IsBudgeted, IsFoundOf, StayAmong};

use crate::budgeted::Budgeted;
use crate::extra::{is_from_total, with_extra};
use dl_budget::UnitBudgets;
use dl_grid::Grid;
use dl_product::Workspace;
use dl_shares::Origin;
use dl_totals::Sums;
use std::alloc::AllocError;

/// What the joint means of independent units come from.
#[derive(Drop)]
pub(crate) struct Sources<const B: u32> {
    /// The grid of the total, and behind it those of the total with the extra claims of a gamma
    /// unit.
    pub(crate) grids: Vec<Grid<B>>,
    /// For each unit, in order, what its joint means come from.
    pub(crate) origins: Vec<Origin<B>>,
}

/// What the joint means of unit `i` come from, within their budget; none where they would be wider.
/// A grid of the total with the unit's extra claims is added to `grids`, of which the first is that
/// of the total, whose spread is `apart`.
fn origin_of<const B: u32>(
    of: &Budgeted,
    work: &mut Workspace,
    grids: &mut Vec<Grid<B>>,
    apart: u128,
    others: Option<Grid<B>>,
    i: u32,
    budgets: Option<UnitBudgets>,
) -> Result<Option<Origin<B>>, AllocError>
    requires of { IsBudgeted B of.now }
    requires grids { AreGridsFor of.now.plan.now i grids.old.items }
    requires apart { apart ≡ spread (get_or grids.old.items 0 []) }
    requires others { IfSome others (AreOthersOf of.now.plan.now i) }
    requires unit { i < length of.now.plan.now.units }
    requires budgets { IfSome budgets (IsBudgetOf (2 ^ B) of.now.plan.now i) }
    ensures grids { OnOk result (AreGridsFor of.now.plan.now (i + 1) grids.new.items) }
    ensures stay { OnOk result (StayAmong grids.old.items grids.new.items) }
    ensures origin { IfOk result (λ made.
        IfSome made (IsFoundOf of.now.plan.now budgets grids.new.items i)) }
    ensures beside { IfOk result (λ made.
        IfSome made (λ origin. IsBeside origin → IsSome others.entry)) }
    ensures sure { IfOk result (λ made. (IsSome budgets → IsSome others.entry) → IsSome made) }
{
    let Some(own) = budgets else {
        return Ok(Some(Origin::Nowhere));
    };
    if let Some(others) = others {
        return Ok(Some(Origin::Beside(others)));
    }
    let all = grids.as_slice();
    let total = &all[0];
    if is_from_total(of.plan, total, apart, i, own.joint) {
        return Ok(Some(Origin::Claims(0)));
    }
    let Some(extra) = with_extra(of, work, total, i, own.joint)? else {
        return Ok(None);
    };
    let number = grids.len() as u32;
    grids.push(extra)?;
    Ok(Some(Origin::Claims(number)))
}

/// What the joint means of all units come from, where the grid of the total is there, and for some
/// units that of the sum of all others; none where one of them would be wider than its budget.
pub(crate) fn sources_of<const B: u32>(
    of: &Budgeted,
    work: &mut Workspace,
    sums: Sums<B>,
) -> Result<Option<Sources<B>>, AllocError>
    requires of { IsBudgeted B of.now }
    requires total { IsTotalOf of.now.plan.now sums.total }
    requires others { AreOthers of.now.plan.now sums.others.items }
    ensures sources { IfOk result (λ made. IfSome made (AreSourcesOf of.now)) }
    ensures beside { IfOk result (λ made.
        IfSome made (λ sources. AreBesideOnly sources sums.entry.others.items)) }
    ensures sure { IfOk result (λ made.
        HaveOthers of.now sums.entry.others.items → IsSome made) }
{
    let apart = sums.total.spread();
    let mut others = sums.others;
    let mut grids = Vec::new(of.alloc);
    grids.push(sums.total)?;
    let mut origins = Vec::new(of.alloc);
    for i in 0..of.plan.units.as_slice().len() {
        let beside = others.remove(0);
        let own = of.budgets.at(i);
        let found = origin_of(of, work, &mut grids, apart, beside, i as u32, own)?;
        let Some(origin) = found else {
            return Ok(None);
        };
        origins.push(origin)?;
    }
    Ok(Some(Sources { grids, origins }))
}
