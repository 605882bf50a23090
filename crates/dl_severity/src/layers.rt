//! The part of a severity above an attachment, its layer and its occurrence clause.

ghost use Rattle.std.specs.Prelude.{◌≡◌, Option, map, All, IfOk, OnOk, MatchResult};
ghost use Rattle.dl_plan.specs.Prelude.{IsWhole, pairs_of, conditioned, HasDistribution, layer, kept, IsClause};
ghost use Rattle.dl_severity.specs.Steps.{layered, ceded_each, with_amount};
ghost use Rattle.dl_severity.specs.Refusals.{RefusesAbove, RefusesClause};

use crate::fault::{AboveFault, CedeFault};
use crate::gather::gathered;
use crate::list::push_item;
use dl_plan::{Cede, Item, Sev, in_layer};
use std::alloc::{AllocError, Global};

/// The severity conditioned on exceeding `attach` buckets. `NoneAbove` exactly where no amount
/// does.
pub fn above(alloc: Global, sev: &Sev, attach: u32) -> Result<Sev, AboveFault>
    ensures { MatchResult result (λ made. HasDistribution made (conditioned attach (pairs_of sev.now)))
        (RefusesAbove sev.now attach) }
{
    match sev.exceeding(alloc, attach)? {
        Some(made) => Ok(made),
        None => Err(AboveFault::NoneAbove),
    }
}

/// The part of each amount above `attach` and within the limit, if there is one; in buckets.
pub fn cut(alloc: Global, sev: &Sev, limit: Option<u32>, attach: u32) -> Result<Sev, AllocError>
    ensures { IfOk result (λ made. HasDistribution made (layered limit attach (pairs_of sev.now))) }
{
    gathered(
        alloc,
        items_cut(alloc, sev.items.as_slice(), limit, attach)?,
    )
}

/// The items with their amounts cut.
fn items_cut(
    alloc: Global,
    items: &[Item],
    limit: Option<u32>,
    attach: u32,
) -> Result<Vec<Item>, AllocError>
    ensures { IfOk result (λ made. made.items ≡ map (with_amount (layer limit attach)) items.now) }
{
    let mut made = Vec::new(alloc);
    'items: for item in items {
        made.push(Item {
            amount: cut_amount(item.amount, limit, attach),
            weight: item.weight,
        })?;
    }
    Ok(made)
}

/// The part of an amount above the attachment and within the limit, in buckets. Takes no memory.
pub fn cut_amount(amount: u32, limit: Option<u32>, attach: u32) -> u32
    ensures { result ≡ layer limit attach amount }
{
    in_layer(amount as u64, limit, attach) as u32
}

/// The severity of the outcomes after the clause. `OffGrid` exactly where an outcome is no whole
/// number of buckets.
pub fn cede_each(alloc: Global, sev: &Sev, cede: &Cede) -> Result<Sev, CedeFault>
    requires { IsClause cede.now }
    ensures step { MatchResult result (λ made. HasDistribution made (ceded_each cede.now (pairs_of sev.now)))
        (RefusesClause sev.now.items cede.now) }
    ensures whole { OnOk result (All (λ item. IsWhole (kept cede.now item.amount)) sev.now.items) }
{
    let items = items_ceded(alloc, sev.items.as_slice(), cede)?;
    Ok(gathered(alloc, items)?)
}

/// The items with what the clause keeps of their amounts.
fn items_ceded(alloc: Global, items: &[Item], cede: &Cede) -> Result<Vec<Item>, CedeFault>
    requires { IsClause cede.now }
    ensures step { MatchResult result (λ made. made.items
        ≡ map (with_amount (λ x. (kept cede.now x).num)) items.now)
        (RefusesClause items.now cede.now) }
    ensures whole { OnOk result (All (λ item. IsWhole (kept cede.now item.amount)) items.now) }
{
    let mut made = Vec::new(alloc);
    'items: for item in items {
        let Some(amount) = cede.at(item.amount as u64) else {
            return Err(CedeFault::OffGrid);
        };
        let amount = amount as u32;
        push_item(
            &mut made,
            Item {
                amount,
                weight: item.weight,
            },
        )?;
    }
    Ok(made)
}
