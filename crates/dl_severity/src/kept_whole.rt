//! The outcomes of amounts after an occurrence clause, where they are whole numbers.

ghost use Rattle.std.specs.Prelude.{◌≡◌, map, All, IfOk};
ghost use Rattle.dl_plan.specs.Prelude.{IsWhole, pairs_of, HasDistribution, kept, IsClause};
ghost use Rattle.dl_severity.specs.Steps.{ceded_each, with_amount};

use crate::gather::gathered;
use dl_plan::{Cede, Item, Sev};
use std::alloc::{AllocError, Global};

/// The severity of the outcomes after the clause, each a whole number of buckets.
pub fn cede_whole(alloc: Global, sev: &Sev, cede: &Cede) -> Result<Sev, AllocError>
    requires clause { IsClause cede.now }
    requires whole { All (λ item. IsWhole (kept cede.now item.amount)) sev.now.items }
    ensures { IfOk result (λ made. HasDistribution made (ceded_each cede.now (pairs_of sev.now))) }
{
    gathered(alloc, items_whole(alloc, sev.items.as_slice(), cede)?)
}

/// The items with what the clause keeps of their amounts, a whole number.
fn items_whole(alloc: Global, items: &[Item], cede: &Cede) -> Result<Vec<Item>, AllocError>
    requires clause { IsClause cede.now }
    requires whole { All (λ item. IsWhole (kept cede.now item.amount)) items.now }
    ensures { IfOk result (λ made. made.items
        ≡ map (with_amount (λ x. (kept cede.now x).num)) items.now) }
{
    let mut made = Vec::new(alloc);
    'items: for item in items {
        let amount = cede.at(item.amount as u64).unwrap() as u32;
        made.push(Item {
            amount,
            weight: item.weight,
        })?;
    }
    Ok(made)
}
