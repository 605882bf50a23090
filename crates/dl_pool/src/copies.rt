//! Copies of severities.

ghost use Rattle.std.specs.Prelude.{◌≡◌, map, IfOk};
ghost use Rattle.dl_plan.specs.Severity.{pairs_of};
ghost use Rattle.dl_pool.specs.Pooled.{lent};

use dl_plan::{Sev, Unit};
use dl_severity::copied;
use std::alloc::{AllocError, Global};

/// The severities of the units, in their order.
pub(crate) fn severities(alloc: Global, units: &[&Unit]) -> Result<Vec<Sev>, AllocError>
    ensures { IfOk result (λ made. map pairs_of made.items
        ≡ map (λ u. pairs_of u.sev) (lent units.now)) }
{
    let mut made = Vec::new(alloc);
    'units: for unit in units {
        made.push(copied(alloc, &unit.sev)?)?;
    }
    Ok(made)
}
