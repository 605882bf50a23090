//! Certificates that are written.

ghost use Rattle.std.specs.Prelude.{◌≡◌, ◌+◌, ◌*◌, ◌^◌, ◌<◌, ◌≤◌, [], MatchResult, IfOk, IfSome, length};
ghost use Rattle.dl_limits.specs.Limits.{most_cert_text, standard_units};
ghost use Rattle.dl_cert.specs.Covered.{IsCertPlan, IsCovered};
ghost use Rattle.dl_cert.specs.Targets.{target};
ghost use Rattle.dl_cert.specs.Verified.{IsCertificate, RefusesPlan};
ghost use Rattle.dl_cert.specs.Written.{EndsWith, IsSum};

use crate::covered::not_covered;
use crate::fault::CertFault;
use crate::step::Kind;
use crate::steps::{Factor, Steps, add, with_unit};
use dl_grid::Grid;
use dl_plan::Plan;
use dl_product::Workspace;
use std::alloc::{AllocError, Global};

/// The steps of all units and of their sums.
fn all_units(
    alloc: Global,
    work: &mut Workspace,
    plan: &Plan,
    steps: &mut Steps,
) -> Result<Option<Factor>, AllocError>
    requires plan { IsCertPlan plan.now }
    requires units { length plan.now.units ≤ standard_units }
    requires none { steps.old.count ≡ 0 }
    requires empty { steps.old.text.items ≡ [] }
    ensures count { IfOk result (λ sum. steps.new.count ≤ 576) }
    ensures sum { IfOk result (λ sum. IsSum plan.now (length plan.now.units)
        steps.new.text.items steps.new.count sum) }
{
    let units = plan.units.as_slice().len() as u32;
    let mut sum = None;
    for unit in 0..units {
        sum = with_unit(alloc, work, plan, steps, sum, unit)?;
    }
    Ok(sum)
}

/// The sum of all units as the last step; where no unit counts, the one step of the outcome 0.
fn whole(
    alloc: Global,
    plan: &Plan,
    steps: &mut Steps,
    sum: Option<Factor>,
) -> Result<Factor, AllocError>
    requires plan { IsCertPlan plan.now }
    requires few { steps.old.count ≤ 576 }
    requires sum { IsSum plan.now (length plan.now.units) steps.old.text.items
        steps.old.count sum }
    ensures count { IfOk result (λ f. steps.new.count ≤ 577) }
    ensures ends { IfOk result (λ f. EndsWith plan.now steps.new.text.items steps.new.count []
        f.step f.grid (target plan.now)) }
{
    match sum {
        Some(sum) => Ok(sum),
        None => {
            let grid = Grid::zero(alloc, plan.cells)?;
            add(steps, Kind::One, grid)
        }
    }
}

/// The text of the steps of a plan.
fn written(alloc: Global, plan: &Plan) -> Result<Vec<u8>, AllocError>
    requires plan { IsCertPlan plan.now }
    requires units { length plan.now.units ≤ standard_units }
    ensures certificate { IfOk result (λ text. IsCovered plan.now
        → IsCertificate plan.now text.items) }
    ensures short { IfOk result (λ text. length text.items ≤ most_cert_text) }
{
    let mut work = Workspace::new(alloc);
    let mut steps = Steps {
        text: Vec::new(alloc),
        count: 0,
    };
    let sum = all_units(alloc, &mut work, plan, &mut steps)?;
    let _last = whole(alloc, plan, &mut steps, sum)?;
    Ok(steps.text)
}

/// The text of steps that certify the plan's total, each end the number that it is compared with,
/// in at most 66,000,000 bytes; or the unit that keeps the plan from having a certificate.
pub fn certify(alloc: Global, plan: &Plan) -> Result<Vec<u8>, CertFault>
    requires plan { IsCertPlan plan.now }
    ensures certified { MatchResult result (λ text. IsCertificate plan.now text.items)
        (RefusesPlan plan.now) }
    ensures short { IfOk result (λ text. length text.items ≤ most_cert_text) }
{
    if let Some(unit) = not_covered(plan) {
        return Err(CertFault::NotCovered(unit));
    }
    Ok(written(alloc, plan)?)
}
