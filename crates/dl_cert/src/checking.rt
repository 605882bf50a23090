//! Steps that are checked.

ghost use Rattle.std.specs.Prelude.{ℕ, ◌≡◌, ◌∷◌, ◌<◌, ◌≤◌, ◌↔◌, IsTrue, List, length, get_or, drop, All, map, ◌*◌, ◌+◌, IfOk, MatchOption, MatchResult, if◌then◌else◌};
ghost use Rattle.dl_limits.specs.Limits.{most_steps_text, most_units, most_cell_end};
ghost use Rattle.dl_model.specs.Prelude.{GridEncloses, total, aggregates_of};
ghost use Rattle.dl_cert.specs.Bases.{AreStarts};
ghost use Rattle.dl_cert.specs.Covered.{IsCertPlan, IsCovered};
ghost use Rattle.dl_cert.specs.PassedSteps.{HavePassed, IsRow, label_at, HasPassedTo};
ghost use Rattle.dl_cert.specs.Lines.{lines_of};
ghost use Rattle.dl_cert.specs.Passes.{Passes};
ghost use Rattle.dl_cert.specs.Reading.{line_from};
ghost use Rattle.dl_cert.specs.Steps.{Made};
ghost use Rattle.dl_cert.specs.Targets.{unit_parts};
ghost use Rattle.dl_cert.specs.Verified.{IsVerified, RefusesSteps, IsBadStep};

use crate::base::Base;
use crate::covered::not_covered;
use crate::fault::VerifyFault;
use crate::lines::{ReadStep, line_from, next_line, read_step};
use crate::passed_steps::{PassedSteps, is_there, label_of};
use crate::test::{cells_at, is_passing, mass_of};
use crate::units::{bases_of, targets_of};
use dl_grid::{Grid, units_of_one};
use dl_plan::Plan;
use dl_product::Workspace;
use std::alloc::{AllocError, Global};

/// What a step is checked against: a plan, the starts and the parts of its units, and the text of
/// all steps.
#[derive(Clone, Copy)]
struct Checked<'a> {
    plan: &'a Plan,
    bases: &'a [Base],
    targets: &'a [u32],
    text: &'a [u8],
    ghost starts: { AreStarts plan.now bases.now targets.now },
    ghost short: { length text.now ≤ most_steps_text },
}

/// The label of a step that passes; `None` where it does not pass.
fn tested(
    alloc: Global,
    work: &mut Workspace,
    of: &Checked,
    so_far: &PassedSteps,
    step: &ReadStep,
) -> Result<Option<Vec<u32>>, AllocError>
    requires plan { IsCertPlan of.now.plan.now }
    requires cells { length step.now.cells.items ≡ of.now.plan.now.cells }
    requires small { All (λ cell. cell.hi ≤ most_cell_end) step.now.cells.items }
    requires so_far { (before : List Made)
        × HavePassed of.now.plan.now of.now.text.now so_far.now.offsets.items
        so_far.now.labels.items before }
    ensures { IfOk result (λ label. (before : List Made)
        → HavePassed of.now.plan.now of.now.text.now so_far.now.offsets.items
        so_far.now.labels.items before
        → MatchOption label
        (¬ Passes of.now.plan.now before
        (record { kind = step.now.kind; cells = step.now.cells.items }))
        (λ row. Passes of.now.plan.now before
        (record { kind = step.now.kind; cells = step.now.cells.items })
        × IsRow so_far.now.labels.items (length of.now.plan.now.units) step.now.kind
        of.now.targets.now row.items)) }
{
    let count = so_far.offsets.len();
    if !is_there(step.kind, of.targets.len(), count) {
        return Ok(None);
    }
    if mass_of(&step.cells) > units_of_one(56) {
        return Ok(None);
    }
    let Some(label) = label_of(alloc, &so_far.labels, step.kind, count, of.targets)? else {
        return Ok(None);
    };
    let before = &so_far.offsets;
    if !is_passing(alloc, work, of.plan, of.bases, of.text, before, step)? {
        return Ok(None);
    }
    Ok(Some(label))
}

/// Takes in the step whose line begins at a place, where it passes; whether it does.
fn take_step(
    alloc: Global,
    work: &mut Workspace,
    of: &Checked,
    offset: usize,
    so_far: &mut PassedSteps,
) -> Result<bool, AllocError>
    requires plan { IsCertPlan of.now.plan.now }
    requires inside { offset < length of.now.text.now }
    requires so_far { HasPassedTo of.now.plan.now of.now.text.now offset
        so_far.old.offsets.items so_far.old.labels.items }
    ensures passes { IfOk result (λ ok. IsTrue ok → (next : ℕ)
        → lines_of (drop offset of.now.text.now)
        ≡ line_from of.now.text.now offset ∷ lines_of (drop next of.now.text.now)
        → HasPassedTo of.now.plan.now of.now.text.now next so_far.new.offsets.items
        so_far.new.labels.items) }
    ensures bad { IfOk result (λ ok. ¬ IsTrue ok
        → IsBadStep of.now.plan.now of.now.text.now (length so_far.old.offsets.items)) }
{
    let line = line_from(of.text, offset);
    let Some(step) = read_step(alloc, line, of.plan.cells)? else {
        return Ok(false);
    };
    let Some(label) = tested(alloc, work, of, so_far, &step)? else {
        return Ok(false);
    };
    so_far.keep(offset as u32, &label)?;
    Ok(true)
}

/// Reads the steps of a text in order and keeps each that passes, or gives `BadStep` with the number
/// of the first that does not.
fn take_steps(
    alloc: Global,
    work: &mut Workspace,
    of: &Checked,
    so_far: &mut PassedSteps,
) -> Result<(), VerifyFault>
    requires plan { IsCertPlan of.now.plan.now }
    requires covered { IsCovered of.now.plan.now }
    requires none { HasPassedTo of.now.plan.now of.now.text.now 0 so_far.old.offsets.items
        so_far.old.labels.items }
    ensures { MatchResult result
        (λ _. HasPassedTo of.now.plan.now of.now.text.now (length of.now.text.now)
        so_far.new.offsets.items so_far.new.labels.items)
        (RefusesSteps of.now.plan.now of.now.text.now) }
{
    let mut offset = 0;
    'lines: while offset < of.text.len() {
        let number = so_far.offsets.len() as u32;
        if !take_step(alloc, work, of, offset, so_far)? {
            return Err(VerifyFault::BadStep(number));
        }
        offset = next_line(of.text, offset);
    }
    Ok(())
}

/// The steps of a text, where all pass; else the first bad one.
fn read_steps(
    alloc: Global,
    plan: &Plan,
    bases: &[Base],
    targets: &[u32],
    text: &[u8],
) -> Result<PassedSteps, VerifyFault>
    requires plan { IsCertPlan plan.now }
    requires covered { IsCovered plan.now }
    requires short { length text.now ≤ most_steps_text }
    requires starts { AreStarts plan.now bases.now targets.now }
    ensures { MatchResult result
        (λ so_far. HasPassedTo plan.now text.now (length text.now) so_far.offsets.items
        so_far.labels.items)
        (RefusesSteps plan.now text.now) }
{
    let of = Checked {
        plan,
        bases,
        targets,
        text,
    };
    let mut work = Workspace::new(alloc);
    let mut so_far = PassedSteps {
        offsets: Vec::new(alloc),
        labels: Vec::new(alloc),
    };
    take_steps(alloc, &mut work, &of, &mut so_far)?;
    Ok(so_far)
}

/// Whether a step counts each unit as often as its target.
fn is_target(labels: &[u32], targets: &[u32], step: usize) -> bool
    requires few { length targets.now ≤ most_units }
    requires inside { step * length targets.now + length targets.now ≤ length labels.now }
    ensures { IsTrue result ↔ ((i : ℕ) → i < length targets.now
        → label_at labels.now (length targets.now) step i ≡ get_or targets.now i 0) }
{
    let start = step * targets.len();
    for unit in 0..targets.len() {
        if labels[start + unit] != targets[unit] {
            return false;
        }
    }
    true
}

/// The grid of the last step, where it has the label of the target.
fn last_grid(
    alloc: Global,
    plan: &Plan,
    targets: &[u32],
    text: &[u8],
    so_far: &PassedSteps,
) -> Result<Grid<56>, VerifyFault>
    requires plan { IsCertPlan plan.now }
    requires covered { IsCovered plan.now }
    requires short { length text.now ≤ most_steps_text }
    requires targets { targets.now ≡ map unit_parts plan.now.units }
    requires so_far { HasPassedTo plan.now text.now (length text.now) so_far.now.offsets.items
        so_far.now.labels.items }
    ensures { MatchResult result (IsVerified plan.now text.now) (RefusesSteps plan.now text.now) }
{
    let count = so_far.offsets.len();
    if count == 0 {
        return Err(VerifyFault::BadStep(0));
    }
    if !is_target(&so_far.labels, targets, count - 1) {
        return Err(VerifyFault::BadStep(count as u32));
    }
    let grid = cells_at(alloc, plan, text, &so_far.offsets, count as u32 - 1)?;
    Ok(grid)
}

/// The grid of the last of these steps, in units of 1 / 2^56, where each step passes and the last
/// one counts each unit as often as the plan's total does: it encloses that total. Else the unit
/// that keeps the plan from having a certificate, or the number of the first bad step.
pub fn verify(alloc: Global, plan: &Plan, steps: &[u8]) -> Result<Grid<56>, VerifyFault>
    requires plan { IsCertPlan plan.now }
    requires short { length steps.now ≤ most_steps_text }
    ensures verified { MatchResult result (IsVerified plan.now steps.now)
        (RefusesSteps plan.now steps.now) }
    ensures encloses { IfOk result (λ grid. GridEncloses grid (total (aggregates_of plan.now))) }
{
    if let Some(unit) = not_covered(plan) {
        return Err(VerifyFault::NotCovered(unit));
    }
    let units = plan.units.as_slice();
    let bases = bases_of(alloc, units)?;
    let targets = targets_of(alloc, units)?;
    let so_far = read_steps(alloc, plan, &bases, &targets, steps)?;
    last_grid(alloc, plan, &targets, steps, &so_far)
}
