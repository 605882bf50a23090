//! Steps that are written one after the other.

ghost use Rattle.std.specs.Prelude.{◌≡◌, ℕ, suc, ◌+◌, ◌*◌, ◌^◌, ◌<◌, ◌≤◌, ◌++◌, ◌∷◌, [], length, List, get_or, IfOk, IfSome};
ghost use Rattle.dl_limits.specs.Limits.{most_units, step_bound, steps_bound};
ghost use Rattle.dl_grid.specs.Cells.{IsGrid};
ghost use Rattle.dl_cert.specs.Covered.{IsCertPlan};
ghost use Rattle.dl_cert.specs.Labels.{Label, together};
ghost use Rattle.dl_cert.specs.Steps.{Made};
ghost use Rattle.dl_cert.specs.Targets.{target};
ghost use Rattle.dl_cert.specs.Written.{line_of, often, first_of, IsWritten, IsMade, EndsWith, IsSum, IsBefore};

use crate::printing::push_step;
use crate::starting::start_grid;
use crate::step::Kind;
use crate::units::parts;
use dl_grid::Grid;
use dl_plan::Plan;
use dl_product::{Workspace, product};
use std::alloc::{AllocError, Global};

/// The lines of the steps so far, and how many they are.
#[derive(Drop)]
pub struct Steps {
    /// The lines, each ended by a newline.
    pub text: Vec<u8>,
    /// The number of steps.
    pub count: u32,
}

/// A step as a factor of later ones.
#[derive(Drop)]
pub struct Factor {
    /// Its number, counted from 0.
    pub step: u32,
    /// Its cells.
    pub grid: Grid<56>,
}

/// Writes one more step.
pub(crate) fn add(steps: &mut Steps, kind: Kind, grid: Grid<56>) -> Result<Factor, AllocError>
    requires few { steps.old.count < step_bound }
    ensures step { IfOk result (λ f. f.step ≡ steps.old.count) }
    ensures grid { IfOk result (λ f. f.grid ≡ grid) }
    ensures is_grid { IfOk result (λ f. IsGrid f.grid) }
    ensures count { IfOk result (λ f. steps.new.count ≡ steps.old.count + 1) }
    ensures text { IfOk result (λ f. steps.new.text.items ≡ steps.old.text.items
        ++ (line_of (record { kind = kind; cells = f.grid }) ++ (10 ∷ []))) }
{
    prove!(grid.cells() > 0);
    push_step(&mut steps.text, kind, &grid)?;
    let step = steps.count;
    steps.count += 1;
    Ok(Factor { step, grid })
}

/// The product of two steps, as one more step.
fn times(
    alloc: Global,
    work: &mut Workspace,
    plan: &Plan,
    steps: &mut Steps,
    a: &Factor,
    b: &Factor,
) -> Result<Factor, AllocError>
    requires some { 1 ≤ plan.now.cells }
    requires first { length a.now.grid ≡ plan.now.cells }
    requires second { length b.now.grid ≡ plan.now.cells }
    requires few { steps.old.count < step_bound }
    ensures cells { IfOk result (λ f. length f.grid ≡ plan.now.cells) }
    ensures count { IfOk result (λ f. steps.new.count ≡ steps.old.count + 1) }
    ensures ends { IfOk result (λ f. (made : List Made) (x y : Label)
        → IsWritten plan.now steps.old.text.items steps.old.count made
        → IsMade made a.now.step a.now.grid x → IsMade made b.now.step b.now.grid y
        → ((i : ℕ) → x i + y i ≤ target plan.now i)
        → EndsWith plan.now steps.new.text.items steps.new.count made f.step f.grid
        (together x y)) }
{
    let grid = product(alloc, work, &a.grid, &b.grid, plan.cells)?;
    add(steps, Kind::Times(a.step, b.step), grid)
}

/// The same step again.
fn copy(alloc: Global, factor: &Factor) -> Result<Factor, AllocError>
    ensures step { IfOk result (λ f. f.step ≡ factor.now.step) }
    ensures grid { IfOk result (λ f. f.grid ≡ factor.now.grid) }
{
    let cells = factor.grid.cells();
    let grid = Grid::truncate(alloc, &factor.grid, cells)?;
    Ok(Factor {
        step: factor.step,
        grid,
    })
}

/// The `n`-th power of the last step, by squares and products from the top binary digit of `n` on,
/// at most two for each digit.
fn power(
    alloc: Global,
    work: &mut Workspace,
    plan: &Plan,
    steps: &mut Steps,
    base: &Factor,
    n: u32,
) -> Result<Factor, AllocError>
    requires some { 1 ≤ plan.now.cells }
    requires cells { length base.now.grid ≡ plan.now.cells }
    requires above { 1 ≤ n }
    requires few { (k : ℕ) × (n < 2 ^ k) × (steps.old.count + 2 * k < step_bound) }
    ensures cells { IfOk result (λ f. length f.grid ≡ plan.now.cells) }
    ensures count { IfOk result (λ f. (k : ℕ) → n < 2 ^ k
        → steps.new.count ≤ steps.old.count + 2 * k) }
    ensures ends { IfOk result (λ f. (made : List Made) (u : ℕ)
        → IsWritten plan.now steps.old.text.items steps.old.count made
        → IsMade made base.now.step base.now.grid (often u 1)
        → suc base.now.step ≡ length made → n ≤ target plan.now u
        → EndsWith plan.now steps.new.text.items steps.new.count made f.step f.grid
        (often u n)) }
{
    if n == 1 {
        return copy(alloc, base);
    }
    let half = power(alloc, work, plan, steps, base, n / 2)?;
    let even = times(alloc, work, plan, steps, &half, &half)?;
    drop(half);
    if n % 2 == 0 {
        return Ok(even);
    }
    times(alloc, work, plan, steps, &even, base)
}

/// A unit: its start, and the power of it that makes up the unit.
fn unit_power(
    alloc: Global,
    work: &mut Workspace,
    plan: &Plan,
    steps: &mut Steps,
    unit: u32,
    parts: u32,
) -> Result<Factor, AllocError>
    requires plan { IsCertPlan plan.now }
    requires inside { unit < length plan.now.units }
    requires counted { parts ≡ target plan.now unit }
    requires above { 1 ≤ parts }
    requires few { parts < 2 ^ 17 }
    requires room { steps.old.count < steps_bound }
    ensures cells { IfOk result (λ f. length f.grid ≡ plan.now.cells) }
    ensures count { IfOk result (λ f. steps.new.count ≤ steps.old.count + 35) }
    ensures ends { IfOk result (λ f. (made : List Made)
        → IsWritten plan.now steps.old.text.items steps.old.count made
        → EndsWith plan.now steps.new.text.items steps.new.count made f.step f.grid
        (often unit parts)) }
{
    let units = plan.units.as_slice();
    let grid = start_grid(alloc, &units[unit as usize], plan.cells)?;
    let base = add(steps, Kind::Start(unit), grid)?;
    power(alloc, work, plan, steps, &base, parts)
}

/// The sum of the units before this one and of the power of this one, which is the last step.
fn with_power(
    alloc: Global,
    work: &mut Workspace,
    plan: &Plan,
    steps: &mut Steps,
    sum: Option<Factor>,
    power: Factor,
) -> Result<Factor, AllocError>
    requires some { 1 ≤ plan.now.cells }
    requires first { IfSome sum (λ f. length f.grid ≡ plan.now.cells) }
    requires second { length power.grid ≡ plan.now.cells }
    requires few { steps.old.count < step_bound }
    ensures cells { IfOk result (λ f. length f.grid ≡ plan.now.cells) }
    ensures count { IfOk result (λ f. steps.new.count ≤ steps.old.count + 1) }
    ensures ends { IfOk result (λ f. (made : List Made) (u : ℕ)
        → IsWritten plan.now steps.old.text.items steps.old.count made
        → IsMade made power.step power.grid (often u (target plan.now u))
        → suc power.step ≡ length made → IsBefore plan.now u made sum
        → EndsWith plan.now steps.new.text.items steps.new.count made f.step f.grid
        (first_of plan.now (u + 1))) }
{
    match sum {
        None => Ok(power),
        Some(before) => times(alloc, work, plan, steps, &before, &power),
    }
}

/// The sum of the units up to this one, from that of the units before it.
pub(crate) fn with_unit(
    alloc: Global,
    work: &mut Workspace,
    plan: &Plan,
    steps: &mut Steps,
    sum: Option<Factor>,
    unit: u32,
) -> Result<Option<Factor>, AllocError>
    requires plan { IsCertPlan plan.now }
    requires inside { unit < length plan.now.units }
    requires cells { IfSome sum (λ f. length f.grid ≡ plan.now.cells) }
    requires count { steps.old.count ≤ 36 * unit }
    requires before { IsSum plan.now unit steps.old.text.items steps.old.count sum }
    ensures cells { IfOk result (λ now. IfSome now (λ f. length f.grid ≡ plan.now.cells)) }
    ensures count { IfOk result (λ now. steps.new.count ≤ 36 * (unit + 1)) }
    ensures sum { IfOk result (λ now.
        IsSum plan.now (unit + 1) steps.new.text.items steps.new.count now) }
{
    let units = plan.units.as_slice();
    let parts = parts(&units[unit as usize]);
    if parts == 0 {
        return Ok(sum);
    }
    let power = unit_power(alloc, work, plan, steps, unit, parts)?;
    let sum = with_power(alloc, work, plan, steps, sum, power)?;
    Ok(Some(sum))
}
