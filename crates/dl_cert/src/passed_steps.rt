//! The record of the steps that have passed.

ghost use Rattle.std.specs.Prelude.{ℕ, ◌≡◌, ◌+◌, ◌*◌, ◌<◌, ◌≤◌, ◌↔◌, ◌^◌, ◌++◌, ◌∷◌, [], IsTrue, length, get_or, IfOk, MatchOption};
ghost use Rattle.dl_limits.specs.Limits.{most_steps_text, most_units};
ghost use Rattle.dl_cert.specs.PassedSteps.{count_by, IsRow, IsOver};
ghost use Rattle.dl_cert.specs.Steps.{IsThere};

use crate::step::Kind;
use std::alloc::{AllocError, Global};

/// The steps that have passed: the place of each in the text, and its label.
#[derive(Drop)]
pub(crate) struct PassedSteps {
    /// Where each step begins in the text.
    pub offsets: Vec<u32>,
    /// How often each step counts each unit, one step after the other.
    pub labels: Vec<u32>,
}

impl PassedSteps {
    /// One more step, at this place and with this label.
    pub(crate) fn keep(&mut self, offset: u32, label: &[u32]) -> Result<(), AllocError>
        ensures offsets { IfOk result (λ _. self.new.offsets.items
            ≡ self.old.offsets.items ++ offset ∷ []) }
        ensures labels { IfOk result (λ _. self.new.labels.items
            ≡ self.old.labels.items ++ label.now) }
    {
        self.labels.extend_from_slice(label)?;
        self.offsets.push(offset)?;
        Ok(())
    }
}

/// Whether the unit or the steps that a kind names are there.
pub(crate) fn is_there(kind: Kind, units: usize, steps: usize) -> bool
    ensures { IsTrue result ↔ IsThere units steps kind }
{
    match kind {
        Kind::One => true,
        Kind::Start(unit) => (unit as usize) < units,
        Kind::Times(first, second) => (first as usize) < steps && (second as usize) < steps,
    }
}

/// How often a step counts a unit.
fn label_at(labels: &[u32], units: usize, step: u32, unit: usize) -> u64
    requires few { units ≤ most_units }
    requires unit { unit < units }
    requires inside { step * units + units ≤ length labels.now }
    ensures value { result ≡ get_or labels.now (step * units + unit) 0 }
    ensures small { result < 2 ^ 32 }
{
    u64::from(labels[step as usize * units + unit])
}

/// How often a step of this kind counts a unit, from the labels of the steps before it.
fn count_of(labels: &[u32], kind: Kind, steps: usize, units: usize, unit: usize) -> u64
    requires few { units ≤ most_units }
    requires unit { unit < units }
    requires long { length labels.now ≡ steps * units }
    requires there { IsThere units steps kind }
    ensures { result ≡ count_by labels.now units kind unit }
{
    match kind {
        Kind::One => 0,
        Kind::Start(named) => u64::from(named as usize == unit),
        Kind::Times(first, second) => {
            label_at(labels, units, first, unit) + label_at(labels, units, second, unit)
        }
    }
}

/// The label of a step of this kind; `None` where it counts a unit more often than its target.
pub(crate) fn label_of(
    alloc: Global,
    labels: &[u32],
    kind: Kind,
    steps: usize,
    targets: &[u32],
) -> Result<Option<Vec<u32>>, AllocError>
    requires few { length targets.now ≤ most_units }
    requires long { length labels.now ≡ steps * length targets.now }
    requires there { IsThere (length targets.now) steps kind }
    ensures { IfOk result (λ label. MatchOption label
        (IsOver labels.now (length targets.now) kind targets.now)
        (λ row. IsRow labels.now (length targets.now) kind targets.now row.items)) }
{
    let mut row = Vec::with_capacity(alloc, targets.len())?;
    for unit in 0..targets.len() {
        let count = count_of(labels, kind, steps, targets.len(), unit);
        if count > u64::from(targets[unit]) {
            return Ok(None);
        }
        row.push(count as u32)?;
    }
    Ok(Some(row))
}
