//! The rules on the severity, the layer and the clauses of a unit.

ghost use Rattle.std.specs.Prelude.{◌≡◌, ◌<◌, None, IfOk, OnOk};
ghost use Rattle.dl_rules.specs.Faults.{breaks, first_broken, clause_rules};
ghost use Rattle.dl_rules.specs.Answer.{HasFault};
ghost use Rattle.dl_rules.specs.declared.rule.Rule.TheVariants.{OffGridCession};
ghost use Rattle.dl_reading.specs.Prelude.{off_grid_cession, severity_in_layer, support, IsLayered, AreClausesOf, IsGridUnit};

use crate::broken::{broken, unless_broken};
use crate::fault::CheckFault;
use crate::rule::Rule;
use dl_reading::{
    Clauses, GridUnit, make_clauses, none_above, off_grid_cession, overlap, positive_amounts,
    share_above_one, support_in_layer, weights_differ,
};
use std::alloc::Global;

/// The amounts and the clauses of a unit that keeps the rules on these.
#[derive(Drop)]
pub(crate) struct LayeredUnit {
    /// The amounts of positive probability of the severity in the layer.
    pub(crate) amounts: Vec<u32>,
    /// The clauses.
    pub(crate) clauses: Clauses,
}

/// The rules on its severity, its layer and its clauses.
#[tactic(auto, unfolding(dl_reading::specs::First::first_in))]
pub(crate) fn check_clauses(
    alloc: Global,
    number: u32,
    unit: &GridUnit,
) -> Result<LayeredUnit, CheckFault>
    requires grid { IsGridUnit unit.now }
    ensures fault { HasFault (first_broken number (clause_rules unit.now)) result }
    ensures layered { OnOk result (IsLayered unit.now) }
    ensures ceded { OnOk result (off_grid_cession unit.now ≡ None) }
    ensures amounts { IfOk result (λ layered_unit. layered_unit.amounts.items
        ≡ support (severity_in_layer unit.now)) }
    ensures clauses { IfOk result (λ layered_unit. AreClausesOf unit.now layered_unit.clauses) }
{
    broken(number, Rule::WeightsDiffer, weights_differ(unit))?;
    let mixed = positive_amounts(alloc, unit)?;
    broken(number, Rule::NoneAbove, none_above(unit, &mixed))?;
    broken(number, Rule::Overlap, overlap(unit))?;
    broken(number, Rule::ShareAboveOne, share_above_one(unit))?;
    let amounts = support_in_layer(alloc, unit, mixed)?;
    check_clause_amounts(alloc, number, unit, amounts)
}

/// The rule on what its clauses make of these amounts.
fn check_clause_amounts(
    alloc: Global,
    number: u32,
    unit: &GridUnit,
    amounts: Vec<u32>,
) -> Result<LayeredUnit, CheckFault>
    requires layered { IsLayered unit.now }
    requires amounts { amounts.items ≡ support (severity_in_layer unit.now) }
    ensures fault { HasFault (breaks number OffGridCession
        (off_grid_cession unit.now)) result }
    ensures amounts { IfOk result (λ layered_unit. layered_unit.amounts ≡ amounts) }
    ensures clauses { IfOk result (λ layered_unit. AreClausesOf unit.now layered_unit.clauses) }
{
    let clauses = make_clauses(alloc, unit)?;
    let span = off_grid_cession(alloc, &clauses, &amounts)?;
    let layered_unit = LayeredUnit { amounts, clauses };
    unless_broken(layered_unit, broken(number, Rule::OffGridCession, span))
}
