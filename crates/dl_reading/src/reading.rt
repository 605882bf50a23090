//! A unit of a text in whole buckets, with the first place where it breaks each rule of reading.

ghost use Rattle.std.specs.Prelude.{◌≡◌, ◌≤◌, IfOk};
ghost use Rattle.dl_limits.specs.Limits.{most_amount};
ghost use Rattle.dl_limits.specs.Rules.{AreBounds};
ghost use Rattle.dl_ast.specs.WellFormed.{IsFormedMixture, IsFormedUnit};
ghost use Rattle.dl_plan.specs.Ranges.{IsBucket};
ghost use Rattle.dl_reading.specs.Flaws.{IsRead, earlier_flaws, flaws_else, flaws_within};
ghost use Rattle.dl_reading.specs.Grid.{count_with, grid_clause, grid_mixture, grid_with};
ghost use Rattle.dl_reading.specs.Reading.{flaws_of_clause, flaws_of_count, flaws_of_mixture, flaws_with, is_named};
ghost use Rattle.dl_reading.specs.Values.{if_there};
ghost use Rattle.dl_reading.specs.declared.flaws.Flaws.{Flaws as FlawsOfText};
ghost use Rattle.dl_reading.specs.declared.grid.GridSev.{GridSev as Severity};

use crate::count::{distribution, grid_count};
use crate::flaws::{Flaws, Gridded};
use crate::grid::{GridClause, GridCount, GridFreq, GridLayer, GridSev, GridUnit};
use crate::layers::{unit_clause, unit_layer};
use crate::list_lengths::stopping_flaws;
use crate::losses::{grid_atoms, mixture_weights};
use dl_ast::{MixAst, SevBody, UnitAst};
use dl_frac::Frac;
use dl_limits::Bounds;
use dl_plan::Items;
use std::alloc::{AllocError, Global};

/// The claim count of a unit, the clause of each claim and that of the unit's sum.
type UnitParts = (
    Gridded<GridCount>,
    Gridded<Option<GridClause>>,
    Gridded<Option<GridClause>>,
);

/// A mixture in whole buckets of size `bs`, with the first place where it breaks each rule; an
/// amount passes where it is above `most`, and a list where it passes the bounds.
pub fn grid_mixture(
    alloc: Global,
    mix: &MixAst,
    bs: Frac,
    most: u32,
    bounds: Bounds,
) -> Result<Gridded<GridSev>, AllocError>
    requires bounds { AreBounds bounds }
    requires bucket { IsBucket bs }
    requires most { most ≤ most_amount }
    requires formed { IsFormedMixture mix.now }
    ensures { IfOk result (IsRead (flaws_of_mixture bounds most bs mix.now) (grid_mixture bs mix.now)) }
{
    if let Some(flaws) = stopping_flaws(mix, bounds) {
        return Ok(no_severity(alloc, flaws));
    }
    let atoms = grid_atoms(alloc, mix.atoms.as_slice(), bs, most, bounds)?;
    let weights = mixture_weights(alloc, &mix.weights, bounds)?;
    Ok(Gridded {
        part: GridSev {
            atoms: atoms.part,
            weights: weights.part,
        },
        flaws: atoms.flaws.or(weights.flaws),
    })
}

/// No atoms beside flaws.
fn no_severity(alloc: Global, flaws: Flaws) -> Gridded<GridSev>
    ensures { result.flaws ≡ flaws }
{
    Gridded {
        part: GridSev {
            atoms: Items::from_vec(Vec::new(alloc)),
            weights: None,
        },
        flaws,
    }
}

/// A unit with this severity in whole buckets of size `bs`, with the first place where it breaks
/// each rule; an amount passes where it is above `most`, and a list where it passes the bounds.
pub fn grid_unit(
    alloc: Global,
    unit: &UnitAst,
    sev: Gridded<GridSev>,
    bs: Frac,
    most: u32,
    bounds: Bounds,
) -> Result<Gridded<GridUnit>, AllocError>
    requires bounds { AreBounds bounds }
    requires bucket { IsBucket bs }
    requires most { most ≤ most_amount }
    requires formed { IsFormedUnit unit.now }
    ensures { (flaws : FlawsOfText) (right : Severity) → IsRead flaws right sev
        → IfOk result (IsRead (flaws_with bounds most bs flaws unit.now) (grid_with bs right unit.now)) }
{
    let given = distribution(&unit.count);
    let (freq, zero) = given.part;
    let parts = unit_parts(alloc, unit, freq, bs, most, bounds)?;
    let layer = unit_layer(&unit.layer, bs, most);
    Ok(with_parts(unit, zero, given.flaws, parts, layer, sev))
}

/// The unit with these parts, with the first place where it breaks each rule; `given` are those of
/// its distribution.
fn with_parts(
    unit: &UnitAst,
    zero: Option<Frac>,
    given: Flaws,
    parts: UnitParts,
    layer: Gridded<Option<GridLayer>>,
    sev: Gridded<GridSev>,
) -> Gridded<GridUnit>
    ensures part { result.part ≡ record {
      name = unit.now.name.span;
      count = parts.0.part;
      layer = layer.part;
      sev = sev.part;
      bang = unit.now.sev.bang;
      zero = zero;
      occ = parts.1.part;
      agr = parts.2.part;
    } }
    ensures flaws { result.flaws ≡ flaws_else
        (earlier_flaws (is_named unit.now.sev.body) (flaws_else parts.0.flaws layer.flaws)
        sev.flaws) (flaws_else parts.1.flaws (flaws_else given parts.2.flaws)) }
{
    let (count, occ, agr) = parts;
    let own = count.flaws.or(layer.flaws);
    let front = Flaws::earlier(is_named(&unit.sev.body), own, sev.flaws);
    let terms = occ.flaws.or(given.or(agr.flaws));
    Gridded {
        part: GridUnit {
            name: unit.name.span,
            count: count.part,
            layer: layer.part,
            sev: sev.part,
            bang: unit.sev.bang,
            zero,
            occ: occ.part,
            agr: agr.part,
        },
        flaws: front.or(terms),
    }
}

/// The claim count with this distribution, the clause of each claim and that of the unit's sum.
fn unit_parts(
    alloc: Global,
    unit: &UnitAst,
    freq: GridFreq,
    bs: Frac,
    most: u32,
    bounds: Bounds,
) -> Result<UnitParts, AllocError>
    requires bounds { AreBounds bounds }
    requires bucket { IsBucket bs }
    requires most { most ≤ most_amount }
    requires formed { IsFormedUnit unit.now }
    ensures count { IfOk result (λ parts. IsRead (flaws_of_count bounds unit.now.count)
        (count_with unit.now.count freq) parts.0) }
    ensures occ { IfOk result (λ parts. IsRead (flaws_within (flaws_of_clause most bs) unit.now.occ)
        (if_there (grid_clause bs) unit.now.occ) parts.1) }
    ensures agr { IfOk result (λ parts. IsRead (flaws_within (flaws_of_clause most bs) unit.now.agr)
        (if_there (grid_clause bs) unit.now.agr) parts.2) }
{
    let count = grid_count(alloc, &unit.count, freq, bounds)?;
    let (occ, agr) = unit_clauses(alloc, unit, bs, most)?;
    Ok((count, occ, agr))
}

/// The clause of each claim and that of the unit's sum.
fn unit_clauses(
    alloc: Global,
    unit: &UnitAst,
    bs: Frac,
    most: u32,
) -> Result<(Gridded<Option<GridClause>>, Gridded<Option<GridClause>>), AllocError>
    requires bucket { IsBucket bs }
    requires most { most ≤ most_amount }
    requires formed { IsFormedUnit unit.now }
    ensures occ { IfOk result (λ clauses. IsRead (flaws_within (flaws_of_clause most bs) unit.now.occ)
        (if_there (grid_clause bs) unit.now.occ) clauses.0) }
    ensures agr { IfOk result (λ clauses. IsRead (flaws_within (flaws_of_clause most bs) unit.now.agr)
        (if_there (grid_clause bs) unit.now.agr) clauses.1) }
{
    let occ = unit_clause(alloc, &unit.occ, bs, most)?;
    let agr = unit_clause(alloc, &unit.agr, bs, most)?;
    Ok((occ, agr))
}

/// Whether a severity is the name of one that is written before all units.
fn is_named(body: &SevBody) -> bool
    ensures { result ≡ is_named body.now }
{
    match body {
        SevBody::Mixture(_) => false,
        SevBody::Ref(_) => true,
    }
}
