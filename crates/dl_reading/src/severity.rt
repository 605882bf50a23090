//! The severity of a unit.

ghost use Rattle.std.specs.Prelude.{◌≡◌, None, true, false, map, IfOk, MatchOption};
ghost use Rattle.std.specs.List.{AllZip};
ghost use Rattle.dl_limits.specs.Rules.{AreBounds};
ghost use Rattle.dl_reading.specs.Lists.{are_fine, is_fine};
ghost use Rattle.dl_plan.specs.Severity.{pairs_of, HasDistribution};
ghost use Rattle.dl_reading.specs.Severity.{atom_probs, atom_pairs, mixed_pairs, severity_in_layer, made_pairs, KeepsWhole};
ghost use Rattle.dl_reading.specs.Parts.{IsSevWeighted};
ghost use Rattle.dl_reading.specs.CheckedUnit.{IsWeighted, IsFineSev};
ghost use Rattle.dl_reading.specs.Clauses.{clause_of, shares_of};
ghost use Rattle.dl_reading.specs.CheckedClauses.{IsClauseLayered};
ghost use Rattle.dl_reading.specs.CheckedGrid.{IsGridAtom, IsGridSev, IsSevWithin};
ghost use Rattle.dl_reading.specs.FineParts.{has_atoms, has_severity, IsWeighed, HasPairsWhere};
ghost use Rattle.dl_reading.specs.Rules.{none_above};

use crate::grid::{GridAtom, GridSev, GridUnit};
use crate::made::MadeClause;
use crate::shares::weights_among;
use crate::support::is_conditioned;
use dl_limits::Bounds;
use dl_plan::Sev;
use dl_severity::{MixFault, cede_whole, cut, merge, mix};
use std::alloc::{AllocError, Global};

/// The severity in the layer; `None` exactly where the probabilities of an atom, the weights or the
/// mixture are not fine.
pub fn weighed_severity(
    alloc: Global,
    unit: &GridUnit,
    bounds: Bounds,
) -> Result<Option<Sev>, AllocError>
    requires bounds { AreBounds bounds }
    requires weighted { IsWeighted unit.now }
    requires reached { none_above unit.now ≡ None }
    ensures { IfOk result (IsWeighed bounds unit.now) }
{
    let Some(mixed) = mixture(alloc, &unit.sev, bounds)? else {
        return Ok(None);
    };
    Ok(Some(severity_in_layer(alloc, unit, mixed)?))
}

/// The mixture of the atoms; `None` exactly where it or a part of it is not fine.
fn mixture(alloc: Global, sev: &GridSev, bounds: Bounds) -> Result<Option<Sev>, AllocError>
    requires bounds { AreBounds bounds }
    requires sev { IsSevWeighted sev.now }
    ensures { IfOk result (HasPairsWhere (has_severity bounds sev.now) (mixed_pairs sev.now)) }
{
    let Some(atoms) = atom_severities(alloc, sev, bounds)? else {
        return Ok(None);
    };
    let count = sev.atoms.as_slice().len();
    let Some(weights) = weights_among(alloc, count, &sev.weights, bounds.parts)? else {
        return Ok(None);
    };
    match mix(alloc, &atoms, &weights, bounds.parts) {
        Ok(made) => Ok(Some(made)),
        Err(MixFault::TooFine) => Ok(None),
        Err(MixFault::OutOfMemory) => Err(AllocError),
    }
}

/// The severity of each atom; `None` exactly where the probabilities of one are not fine.
fn atom_severities(
    alloc: Global,
    sev: &GridSev,
    bounds: Bounds,
) -> Result<Option<Vec<Sev>>, AllocError>
    requires bounds { AreBounds bounds }
    requires sev { IsGridSev sev.now }
    ensures { IfOk result (λ made. MatchOption made (has_atoms bounds sev.now ≡ false)
        (λ sevs. (has_atoms bounds sev.now ≡ true)
        × AllZip HasDistribution sevs.items (map atom_pairs sev.now.atoms))) }
{
    let mut made = Vec::new(alloc);
    'atoms: for atom in sev.atoms.as_slice() {
        let Some(severity) = atom_severity(alloc, atom, bounds)? else {
            return Ok(None);
        };
        made.push(severity)?;
    }
    Ok(Some(made))
}

/// The severity of an atom; `None` exactly where its probabilities are not fine.
fn atom_severity(alloc: Global, atom: &GridAtom, bounds: Bounds) -> Result<Option<Sev>, AllocError>
    requires bounds { AreBounds bounds }
    requires atom { IsGridAtom atom.now }
    ensures { IfOk result (HasPairsWhere (are_fine bounds.parts (atom_probs atom.now))
        (atom_pairs atom.now)) }
{
    let amounts = atom.amounts.as_slice();
    let Some(weights) = weights_among(alloc, amounts.len(), &atom.probs, bounds.parts)? else {
        return Ok(None);
    };
    Ok(Some(merge(alloc, amounts, &weights)?))
}

/// The mixture in the layer: conditioned, where the layer says so, and cut.
fn severity_in_layer(alloc: Global, unit: &GridUnit, mixed: Sev) -> Result<Sev, AllocError>
    requires weighted { IsWeighted unit.now }
    requires reached { none_above unit.now ≡ None }
    requires mixed { HasDistribution mixed (mixed_pairs unit.now.sev) }
    ensures { IfOk result (λ sev. HasDistribution sev (severity_in_layer unit.now)) }
{
    match &unit.layer {
        Some(layer) => {
            if is_conditioned(unit.bang, layer.attach) {
                let large = mixed.exceeding(alloc, layer.attach)?.unwrap();
                cut(alloc, &large, layer.limit, layer.attach)
            } else {
                cut(alloc, &mixed, layer.limit, layer.attach)
            }
        }
        None => Ok(mixed),
    }
}

/// The final severity, of the severity in the layer: what the occurrence clause keeps of each
/// amount, which is whole.
pub fn final_severity(alloc: Global, layered: Sev, occ: &MadeClause) -> Result<Sev, AllocError>
    requires { KeepsWhole occ.now layered }
    ensures { IfOk result (λ sev. HasDistribution sev (made_pairs occ.now (pairs_of layered))) }
{
    match occ {
        MadeClause::Whole(cede, _) => cede_whole(alloc, &layered, cede),
        _ => Ok(layered),
    }
}
