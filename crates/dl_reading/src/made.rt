//! The clauses of a unit, each built once.

ghost use Rattle.std.specs.Prelude.{◌≡◌, ◌<◌, false, IfOk, IfSome, MatchOption, map};
ghost use Rattle.dl_limits.specs.Limits.{most_parts};
ghost use Rattle.dl_plan.specs.Clause.{IsClause};
ghost use Rattle.dl_reading.specs.Lists.{is_fine};
ghost use Rattle.dl_reading.specs.Clauses.{ceded_layer, clause_of, made_of, part_of, share_of, shares_of, IsMade};
ghost use Rattle.dl_reading.specs.CheckedClauses.{AreClausesOf, IsClauseLayered};
ghost use Rattle.dl_reading.specs.CheckedUnit.{IsLayered};
ghost use Rattle.dl_reading.specs.Rules.{part_exceeds, share_exceeds};

use crate::clauses::part_of;
use crate::grid::{GridClause, GridShare, GridUnit};
use dl_frac::Frac;
use dl_lexer::Span;
use dl_plan::{Cede, CedeLayer};
use std::alloc::{AllocError, Global};

/// A clause of a unit, or why there is none.
#[derive(Drop)]
pub enum MadeClause {
    /// The unit has no such clause.
    Missing,
    /// Its shares are not fine.
    TooFine,
    /// The clause, with its place.
    Whole(Cede, Span),
}

/// The clauses of a unit.
#[derive(Drop)]
pub struct Clauses {
    /// That of each claim.
    pub occ: MadeClause,
    /// That of the unit's sum.
    pub agr: MadeClause,
}

/// The clauses of a unit that breaks no rule on their layers.
pub fn make_clauses(alloc: Global, unit: &GridUnit) -> Result<Clauses, AllocError>
    requires { IsLayered unit.now }
    ensures { IfOk result (AreClausesOf unit.now) }
{
    let occ = made(alloc, &unit.occ)?;
    let agr = made(alloc, &unit.agr)?;
    Ok(Clauses { occ, agr })
}

/// The clause that a unit may have, with its place in the text.
fn made(alloc: Global, written: &Option<GridClause>) -> Result<MadeClause, AllocError>
    requires { IfSome written.now IsClauseLayered }
    ensures same { IfOk result (λ clause. clause ≡ made_of written.now) }
    ensures made { IfOk result IsMade }
{
    let Some(written) = written else {
        return Ok(MadeClause::Missing);
    };
    match clause(alloc, written)? {
        Some(cede) => Ok(MadeClause::Whole(cede, written.span)),
        None => Ok(MadeClause::TooFine),
    }
}

/// A clause; none exactly where its shares are not fine.
fn clause(alloc: Global, written: &GridClause) -> Result<Option<Cede>, AllocError>
    requires layered { IsClauseLayered written.now }
    ensures value { IfOk result (λ made. MatchOption made (is_fine most_parts (shares_of written.now) ≡ false)
        (λ clause. clause ≡ clause_of written.now)) }
    ensures is_clause { IfOk result (λ made. IfSome made IsClause) }
{
    let Some(layers) = parts_of(alloc, written)? else {
        return Ok(None);
    };
    let clause = Cede::from_slice(alloc, written.net, &layers)?;
    if clause.is_clause() {
        Ok(Some(clause))
    } else {
        Ok(None)
    }
}

/// The layers of a clause with their shares; none only where the shares are not fine.
fn parts_of(alloc: Global, written: &GridClause) -> Result<Option<Vec<CedeLayer>>, AllocError>
    requires layered { IsClauseLayered written.now }
    ensures { IfOk result (λ made. MatchOption made (is_fine most_parts (shares_of written.now) ≡ false)
        (λ layers. layers.items ≡ map ceded_layer written.now.layers)) }
{
    let mut layers = Vec::new(alloc);
    'layers: for ceded in written.layers.as_slice() {
        let Some(share) = share_of(&ceded.share) else {
            return Ok(None);
        };
        layers.push(part_of(&ceded.layer, share))?;
    }
    Ok(Some(layers))
}

/// A share of a layer; none only where its denominator passes 2^30.
fn share_of(share: &GridShare) -> Option<Frac>
    requires { share_exceeds share.now ≡ false }
    ensures { MatchOption result (most_parts < (share_of share.now).den)
        (λ made. made ≡ share_of share.now) }
{
    match share {
        GridShare::Whole => Some(Frac::make(1, 1).unwrap()),
        GridShare::So(share) => Some(*share),
        GridShare::Po(part, limit) => share_of_limit(*part, *limit),
    }
}

/// A part of a limit, 0 where there is no limit; none only where its denominator passes 2^30.
fn share_of_limit(part: Frac, limit: Option<Frac>) -> Option<Frac>
    requires within { part_exceeds part limit ≡ false }
    ensures { MatchOption result (most_parts < (part_of part limit).den)
        (λ made. made ≡ part_of part limit) }
{
    match limit {
        Some(most) => match part.div(most) {
            Ok(share) => Some(share),
            Err(_) => None,
        },
        None => Some(Frac::make(0, 1).unwrap()),
    }
}
