//! The rules on the reinsurance clauses of a unit.

ghost use Rattle.std.specs.Prelude.{◌≡◌};
ghost use Rattle.std.specs.List.{find, list_any};
ghost use Rattle.std.specs.Option.{option_map};
ghost use Rattle.dl_reading.specs.Clauses.{ceded_layer, overlaps};
ghost use Rattle.dl_reading.specs.Rules.{overlap_in, overlap, part_exceeds, share_exceeds, share_above_one_in, share_above_one};

use crate::compare::is_above;
use crate::grid::{GridCeded, GridClause, GridLayer, GridShare, GridUnit};
use dl_frac::Frac;
use dl_lexer::Span;
use dl_plan::CedeLayer;

/// The span of the first layer that overlaps an earlier one of its clause.
#[tactic(auto, using(crate::proofs::Firsts::or_is), unfolding(crate::specs::Rules::overlap))]
pub fn overlap(unit: &GridUnit) -> Option<Span>
    ensures { result ≡ overlap unit.now }
{
    let occ = unit.occ.as_ref().and_then(|clause| overlap_in(clause));
    let agr = unit.agr.as_ref().and_then(|clause| overlap_in(clause));
    occ.or(agr)
}

/// The span of the first layer of a clause that overlaps an earlier one.
fn overlap_in(clause: &GridClause) -> Option<Span>
    ensures { result ≡ overlap_in clause.now }
{
    let layers = clause.layers.as_slice();
    'layers: for (at, ceded) in layers.iter().enumerate() {
        if overlaps_any(&layers[..at], ceded) {
            return Some(ceded.layer.span);
        }
    }
    None
}

/// Whether a layer overlaps one of those before it.
fn overlaps_any(before: &[GridCeded], ceded: &GridCeded) -> bool
    ensures { result ≡ list_any (λ m. overlaps (ceded_layer m)
        (ceded_layer ceded.now)) before.now }
{
    before.iter().any(|other| overlap_each_other(other, ceded))
}

/// Whether two layers overlap.
fn overlap_each_other(first: &GridCeded, second: &GridCeded) -> bool
    ensures { result ≡ overlaps (ceded_layer first.now) (ceded_layer second.now) }
{
    let share = Frac::make(1, 1).unwrap();
    part_of(&first.layer, share).overlaps(&part_of(&second.layer, share))
}

/// A share of a layer.
pub(crate) fn part_of(layer: &GridLayer, share: Frac) -> CedeLayer
    ensures share { result.share ≡ share }
    ensures limit { result.limit ≡ layer.now.limit }
    ensures attach { result.attach ≡ layer.now.attach }
{
    CedeLayer {
        share,
        limit: layer.limit,
        attach: layer.attach,
    }
}

/// The span of the first ceded layer whose share is above 1.
#[tactic(auto, using(crate::proofs::Firsts::or_is, crate::proofs::Firsts::find_first), unfolding(crate::specs::Rules::share_above_one, crate::specs::Rules::share_above_one_in))]
pub fn share_above_one(unit: &GridUnit) -> Option<Span>
    ensures { result ≡ share_above_one unit.now }
{
    let occ = unit.occ.as_ref().and_then(|clause| share_in(clause));
    let agr = unit.agr.as_ref().and_then(|clause| share_in(clause));
    occ.or(agr)
}

/// The span of the first share above 1 of a clause.
fn share_in(clause: &GridClause) -> Option<Span>
    ensures { result ≡ option_map (λ l. l.span) (find (λ l. share_exceeds l.share)
        clause.now.layers) }
{
    let layers = clause.layers.as_slice();
    layers
        .iter()
        .find(|ceded| share_exceeds(&ceded.share))
        .map(|ceded| ceded.span)
}

/// Whether a share of a layer is above 1.
fn share_exceeds(share: &GridShare) -> bool
    ensures { result ≡ share_exceeds share.now }
{
    match share {
        GridShare::Whole => false,
        GridShare::So(share) => is_above(*share, Frac::make(1, 1).unwrap()),
        GridShare::Po(part, limit) => part_exceeds(*part, *limit),
    }
}

/// Whether a part passes a limit, or the limit is 0 or infinite.
fn part_exceeds(part: Frac, limit: Option<Frac>) -> bool
    ensures { result ≡ part_exceeds part limit }
{
    match limit {
        Some(most) => is_above(part, most) || most.num() == 0,
        None => true,
    }
}
