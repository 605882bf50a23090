//! The layers and the clauses of a unit, read.

ghost use Rattle.std.specs.Prelude.{◌≡◌, ◌≤◌, All, IfOk, IfSome, map};
ghost use Rattle.dl_limits.specs.Limits.{most_amount};
ghost use Rattle.dl_ast.specs.WellFormed.{IsFormedCeded, IsFormedCession, IsFormedLayer, IsFormedLimit, IsFormedShare};
ghost use Rattle.dl_plan.specs.Ranges.{IsBucket};
ghost use Rattle.dl_reading.specs.Flaws.{IsRead, IsReadTo, flaws_in, flaws_within};
ghost use Rattle.dl_reading.specs.Grid.{number_of, limit_value, share_beside, grid_layer, grid_ceded, grid_clause};
ghost use Rattle.dl_reading.specs.Reading.{flaws_of_amount, flaws_of_limit_number, flaws_of_layer, flaws_of_share, flaws_of_ceded, flaws_of_clause};
ghost use Rattle.dl_reading.specs.Small.{IsSmall};
ghost use Rattle.dl_reading.specs.Values.{if_there};

use crate::flaws::{Flaws, Gridded};
use crate::grid::{GridCeded, GridClause, GridLayer, GridShare};
use crate::numbers::{grid_amount, money, number};
use crate::spans::span_if;
use dl_ast::{CededLayer, Cession, Layer, LimitAst, Share};
use dl_frac::Frac;
use dl_lexer::Span;
use dl_limits::MOST_LAYERS;
use dl_plan::Items;
use std::alloc::{AllocError, Global};

/// The layer of a unit, where there is one.
pub(crate) fn unit_layer(layer: &Option<Layer>, bs: Frac, most: u32) -> Gridded<Option<GridLayer>>
    requires bucket { IsBucket bs }
    requires most { most ≤ most_amount }
    requires formed { IfSome layer.now IsFormedLayer }
    ensures { IsRead (flaws_within (flaws_of_layer most bs) layer.now)
        (if_there (grid_layer bs) layer.now) result }
{
    match layer {
        Some(layer) => {
            let limit = limit_number(&layer.limit);
            grid_layer(layer, &limit, bs, most).some()
        }
        None => Gridded::clean(None),
    }
}

/// A layer with this limit in money.
fn grid_layer(
    layer: &Layer,
    limit: &Gridded<Option<Frac>>,
    bs: Frac,
    most: u32,
) -> Gridded<GridLayer>
    requires bucket { IsBucket bs }
    requires most { most ≤ most_amount }
    requires formed { IsFormedLayer layer.now }
    requires limit { IsReadTo 1 (flaws_of_limit_number layer.now.limit) (limit_value layer.now.limit)
        limit.now }
    requires small { IfSome limit.now.part IsSmall }
    ensures { IsRead (flaws_of_layer most bs layer.now) (grid_layer bs layer.now) result }
{
    let most_paid = grid_limit(limit.part, bs, most, layer.span);
    let attach = money(&layer.attach, bs, most, layer.span);
    let limits = limit.flaws.or(most_paid.flaws);
    Gridded {
        part: GridLayer {
            limit: most_paid.part,
            attach: attach.part,
            span: layer.span,
        },
        flaws: limits.or(attach.flaws),
    }
}

/// A limit in money, of a layer at a place, in buckets; none where there is no limit.
fn grid_limit(limit: Option<Frac>, bs: Frac, most: u32, span: Span) -> Gridded<Option<u32>>
    requires bucket { IsBucket bs }
    requires most { most ≤ most_amount }
    requires small { IfSome limit IsSmall }
    ensures { IsRead (flaws_within (λ x. flaws_of_amount most bs x span) limit)
        (if_there (number_of bs) limit) result }
{
    match limit {
        Some(limit) => grid_amount(limit, bs, most, span).some(),
        None => Gridded::clean(None),
    }
}

/// A clause of a unit, where there is one.
pub(crate) fn unit_clause(
    alloc: Global,
    clause: &Option<Cession>,
    bs: Frac,
    most: u32,
) -> Result<Gridded<Option<GridClause>>, AllocError>
    requires bucket { IsBucket bs }
    requires most { most ≤ most_amount }
    requires formed { IfSome clause.now IsFormedCession }
    ensures { IfOk result (IsRead (flaws_within (flaws_of_clause most bs) clause.now)
        (if_there (grid_clause bs) clause.now)) }
{
    match clause {
        Some(clause) => Ok(grid_clause(alloc, clause, bs, most)?.some()),
        None => Ok(Gridded::clean(None)),
    }
}

/// A clause.
fn grid_clause(
    alloc: Global,
    clause: &Cession,
    bs: Frac,
    most: u32,
) -> Result<Gridded<GridClause>, AllocError>
    requires bucket { IsBucket bs }
    requires most { most ≤ most_amount }
    requires formed { IsFormedCession clause.now }
    ensures { IfOk result (IsRead (flaws_of_clause most bs clause.now)
        (grid_clause bs clause.now)) }
{
    let ceded = clause.layers.as_slice();
    let layers = grid_layers(alloc, ceded, bs, most)?;
    let long = Flaws::long_at(span_if(ceded.len() > MOST_LAYERS, clause.span));
    Ok(Gridded {
        part: GridClause {
            net: clause.net,
            layers: layers.part,
            span: clause.span,
        },
        flaws: layers.flaws.or(long),
    })
}

/// The layers of a clause.
fn grid_layers(
    alloc: Global,
    layers: &[CededLayer],
    bs: Frac,
    most: u32,
) -> Result<Gridded<Items<GridCeded>>, AllocError>
    requires bucket { IsBucket bs }
    requires most { most ≤ most_amount }
    requires formed { All IsFormedCeded layers.now }
    ensures { IfOk result (IsRead (flaws_in (flaws_of_ceded most bs) layers.now)
        (map (grid_ceded bs) layers.now)) }
{
    let mut made = Vec::new(alloc);
    let mut flaws = Flaws::none();
    'layers: for ceded in layers {
        let limit = limit_number(&ceded.layer.limit);
        let share = share_number(&ceded.share, limit.part);
        let layer = grid_layer(&ceded.layer, &limit, bs, most);
        made.push(GridCeded {
            share: share.part,
            layer: layer.part,
            span: ceded.span,
        })?;
        flaws = flaws.or(share.flaws.or(layer.flaws));
    }
    let part = Items::from_vec(made);
    Ok(Gridded { part, flaws })
}

/// The limit of a layer in money; none where there is no limit.
fn limit_number(limit: &LimitAst) -> Gridded<Option<Frac>>
    requires { IsFormedLimit limit.now }
    ensures read { IsReadTo 1 (flaws_of_limit_number limit.now) (limit_value limit.now) result }
    ensures small { IfSome result.part IsSmall }
{
    match limit {
        LimitAst::Finite(numeral) => number(numeral).some(),
        LimitAst::Infinite => Gridded::clean(None),
    }
}

/// A share of a layer with this limit in money.
fn share_number(share: &Share, limit: Option<Frac>) -> Gridded<GridShare>
    requires { IsFormedShare share.now }
    ensures { IsReadTo 1 (flaws_of_share share.now) (share_beside share.now limit) result }
{
    match share {
        Share::Whole => Gridded::clean(GridShare::Whole),
        Share::So(numeral) => {
            let share = number(numeral);
            share.with(GridShare::So(share.part))
        }
        Share::Po(numeral) => {
            let amount = number(numeral);
            amount.with(GridShare::Po(amount.part, limit))
        }
    }
}
