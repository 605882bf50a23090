//! Reinsurance clauses: a side, and layers with shares.

ghost use Rattle.std.specs.Prelude.{◌≡◌, ◌<◌, ◌≤◌, ◌^◌, ◌*◌, ◌↔◌, IsTrue, Bool, List, None, All, AllPairs, length, sum_by, IfOk, OnOk, IfSome, MatchOption};
ghost use Rattle.dl_limits.specs.Limits.{most_layers, most_parts, sum_bound, edge_bound};
ghost use Rattle.dl_exact.specs.Fraction.{whole, ◌≤ℚ◌};
ghost use Rattle.dl_plan.specs.declared.cede.CedeLayer.{CedeLayer};
ghost use Rattle.dl_plan.specs.Fine.{IsFineTo30Bits, IsWhole, common_denominator};
ghost use Rattle.dl_plan.specs.Clause.{layer, kept, layer_shares, IsBelowTop, Overlap, IsClause};
ghost use Rattle.dl_plan.specs.Horizon.{edge, edge_of, last_edge, IsHorizon};
ghost use Rattle.dl_plan.specs.Parts.{layer_parts, kept_parts, parts_in_bucket};

use crate::fine::{common_denominator_of, numerator_over};
use crate::layers::{are_apart, shares_within};
use dl_frac::Frac;
use dl_limits::{MOST_LAYERS, MOST_PARTS};
use smallvec::SmallVec;
use std::alloc::{AllocError, Global};
use std::marker::Model;

/// A share of what lies between an attachment and a limit above it.
#[derive(Clone, Copy)]
pub struct CedeLayer {
    /// The share, at most 1.
    pub share: Frac,
    /// The most that the layer takes, in buckets; none where there is no limit.
    pub limit: Option<u32>,
    /// Where the layer attaches, in buckets.
    pub attach: u32,
}

impl Default for CedeLayer {
    /// All of what there is.
    fn default() -> CedeLayer
        ensures share { result.share ≡ whole 1 }
        ensures limit { result.limit ≡ None }
        ensures attach { result.attach ≡ 0 }
    {
        CedeLayer {
            share: Frac::whole(1),
            limit: None,
            attach: 0,
        }
    }
}

/// What of `x` lies above an attachment and within a limit.
pub fn in_layer(x: u64, limit: Option<u32>, attach: u32) -> u64
    ensures { result ≡ layer limit attach x }
{
    let above = x.saturating_sub(attach as u64);
    match limit {
        Some(limit) => above.min(limit as u64),
        None => above,
    }
}

/// Where what lies above an attachment and within a limit ends, in buckets; without a limit, where
/// it begins.
pub(crate) fn end_of(limit: Option<u32>, attach: u32) -> u64
    ensures value { result ≡ edge_of limit attach }
    ensures small { result < edge_bound }
{
    attach as u64 + limit.unwrap_or(0) as u64
}

impl CedeLayer {
    /// What of `x` lies above the attachment and within the limit.
    fn taken(&self, x: u64) -> u64
        ensures { result ≡ layer self.now.limit self.now.attach x }
    {
        in_layer(x, self.limit, self.attach)
    }

    /// Whether `x` lies below the top of the layer, where it has one.
    fn is_below_top(&self, x: u32) -> bool
        ensures { IsTrue result ↔ IsBelowTop self.now.limit self.now.attach x }
    {
        match self.limit {
            Some(limit) => (x as u64) < self.attach as u64 + limit as u64,
            None => true,
        }
    }

    /// Whether the two layers overlap: the greater attachment lies below both tops.
    pub fn overlaps(&self, other: &CedeLayer) -> bool
        ensures { IsTrue result ↔ Overlap self.now other.now }
    {
        let greater = self.attach.max(other.attach);
        self.is_below_top(greater) && other.is_below_top(greater)
    }

    /// Where the layer ends, in buckets; where it has no limit, where it begins.
    pub fn edge(&self) -> u64
        ensures value { result ≡ edge self.now }
        ensures small { result < edge_bound }
    {
        end_of(self.limit, self.attach)
    }
}

/// A reinsurance clause: what of an amount is kept. Contracts see the side and the list of layers.
#[derive(Drop)]
pub struct Cede {
    net: bool,
    layers: SmallVec<CedeLayer, 4>,
    /// The common denominator of the shares; none where it passes 2^30.
    common: Option<u64>,
}

impl Model for Cede {
    ghost use Rattle.std.specs.Prelude.{Bool, List};
    ghost use Rattle.dl_plan.specs.declared.cede.CedeLayer.{CedeLayer};
    ghost use Rattle.dl_plan.specs.Clause.{IsCommonShare};

    ghost Value = { Bool × List CedeLayer };

    ghost view = { λ clause. (clause.net, clause.layers.items) };

    ghost invariant = { λ clause. IsCommonShare clause.layers.items clause.common };
}

impl Cede {
    /// The clause of these layers: `net` of what they take, or ceded to them.
    pub fn from_parts(
        alloc: Global,
        net: bool,
        layers: SmallVec<CedeLayer, 4>,
    ) -> Result<Cede, AllocError>
        ensures { IfOk result (λ clause. clause ≡ (net, layers.items)) }
    {
        let shares = shares_of(alloc, layers.as_slice())?;
        Ok(Cede {
            net,
            layers,
            common: common_denominator_of(&shares, MOST_PARTS),
        })
    }

    /// The clause of a copy of these layers: `net` of what they take, or ceded to them.
    pub fn from_slice(alloc: Global, net: bool, layers: &[CedeLayer]) -> Result<Cede, AllocError>
        ensures { IfOk result (λ clause. clause ≡ (net, layers.now)) }
    {
        Cede::from_parts(alloc, net, SmallVec::from_slice(alloc, layers)?)
    }

    /// Whether what the layers take is left out; else it is what is kept.
    pub fn net(&self) -> bool
        ensures { result ≡ self.now.0 }
    {
        self.net
    }

    /// The layers, in the order of the clause.
    pub fn layers(&self) -> &[CedeLayer]
        ensures { result.now ≡ self.now.1 }
    {
        self.layers.as_slice()
    }

    /// Whether `at` can be asked: there are 1 to 16 layers that do not overlap, with shares of at
    /// most 1 that have a common denominator of at most 2^30.
    pub fn is_clause(&self) -> bool
        ensures { IsTrue result ↔ IsClause self.now }
    {
        let layers = self.layers();
        if layers.is_empty() || layers.len() > MOST_LAYERS || self.common.is_none() {
            return false;
        }
        shares_within(layers) && are_apart(layers)
    }

    /// What the clause keeps of an amount of `x` buckets; `None` exactly where that is not whole.
    #[tactic(auto, using(crate::proofs::Clauses::kept_whole, crate::proofs::Clauses::kept_only))]
    pub fn at(&self, x: u64) -> Option<u64>
        requires amount { x < sum_bound }
        requires clause { IsClause self.now }
        ensures value { MatchOption result (¬ IsWhole (kept self.now x))
            (λ y. kept self.now x ≡ whole y) }
        ensures within { IfSome result (λ y. y ≤ x) }
    {
        let common = self.common() as u128;
        let parts = self.parts(x);
        if parts % common == 0 {
            Some((parts / common) as u64)
        } else {
            None
        }
    }

    /// The horizon on `cells` cells: the greatest of 1, each edge, and the least amount at which
    /// what is kept has reached the cells, or is constant from there on.
    pub fn horizon(&self, cells: u32) -> u128
        requires { IsClause self.now }
        ensures { IsHorizon self.now cells result }
    {
        let edge = last_edge(self.layers());
        let kept = self.parts(edge);
        let rise = self.parts(edge + 1) - kept;
        let missing = (cells as u128 * self.common() as u128).saturating_sub(kept);
        if rise == 0 {
            edge as u128
        } else {
            edge as u128 + missing.div_ceil(rise)
        }
    }

    /// How many parts make a bucket: the common denominator of the shares.
    #[tactic(auto, using(crate::proofs::Clauses::bucket_pos))]
    fn common(&self) -> u64
        requires { IsClause self.now }
        ensures value { result ≡ parts_in_bucket self.now }
        ensures positive { 0 < result }
        ensures small { result ≤ most_parts }
    {
        self.common.unwrap()
    }

    /// What the clause keeps of an amount of `x` buckets, in parts.
    #[tactic(auto, using(crate::proofs::Apart::ceded_le))]
    fn parts(&self, x: u64) -> u128
        requires amount { x < sum_bound }
        requires clause { IsClause self.now }
        ensures value { result ≡ kept_parts self.now (parts_in_bucket self.now) x }
        ensures within { result ≤ x * parts_in_bucket self.now }
    {
        let common = self.common();
        let ceded = ceded_parts(self.layers.as_slice(), common, x);
        if self.net {
            (x as u128 * common as u128).saturating_sub(ceded)
        } else {
            ceded
        }
    }
}

/// The greatest of 1 and each edge: where a layer ends, or begins if it has no limit.
fn last_edge(layers: &[CedeLayer]) -> u64
    ensures value { result ≡ last_edge layers.now }
    ensures positive { 1 ≤ result }
    ensures small { result < edge_bound }
{
    let mut last = 1;
    'layers: for layer in layers {
        last = last.max(layer.edge());
    }
    last
}

/// The shares of the layers.
fn shares_of(alloc: Global, layers: &[CedeLayer]) -> Result<Vec<Frac>, AllocError>
    ensures { IfOk result (λ shares. shares.items ≡ layer_shares layers.now) }
{
    let mut shares = Vec::new(alloc);
    'layers: for layer in layers {
        shares.push(layer.share)?;
    }
    Ok(shares)
}

/// What is ceded of `x`, in parts of which `common` make a bucket.
#[tactic(auto, using(std::proofs::lemmas::List::Sums::sum_by_more, crate::proofs::Clauses::scaled_le, crate::proofs::Clauses::layer_le))]
fn ceded_parts(layers: &[CedeLayer], common: u64, x: u64) -> u128
    requires few { length layers.now ≤ most_layers }
    requires within { All (λ l. l.share ≤ℚ whole 1) layers.now }
    requires fine { common ≤ most_parts }
    requires amount { x < sum_bound }
    ensures value { result ≡ sum_by (layer_parts common x) layers.now }
    ensures small { result ≤ length layers.now * (common * sum_bound) }
{
    let mut parts = 0;
    'layers: for layer in layers {
        parts += numerator_over(layer.share, common) * layer.taken(x) as u128;
    }
    parts
}
