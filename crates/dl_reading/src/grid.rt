//! A unit in whole buckets.

use dl_frac::Frac;
use dl_lexer::Span;
use dl_plan::Items;
use dl_severity::Weights;

/// A list of numbers.
#[derive(Drop)]
pub struct ValueList {
    /// The values of its items in order, at least one, and at most as many as the bounds allow.
    pub values: Items<Frac>,
    /// The span of the list.
    pub span: Span,
}

/// A list of probabilities.
#[derive(Drop)]
pub struct Shares {
    /// The probabilities in order, at least one, and at most as many as the bounds allow.
    pub values: Items<Frac>,
    /// Their whole weights over the common denominator; none where that passes 2^40, or where they do
    /// not sum to 1.
    pub weights: Option<Weights>,
    /// The span of the list.
    pub span: Span,
}

/// A discrete severity.
#[derive(Drop)]
pub struct GridAtom {
    /// The amounts in buckets, at least one, and at most as many as the bounds allow, each at most
    /// 2^22.
    pub amounts: Items<u32>,
    /// The probability of each; where there is none they are equally likely.
    pub probs: Option<Shares>,
}

/// The severity: one atom, or a mixture of several.
#[derive(Drop)]
pub struct GridSev {
    /// The atoms, 1 to 64 of them.
    pub atoms: Items<GridAtom>,
    /// The weight of each atom.
    pub weights: Option<Shares>,
}

/// The part of a loss above the attachment, up to the limit.
#[derive(Clone, Copy)]
pub struct GridLayer {
    /// The most that the layer pays, in buckets, at most 2^22; none where there is no limit.
    pub limit: Option<u32>,
    /// Where the layer attaches, in buckets, at most 2^22.
    pub attach: u32,
    /// The span of the layer.
    pub span: Span,
}

/// How much of a layer is ceded.
#[derive(Clone, Copy)]
pub enum GridShare {
    /// The whole layer.
    Whole,
    /// This share of the layer.
    So(Frac),
    /// This amount of money, out of this limit in money; none where there is no limit.
    Po(Frac, Option<Frac>),
}

/// A layer of which a share is ceded.
#[derive(Clone, Copy)]
pub struct GridCeded {
    /// How much of the layer is ceded.
    pub share: GridShare,
    /// The layer.
    pub layer: GridLayer,
    /// The span of both.
    pub span: Span,
}

/// A reinsurance clause, of each claim or of the unit's sum.
#[derive(Drop)]
pub struct GridClause {
    /// Whether the unit keeps what is not ceded; else it keeps what is ceded.
    pub net: bool,
    /// The ceded layers, 1 to 16 of them.
    pub layers: Items<GridCeded>,
    /// The span of the clause.
    pub span: Span,
}

/// The source of the expected claim count: a number of claims, a loss, or a premium.
#[derive(Clone, Copy)]
pub enum GridExposure {
    /// It is this number.
    Claims(Frac, Span),
    /// This amount of money over the expected severity.
    Loss(Frac, Span),
    /// The premium times the loss ratio, over the expected severity.
    Premium {
        /// The premium, an amount of money.
        amount: Frac,
        /// The loss ratio.
        ratio: Frac,
        /// The span of the exposure.
        span: Span,
    },
}

/// The distribution of the claim count.
#[derive(Clone, Copy)]
pub enum GridFreq {
    /// Exactly the expected count.
    Fixed(Span),
    /// Poisson.
    Poisson(Span),
    /// One claim or none.
    Bernoulli(Span),
    /// Binomial, with the probability of each trial.
    Binomial(Frac, Span),
    /// Poisson mixed by a gamma factor, with that factor's coefficient of variation.
    Gamma(Frac, Span),
}

/// The claim count.
#[derive(Drop)]
pub enum GridCount {
    /// An exposure, and a distribution that takes its mean from it.
    Exposed {
        /// The source of the expected count.
        exposure: GridExposure,
        /// The claim count's distribution.
        freq: GridFreq,
    },
    /// The counts are listed.
    Listed {
        /// The counts.
        counts: ValueList,
        /// The probability of each; where there is none they are equally likely.
        probs: Option<Shares>,
    },
}

/// One unit.
#[derive(Drop)]
pub struct GridUnit {
    /// The span of the unit's name.
    pub name: Span,
    /// How many claims there are.
    pub count: GridCount,
    /// The layer of each claim, where there is one.
    pub layer: Option<GridLayer>,
    /// The severity of one claim.
    pub sev: GridSev,
    /// Whether a final `!` keeps the severity from being conditioned on exceeding the attachment.
    pub bang: bool,
    /// The probability of no claim that a count is given, 0 for `zt`; none where it keeps its own.
    pub zero: Option<Frac>,
    /// The reinsurance of each claim.
    pub occ: Option<GridClause>,
    /// The reinsurance of the unit's sum.
    pub agr: Option<GridClause>,
}
