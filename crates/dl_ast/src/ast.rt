//! The nodes of the syntax, from the program down to its numerals. A span runs from the start of a
//! node's first token to the end of its last one, and counts bytes of the text.

use dl_lexer::{Items, Rare, Span, Text};

/// A program: named severities, and then one unit, or a portfolio of units.
#[derive(Drop)]
pub struct Program {
    /// The named severities in the order of the text.
    pub sevs: Items<SevDef>,
    /// The head of a portfolio; none where the program is one unit.
    pub port: Option<PortHead>,
    /// The units in the order of the text, at least one.
    pub units: Items<UnitAst>,
}

/// A severity with a name, which units refer to: `sev NAME` and a mixture.
#[derive(Drop)]
pub struct SevDef {
    /// Its name.
    pub name: NameAst,
    /// The mixture of that name.
    pub mix: MixAst,
    /// From `sev` to the end of the mixture.
    pub span: Span,
}

/// The line that begins a portfolio: `port NAME common c note{..}`.
#[derive(Drop)]
pub struct PortHead {
    /// The portfolio's name.
    pub name: NameAst,
    /// The coefficient of variation of the gamma factor that all units share, where there is one.
    pub common: Option<Numeral>,
    /// The whole token of its note, where there is one.
    pub note: Option<Text>,
}

/// A name as it was written.
#[derive(Drop)]
pub struct NameAst {
    /// The bytes of the token.
    pub text: Text,
    /// The place of the token.
    pub span: Span,
}

/// A decimal, a percent or a fraction as it was written; its value is not computed here.
#[derive(Drop)]
pub struct Numeral {
    /// The bytes of the token.
    pub text: Text,
    /// The place of the token.
    pub span: Span,
}

/// One unit: an aggregate loss with its claim count, its severity and its reinsurance.
#[derive(Drop)]
pub struct UnitAst {
    /// The unit's name.
    pub name: NameAst,
    /// How many claims there are.
    pub count: CountAst,
    /// The layer of each claim, where there is one.
    pub layer: Option<Layer>,
    /// The severity of one claim.
    pub sev: SevAst,
    /// The reinsurance of each claim.
    pub occ: Option<Cession>,
    /// The reinsurance of the unit's sum.
    pub agr: Option<Cession>,
    /// The whole token of its note, where there is one.
    pub note: Option<Text>,
}

/// The claim count.
#[derive(Drop)]
pub enum CountAst {
    /// An exposure, and a distribution that takes its mean from it.
    Exposed {
        /// The source of the expected count.
        exposure: Exposure,
        /// The claim count's distribution.
        freq: FreqAst,
        /// Whether its probability of no claim is changed.
        zero: ZeroAst,
    },
    /// `dfreq`: the counts are listed.
    Listed {
        /// The counts.
        counts: ListAst,
        /// The probability of each; where there is none they are equally likely.
        probs: Option<ListAst>,
        /// From `dfreq` to the last list.
        span: Span,
    },
}

/// The source of the expected claim count: a number of claims, a loss, or a premium.
#[derive(Drop)]
pub enum Exposure {
    /// `N claims`: it is the numeral.
    Claims(Numeral, Span),
    /// `N loss`: it is the numeral, an amount of money, over the expected severity.
    Loss(Numeral, Span),
    /// `P premium at R lr`: the expected loss is the premium times the loss ratio.
    Premium {
        /// The premium, an amount of money.
        amount: Numeral,
        /// The loss ratio.
        ratio: Numeral,
        /// From the premium to `lr`.
        span: Span,
    },
}

/// The distribution of the claim count.
#[derive(Drop)]
pub enum FreqAst {
    /// Exactly the expected count.
    Fixed(Span),
    /// Poisson.
    Poisson(Span),
    /// Geometric: Poisson mixed by an exponential factor.
    Geometric(Span),
    /// One claim or none.
    Bernoulli(Span),
    /// Binomial, with the probability of each trial.
    Binomial(Numeral, Span),
    /// Poisson mixed by a gamma factor, with that factor's coefficient of variation.
    Gamma(Numeral, Span),
}

/// The new probability of no claim of a claim count; the probabilities of all other numbers of
/// claims keep their proportions.
#[derive(Drop)]
pub enum ZeroAst {
    /// It is not changed.
    Plain,
    /// `zt`: to 0.
    Truncated(Span),
    /// `zm p`: to this probability.
    Modified(Numeral, Span),
}

/// `limit xs attach`: the part of a loss above the attachment, up to the limit.
#[derive(Drop)]
pub struct Layer {
    /// The most that the layer pays.
    pub limit: LimitAst,
    /// Where the layer attaches, an amount of money.
    pub attach: Numeral,
    /// From the limit to the attachment.
    pub span: Span,
}

/// A layer's limit.
#[derive(Drop)]
pub enum LimitAst {
    /// An amount of money.
    Finite(Numeral),
    /// `inf`: no limit.
    Infinite,
}

/// The severity of a unit.
#[derive(Drop)]
pub struct SevAst {
    /// The amounts of one claim.
    pub body: SevBody,
    /// Whether a final `!` keeps the severity from being conditioned on exceeding the attachment.
    pub bang: bool,
    /// From the first token of what one claim costs to its last, or to `!`.
    pub span: Span,
}

/// The amounts of one claim: a mixture, or the name of one.
#[derive(Drop)]
pub enum SevBody {
    /// This mixture.
    Mixture(MixAst),
    /// `sev.NAME`: the severity of this name. The text is what follows `sev.`, and the span is
    /// that of the whole token.
    Ref(NameAst),
}

/// One atom, or a mixture of several.
#[derive(Drop)]
pub struct MixAst {
    /// The atoms, at least one.
    pub atoms: Items<Atom>,
    /// The list behind `wts`, the weight of each atom.
    pub weights: Option<ListAst>,
    /// From the first atom to the last one, or to the weights.
    pub span: Span,
}

/// A discrete severity, `dsev` or `sev dhistogram xps`.
#[derive(Drop)]
pub struct Atom {
    /// The amounts of money.
    pub values: ListAst,
    /// The probability of each; where there is none they are equally likely.
    pub probs: Option<ListAst>,
}

/// `[..]`: a list of numbers.
#[derive(Drop)]
pub struct ListAst {
    /// The items between the brackets, at least one.
    pub items: Items<ListItem>,
    /// From the opening to the closing bracket.
    pub span: Span,
}

/// One number, or a range of them.
#[derive(Drop)]
pub struct ListItem {
    /// The number, or the first of the range.
    pub from: Numeral,
    /// The bound that no number of the range passes.
    pub to: Rare<Numeral>,
    /// The difference of two neighbours in the range, 1 where it is missing.
    pub step: Rare<Numeral>,
    /// From the first numeral to the last.
    pub span: Span,
}

/// A reinsurance clause, of each claim or of the unit's sum.
#[derive(Drop)]
pub struct Cession {
    /// Whether the unit keeps what is not ceded, `net of`, or what is ceded, `ceded to`.
    pub net: bool,
    /// The ceded layers, at least one.
    pub layers: Items<CededLayer>,
    /// From the clause's first word to its last layer.
    pub span: Span,
}

/// A layer of which a share is ceded.
#[derive(Drop)]
pub struct CededLayer {
    /// How much of the layer is ceded.
    pub share: Share,
    /// The layer.
    pub layer: Layer,
    /// From the share, or the layer where there is none, to the layer's end.
    pub span: Span,
}

/// How much of a layer is ceded.
#[derive(Drop)]
pub enum Share {
    /// The whole layer.
    Whole,
    /// `s so`: this share of the layer.
    So(Numeral),
    /// `p po`: this amount of money out of the limit.
    Po(Numeral),
}
