//! Tokens, each with its kind and its place.

ghost use Rattle.std.specs.Prelude.{◌≡◌, ◌≢◌, IfSome, IfNone, map};
ghost use Rattle.dl_lexer.specs.Keywords.{spelling, first_spelled};

use std::mem::size_of;

/// A word of the language: those of the grammar, the nine names of continuous severities, and
/// `note`, which is reserved.
#[derive(Clone, Copy, Debug, PartialEq, Eq)]
pub enum Keyword {
    Agg,
    Port,
    Claim,
    Claims,
    Loss,
    Prem,
    Premium,
    At,
    Lr,
    Dfreq,
    Dsev,
    Sev,
    Dhistogram,
    Xps,
    Xs,
    Inf,
    Occurrence,
    Aggregate,
    Net,
    Of,
    Ceded,
    To,
    And,
    So,
    Po,
    Fixed,
    Poisson,
    Bernoulli,
    Binomial,
    Mixed,
    Gamma,
    Wts,
    Lognorm,
    Expon,
    Pareto,
    Weibull,
    Norm,
    Uniform,
    Beta,
    Chistogram,
    Note,
    Geometric,
    Zt,
    Zm,
    Common,
}

/// How each keyword is written, in the order of the variants.
const TABLE: [(Keyword, &[u8]); 45] = [
    (Keyword::Agg, b"agg"),
    (Keyword::Port, b"port"),
    (Keyword::Claim, b"claim"),
    (Keyword::Claims, b"claims"),
    (Keyword::Loss, b"loss"),
    (Keyword::Prem, b"prem"),
    (Keyword::Premium, b"premium"),
    (Keyword::At, b"at"),
    (Keyword::Lr, b"lr"),
    (Keyword::Dfreq, b"dfreq"),
    (Keyword::Dsev, b"dsev"),
    (Keyword::Sev, b"sev"),
    (Keyword::Dhistogram, b"dhistogram"),
    (Keyword::Xps, b"xps"),
    (Keyword::Xs, b"xs"),
    (Keyword::Inf, b"inf"),
    (Keyword::Occurrence, b"occurrence"),
    (Keyword::Aggregate, b"aggregate"),
    (Keyword::Net, b"net"),
    (Keyword::Of, b"of"),
    (Keyword::Ceded, b"ceded"),
    (Keyword::To, b"to"),
    (Keyword::And, b"and"),
    (Keyword::So, b"so"),
    (Keyword::Po, b"po"),
    (Keyword::Fixed, b"fixed"),
    (Keyword::Poisson, b"poisson"),
    (Keyword::Bernoulli, b"bernoulli"),
    (Keyword::Binomial, b"binomial"),
    (Keyword::Mixed, b"mixed"),
    (Keyword::Gamma, b"gamma"),
    (Keyword::Wts, b"wts"),
    (Keyword::Lognorm, b"lognorm"),
    (Keyword::Expon, b"expon"),
    (Keyword::Pareto, b"pareto"),
    (Keyword::Weibull, b"weibull"),
    (Keyword::Norm, b"norm"),
    (Keyword::Uniform, b"uniform"),
    (Keyword::Beta, b"beta"),
    (Keyword::Chistogram, b"chistogram"),
    (Keyword::Note, b"note"),
    (Keyword::Geometric, b"geometric"),
    (Keyword::Zt, b"zt"),
    (Keyword::Zm, b"zm"),
    (Keyword::Common, b"common"),
];

impl Keyword {
    /// The bytes that the keyword is written with.
    pub fn spelling(self) -> &'static [u8]
        ensures { result.now ≡ spelling self }
    {
        TABLE[self as usize].1
    }

    /// The keyword that is written with these bytes, if there is one.
    #[tactic(auto, using(crate::proofs::Spellings::first_spelled_is, crate::proofs::Spellings::none_spelled))]
    pub fn read(bytes: &[u8]) -> Option<Keyword>
        ensures found { IfSome result (λ keyword. spelling keyword ≡ bytes.now) }
        ensures none { IfNone result ((keyword : Keyword) → spelling keyword ≢ bytes.now) }
    {
        find_in(&TABLE, bytes)
    }
}

/// The first keyword of a table that is written with these bytes.
#[tactic(auto, using(crate::proofs::Spellings::table_ends))]
fn find_in(table: &[(Keyword, &[u8])], bytes: &[u8]) -> Option<Keyword>
    ensures { result ≡ first_spelled (map (λ item. item.0) table.now) bytes.now }
{
    for (keyword, _) in table {
        if keyword.spelling() == bytes {
            return Some(*keyword);
        }
    }
    None
}

/// A mark of one byte: `[`, `]`, `:`, `,` or `!`.
#[derive(Clone, Copy, Debug, PartialEq, Eq)]
pub enum Sign {
    Open,
    Close,
    Colon,
    Comma,
    Bang,
}

/// The kind of a token.
#[derive(Clone, Copy, Debug, PartialEq, Eq)]
pub enum Kind {
    /// A word whose bytes are in the table of keywords, in lower case.
    Word(Keyword),
    /// Any other word: a letter, then letters, digits, `_` and `-`.
    Name,
    /// `sev.` and a word right behind it: a severity by its name.
    Ref,
    /// A decimal (`12`, `5.`, `.5`), a percent (`12%`) or a fraction (`1/2`).
    Numeral,
    /// `note{`, any bytes but braces, `}`.
    Note,
    Sign(Sign),
}

/// A range of the bytes of a text.
#[derive(Clone, Copy, Debug, PartialEq, Eq)]
pub struct Span {
    /// The place of the first byte, counted from 0.
    pub start: u32,
    /// The place behind the last byte.
    pub end: u32,
}

/// A token and its bytes in the text.
#[derive(Clone, Copy, Debug, PartialEq, Eq)]
pub struct Token {
    pub kind: Kind,
    pub span: Span,
}

const _: () = prove!(size_of::<Token>() <= 16);
