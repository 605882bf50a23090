//! The typing rules by name and number.

ghost use Rattle.std.specs.Prelude.{◌≡◌};
ghost use Rattle.dl_rules.specs.Names.{rule_name, rule_number};

/// A typing rule.
#[derive(Clone, Copy, Debug, PartialEq, Eq)]
pub enum Rule {
    /// The unit's name is that of an earlier unit.
    DuplicateName = 1,
    /// A numeral has too many digits, or is a fraction over 0.
    BadNumeral = 2,
    /// A range goes down, has the step 0, or its numbers have a common denominator above 1,000,000.
    BadRange = 3,
    /// A list has more values than the rules allow, the severity more than 64 atoms or more than
    /// 65,536 values together, or a clause more than 16 layers.
    ListTooLong = 4,
    /// Two lists that belong together have different numbers of values.
    LengthsDiffer = 5,
    /// A list of probabilities does not sum to 1.
    NotOne = 6,
    /// An amount is no whole number of buckets.
    OffGrid = 7,
    /// An amount passes 2^20 buckets, or 2^22 on a grid of more than 4,096 cells.
    TooFar = 8,
    /// There is not one weight for each atom.
    WeightsDiffer = 9,
    /// No amount of positive probability exceeds the attachment.
    NoneAbove = 10,
    /// Two layers of a clause overlap.
    Overlap = 11,
    /// A share exceeds 1, or a part its limit.
    ShareAboveOne = 12,
    /// A clause maps an amount to no whole number of buckets.
    OffGridCession = 13,
    /// A loss or a premium is divided by a severity of mean 0.
    ZeroMean = 14,
    /// A number of claims is not whole.
    CountNotWhole = 15,
    /// The expected count of a Bernoulli count exceeds 1.
    CountAboveOne = 16,
    /// The number of trials is not whole.
    TrialsNotWhole = 17,
    /// The shape of the gamma factor is not whole.
    ShapeNotWhole = 18,
    /// A fraction has parts that are too large.
    TooFine = 19,
    /// There are too many claims.
    TooManyClaims = 20,
    /// The horizon of the aggregate clause is too large.
    HorizonTooLarge = 21,
    /// There are more units than the rules allow.
    TooManyUnits = 22,
    /// The name of a severity is that of an earlier one.
    DuplicateSeverity = 23,
    /// No severity has the name that a unit refers to.
    UnknownSeverity = 24,
    /// The probability of no claim is changed to 1 or more, or where fewer than 1/16 or more than
    /// 4,096 claims are expected.
    ZeroBase = 25,
    /// A unit under `common` has a count that is not Poisson, `zt` or `zm`, or an aggregate clause.
    CommonUnit = 26,
    /// The coefficient of variation of `common` is a bad numeral, or its shape is no whole number.
    CommonShape = 27,
    /// The units under `common` are too large: the shape, a sum of their claims, or the common
    /// denominator of their shares passes its bound, or no claim is expected.
    CommonSize = 28,
    /// The units of a portfolio are too large all together: more than 16 of them have `zt` or `zm`,
    /// or their means pass 17 * 2^36 buckets, or 17 * 2^38 on a grid of more than 4,096 cells, where
    /// the mean of a unit with `zt` or `zm` counts 17 times.
    TotalTooLarge = 30,
}

impl Rule {
    /// Its number: from 1 to 28, or 30.
    pub fn number(self) -> u32
        ensures { result ≡ rule_number self }
    {
        self as u32
    }

    /// Its name.
    pub fn name(self) -> &'static str
        ensures { result.now ≡ rule_name self }
    {
        match self {
            Rule::DuplicateName => "DuplicateName",
            Rule::BadNumeral => "BadNumeral",
            Rule::BadRange => "BadRange",
            Rule::ListTooLong => "ListTooLong",
            Rule::LengthsDiffer => "LengthsDiffer",
            Rule::NotOne => "NotOne",
            Rule::OffGrid => "OffGrid",
            Rule::TooFar => "TooFar",
            Rule::WeightsDiffer => "WeightsDiffer",
            Rule::NoneAbove => "NoneAbove",
            Rule::Overlap => "Overlap",
            Rule::ShareAboveOne => "ShareAboveOne",
            Rule::OffGridCession => "OffGridCession",
            Rule::ZeroMean => "ZeroMean",
            Rule::CountNotWhole => "CountNotWhole",
            Rule::CountAboveOne => "CountAboveOne",
            Rule::TrialsNotWhole => "TrialsNotWhole",
            Rule::ShapeNotWhole => "ShapeNotWhole",
            Rule::TooFine => "TooFine",
            Rule::TooManyClaims => "TooManyClaims",
            Rule::HorizonTooLarge => "HorizonTooLarge",
            Rule::TooManyUnits => "TooManyUnits",
            Rule::DuplicateSeverity => "DuplicateSeverity",
            Rule::UnknownSeverity => "UnknownSeverity",
            Rule::ZeroBase => "ZeroBase",
            Rule::CommonUnit => "CommonUnit",
            Rule::CommonShape => "CommonShape",
            Rule::CommonSize => "CommonSize",
            Rule::TotalTooLarge => "TotalTooLarge",
        }
    }
}
