//! Of each rule on reading a unit, the first place in the text where it is broken.

ghost use Rattle.std.specs.Prelude.{◌≡◌, ◌↔◌, IsTrue, Some};
ghost use Rattle.dl_reading.specs.Flaws.{KeepsLengths, no_flaws, flaws_else, earlier_flaws, long_at};

use dl_lexer::Span;

/// Of each rule that a text can break as it is read, the first place where it is broken; the rules
/// in their order. A place is right where no rule before it is broken.
#[derive(Clone, Copy)]
pub struct Flaws {
    /// A numeral of more than 11 digits, or a fraction over 0.
    pub numeral: Option<Span>,
    /// A range that goes down, has the step 0, or too fine numbers.
    pub range: Option<Span>,
    /// A list of more values than the bounds allow, a severity of more than 64 atoms or of more than
    /// 65,536 values together, or a clause of more than 16 layers.
    pub long: Option<Span>,
    /// Probabilities beside another number of values.
    pub lengths: Option<Span>,
    /// Fine probabilities that do not sum to 1.
    pub sum: Option<Span>,
    /// An amount of money that is no whole number of buckets.
    pub off_grid: Option<Span>,
    /// An amount of money that passes the most buckets that one may have.
    pub too_far: Option<Span>,
}

impl Flaws {
    /// No place.
    pub(crate) fn none() -> Flaws
        ensures { result ≡ no_flaws }
    {
        Flaws {
            numeral: None,
            range: None,
            long: None,
            lengths: None,
            sum: None,
            off_grid: None,
            too_far: None,
        }
    }

    /// The span of what is too long.
    pub(crate) fn long_at(span: Option<Span>) -> Flaws
        ensures { result ≡ long_at span }
    {
        Flaws {
            long: span,
            ..Flaws::none()
        }
    }

    /// Whether the rules on numerals, ranges and the lengths of lists are kept.
    pub(crate) fn keep_lengths(&self) -> bool
        ensures { IsTrue result ↔ KeepsLengths self.now }
    {
        self.numeral.is_none()
            && self.range.is_none()
            && self.long.is_none()
            && self.lengths.is_none()
    }

    /// These places, and for each rule without one that of a later part.
    pub(crate) fn or(self, later: Flaws) -> Flaws
        ensures { result ≡ flaws_else self later }
    {
        Flaws {
            numeral: self.numeral.or(later.numeral),
            range: self.range.or(later.range),
            long: self.long.or(later.long),
            lengths: self.lengths.or(later.lengths),
            sum: self.sum.or(later.sum),
            off_grid: self.off_grid.or(later.off_grid),
            too_far: self.too_far.or(later.too_far),
        }
    }

    /// Of each rule the first place in the text, of those in a unit's own part, which precedes its
    /// severity, and in that severity. A named severity is written before all units.
    pub(crate) fn earlier(named: bool, own: Flaws, severity: Flaws) -> Flaws
        ensures { result ≡ earlier_flaws named own severity }
    {
        if named {
            severity.or(own)
        } else {
            own.or(severity)
        }
    }
}

/// A part of a unit in whole buckets, with its flaws. Where it has one, the part is of no use.
#[derive(Drop)]
pub struct Gridded<T> {
    /// The part.
    pub part: T,
    /// Its flaws.
    pub flaws: Flaws,
}

impl<T: Drop> Gridded<T> {
    /// A part without flaws.
    pub(crate) fn clean(part: T) -> Gridded<T>
        ensures { result ≡ record { part = part; flaws = no_flaws } }
    {
        Gridded {
            part,
            flaws: Flaws::none(),
        }
    }

    /// Another part with the same flaws.
    pub(crate) fn with<U: Drop>(&self, part: U) -> Gridded<U>
        ensures { result ≡ record { part = part; flaws = self.now.flaws } }
    {
        Gridded {
            part,
            flaws: self.flaws,
        }
    }

    /// The part of something that may be missing.
    pub(crate) fn some(self) -> Gridded<Option<T>>
        ensures { result ≡ record { part = Some self.part; flaws = self.flaws } }
    {
        Gridded {
            part: Some(self.part),
            flaws: self.flaws,
        }
    }
}
