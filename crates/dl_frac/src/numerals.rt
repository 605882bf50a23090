//! Numerals and their values.

ghost use Rattle.std.specs.Prelude.{◌≡◌, ◌<◌, ◌≤◌, ◌+◌, ◌-◌, ◌^◌, ◌∷◌, [], ◌++◌, ◌↔◌, ℕ, List, IfOk, OnErr, IsErr, IsTrue, ◌||◌, ◌==◌, nat_lt, cond};
ghost use Rattle.dl_limits.specs.Limits.{frac_bound};
ghost use Rattle.dl_exact.specs.Fraction.{whole, ◌over◌, ◌/ℚ◌};
ghost use Rattle.std.specs.List.{list_any};
ghost use Rattle.dl_bytes.specs.Numerals.{IsNumeral, is_percent};
ghost use Rattle.dl_frac.specs.Numerals.{digit_count, number_in, decimal_value, numeral_value, is_bad};
ghost use Rattle.dl_frac.specs.Reads.{IsReadingOf};

use crate::arithmetic::{Frac, over_tens, reduced};
use crate::reading::Reading;
use thiserror::Error;

/// The numeral has too many digits, or it is a fraction over 0.
#[derive(Debug, Drop, Error)]
#[error("the numeral has too many digits, or is a fraction over 0")]
pub struct BadNumeral;

/// The value of a numeral with a limit of `digits` digits, which is 2 lower for a percent and holds
/// for each part of a fraction. `BadNumeral` exactly where the limit is passed, or a second part is
/// 0.
#[tactic(auto, using(crate::proofs::NumeralLaws::few_tens))]
pub fn numeral(text: &[u8], digits: u32) -> Result<Frac, BadNumeral>
    requires spelled { IsNumeral text.now }
    requires limit { digits ≤ 11 }
    ensures value { IfOk result (λ value. value ≡ numeral_value text.now) }
    ensures bad { IsErr result ↔ IsTrue (is_bad digits text.now) }
{
    let mut read = Reading::new();
    'bytes: for (at, &byte) in text.iter().enumerate() {
        if byte == b'/' {
            return ratio(read.number, &text[at + 1..], digits);
        }
        read = read.push(byte, digits)?;
    }
    read.decimal(digits)
}

/// `first` over the number of a text.
#[tactic(auto, using(crate::proofs::NumeralLaws::few_tens))]
fn ratio(first: u64, text: &[u8], digits: u32) -> Result<Frac, BadNumeral>
    requires small { first < frac_bound }
    requires limit { digits ≤ 11 }
    ensures value { IfOk result (λ value. value ≡ first over number_in text.now) }
    ensures bad { IsErr result ↔ IsTrue
        (nat_lt digits (digit_count text.now) || number_in text.now == 0) }
{
    let mut read = Reading::new();
    'bytes: for &byte in text {
        read = read.push(byte, digits)?;
    }
    if read.number == 0 {
        return Err(BadNumeral);
    }
    Ok(reduced(first, read.number))
}

impl Reading {
    /// Nothing is read.
    fn new() -> Reading
        ensures { (limit : ℕ) → IsReadingOf limit [] result }
    {
        Reading {
            number: 0,
            digits: 0,
            places: 0,
            pointed: false,
            percent: false,
        }
    }

    /// One more byte is read; `BadNumeral` where it is a digit that passes the limit.
    fn push(self, byte: u8, limit: u32) -> Result<Reading, BadNumeral>
        requires { limit ≤ 11 }
        ensures ok { IfOk result (λ next. (text : List ℕ) → IsReadingOf limit text self
            → IsReadingOf limit (text ++ byte ∷ []) next) }
        ensures err { OnErr result ((text : List ℕ) → IsReadingOf limit text self
            → limit < digit_count (text ++ byte ∷ [])) }
    {
        let mut next = self;
        match byte {
            b'0'..=b'9' => return self.push_digit(byte - b'0', limit),
            b'.' => next.pointed = true,
            b'%' => next.percent = true,
            _ => {}
        }
        Ok(next)
    }

    /// One more digit is read; `BadNumeral` where it passes the limit.
    fn push_digit(self, digit: u8, limit: u32) -> Result<Reading, BadNumeral>
        requires digit { digit < 10 }
        requires limit { limit ≤ 11 }
        ensures ok { IfOk result (λ next. (text : List ℕ) → IsReadingOf limit text self
            → IsReadingOf limit (text ++ (48 + digit) ∷ []) next) }
        ensures err { OnErr result ((text : List ℕ) → IsReadingOf limit text self
            → limit < digit_count (text ++ (48 + digit) ∷ [])) }
    {
        if self.digits >= limit {
            return Err(BadNumeral);
        }
        let places = if self.pointed {
            self.places + 1
        } else {
            self.places
        };
        Ok(Reading {
            number: 10 * self.number + digit as u64,
            digits: self.digits + 1,
            places,
            pointed: self.pointed,
            percent: self.percent,
        })
    }

    /// The value of a decimal or a percent.
    #[tactic(auto, using(crate::proofs::NumeralLaws::few_tens))]
    fn decimal(self, limit: u32) -> Result<Frac, BadNumeral>
        ensures ok { (text : List ℕ) → IsReadingOf limit text self
            → IfOk result (λ value. value ≡ cond (list_any is_percent text)
            (decimal_value text /ℚ whole 100) (decimal_value text)) }
        ensures bad { (text : List ℕ) → IsReadingOf limit text self
            → IsErr result ↔ IsTrue (cond (list_any is_percent text)
            (nat_lt (limit - 2) (digit_count text)) (nat_lt limit (digit_count text))) }
    {
        if self.percent {
            if self.digits > limit.saturating_sub(2) {
                return Err(BadNumeral);
            }
            return Ok(over_tens(self.number, self.places + 2));
        }
        Ok(over_tens(self.number, self.places))
    }
}
