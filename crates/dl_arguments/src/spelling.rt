//! The values in the words, as numbers and fractions.

ghost use Rattle.std.specs.Prelude.{◌≡◌, ◌≤◌, ◌&&◌, IfSome, None, Some, if◌then◌else◌, not};
ghost use Rattle.std.specs.List.{list_all};
ghost use Rattle.dl_bytes.specs.Prelude.{is_numeral, number};
ghost use Rattle.dl_frac.specs.Numerals.{is_bad, numeral_value};
ghost use Rattle.dl_lexer.specs.Prelude.{is_word_byte, begins_with_letter};
ghost use Rattle.dl_arguments.specs.Table.{amount, probability, weight};
ghost use Rattle.dl_arguments.specs.Spelling.{begins_plainly, is_bucket, is_number_within, is_word};

use dl_bytes::{is_numeral, number};
use dl_frac::{Frac, numeral};

/// The number that 1 to 15 digits write, where it lies from `low` to `high`.
pub(crate) fn whole(text: &str, low: u64, high: u64) -> Option<u64>
    ensures value { result ≡ (if is_number_within low high text.now
        then Some (number text.now) else None) }
    ensures within { IfSome result (λ value. value ≤ high) }
{
    match number(text.as_bytes(), 15) {
        Some(value) if low <= value && value <= high => Some(value),
        _ => None,
    }
}

/// The number that 1 to 9 digits write.
pub(crate) fn amount(text: &str) -> Option<u32>
    ensures { result ≡ amount.read text.now }
{
    match number(text.as_bytes(), 9) {
        Some(value) => Some(value as u32),
        None => None,
    }
}

/// The value of a numeral that is not bad with a limit of `digits` digits.
fn fraction(text: &str, digits: u32) -> Option<Frac>
    requires { digits ≤ 11 }
    ensures { result ≡ (if is_numeral text.now && not (is_bad digits text.now)
        then Some (numeral_value text.now) else None) }
{
    if !is_numeral(text.as_bytes()) {
        return None;
    }
    match numeral(text.as_bytes(), digits) {
        Ok(value) => Some(value),
        Err(_) => None,
    }
}

/// The value of a bucket size: a numeral above 0 that is not bad with 11 digits.
pub(crate) fn bucket(text: &str) -> Option<Frac>
    ensures { result ≡ (if is_bucket text.now then Some (numeral_value text.now) else None) }
{
    let value = fraction(text, 11)?;
    (0 < value.num()).then_some(value)
}

/// The value of a numeral below 1 that is not bad with a limit of `digits` digits, at most 9.
pub(crate) fn probability(text: &str, digits: u32) -> Option<Frac>
    requires { digits ≤ 9 }
    ensures { result ≡ (probability digits).read text.now }
{
    let value = fraction(text, digits)?;
    (value.num() < value.den()).then_some(value)
}

/// The value of a weight: a numeral that is not bad with 9 digits.
pub(crate) fn weight(text: &str) -> Option<Frac>
    ensures { result ≡ weight.read text.now }
{
    fraction(text, 9)
}

/// Whether the bytes are spelled as a word of a program.
pub(crate) fn is_word(text: &[u8]) -> bool
    ensures { result ≡ is_word text.now }
{
    begins_with_letter(text) && are_word_bytes(text)
}

/// Whether a letter begins the bytes.
fn begins_with_letter(text: &[u8]) -> bool
    ensures { result ≡ begins_with_letter text.now }
{
    match text.first() {
        Some(first) => first.is_ascii_alphabetic(),
        None => false,
    }
}

/// Whether each byte is one that a word goes on with.
fn are_word_bytes(text: &[u8]) -> bool
    ensures { result ≡ list_all is_word_byte text.now }
{
    text.iter().all(|byte| is_word_byte(*byte))
}

/// A letter, a digit, `_` or `-`.
fn is_word_byte(byte: u8) -> bool
    ensures { result ≡ is_word_byte byte }
{
    byte.is_ascii_alphanumeric() || byte == b'_' || byte == b'-'
}

/// Whether no hyphen begins the bytes.
pub(crate) fn begins_plainly(text: &[u8]) -> bool
    ensures { result ≡ begins_plainly text.now }
{
    match text.first() {
        Some(first) => *first != b'-',
        None => true,
    }
}
