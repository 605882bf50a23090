//! How numerals are spelled.

ghost use Rattle.std.specs.Prelude.{◌≡◌, ◌↔◌, ◌==◌, IsTrue, IfSome, IfNone, true, false};
ghost use Rattle.std.specs.List.{list_any, position, before_first, after_first};
ghost use Rattle.dl_bytes.specs.Digits.{is_number};
ghost use Rattle.dl_bytes.specs.Numerals.{IsNumeral, is_decimal, is_numeral};

use crate::digits::are_digits;

/// Whether the text is spelled as a numeral.
pub fn is_numeral(text: &[u8]) -> bool
    ensures spelled { IsTrue result ↔ IsNumeral text.now }
    ensures test { result ≡ is_numeral text.now }
{
    passes(text)
}

/// The test of a numeral: a fraction, a percent or a decimal.
fn passes(text: &[u8]) -> bool
    ensures { result ≡ is_numeral text.now }
{
    if let Some((first, second)) = cut(text, b'/') {
        return is_number(first) && is_number(second);
    }
    match cut(text, b'%') {
        Some((front, behind)) => is_decimal(front) && behind.is_empty(),
        None => is_decimal(text),
    }
}

/// Digits; or digits with a point before, among or behind them.
fn is_decimal(text: &[u8]) -> bool
    ensures { result ≡ is_decimal text.now }
{
    match cut(text, b'.') {
        Some((front, back)) => text.len() > 1 && are_digits(front) && are_digits(back),
        None => is_number(text),
    }
}

/// One digit or more.
fn is_number(text: &[u8]) -> bool
    ensures { result ≡ is_number text.now }
{
    !text.is_empty() && are_digits(text)
}

/// The bytes before the first place of a sign, and those behind it; none without one.
#[tactic(auto, using(crate::proofs::FirstSign::first_there, crate::proofs::FirstSign::first_before, crate::proofs::FirstSign::first_behind, crate::proofs::FirstSign::no_place))]
fn cut(text: &[u8], sign: u8) -> Option<(&[u8], &[u8])>
    ensures there { IfSome result (λ cut. list_any (λ byte. byte == sign) text.now ≡ true) }
    ensures before { IfSome result
        (λ cut. cut.0.now ≡ before_first (λ byte. byte == sign) text.now) }
    ensures behind { IfSome result
        (λ cut. cut.1.now ≡ after_first (λ byte. byte == sign) text.now) }
    ensures none { IfNone result (list_any (λ byte. byte == sign) text.now ≡ false) }
{
    match index_of(text, sign) {
        Some(at) => Some((&text[..at], &text[at + 1..])),
        None => None,
    }
}

/// The first place of a sign.
fn index_of(text: &[u8], sign: u8) -> Option<usize>
    ensures { result ≡ position (λ byte. byte == sign) text.now }
{
    text.iter().position(|byte| *byte == sign)
}
