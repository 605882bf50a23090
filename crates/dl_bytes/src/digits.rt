//! Digits and the numbers that they write.

ghost use Rattle.std.specs.Prelude.{◌≡◌, ◌<◌, ◌≤◌, ◌^◌, IfSome, length, Some, None, if◌then◌else◌};
ghost use Rattle.std.specs.Char.{is_ascii_digit};
ghost use Rattle.std.specs.List.{list_all};
ghost use Rattle.std.specs.Str.Parse.{digits_value};
ghost use Rattle.dl_bytes.specs.Digits.{AreDigits, is_number_of};

/// Whether each byte is a digit.
pub fn are_digits(text: &[u8]) -> bool
    ensures { result ≡ list_all is_ascii_digit text.now }
{
    text.iter().all(|byte| byte.is_ascii_digit())
}

/// The number that at most 17 digits write.
fn value_of(digits: &[u8]) -> u64
    requires digits { AreDigits digits.now }
    requires few { length digits.now ≤ 17 }
    ensures { result ≡ digits_value 10 digits.now }
{
    let mut value: u64 = 0;
    for i in 0..digits.len() {
        value = value * 10 + u64::from(digits[i] - b'0');
    }
    value
}

/// The number that 1 to `most` digits write, at most 17 of them. None where they are no digits, or
/// another number of them.
#[tactic(auto, using(crate::proofs::DigitLaws::number_below))]
pub fn number(text: &[u8], most: usize) -> Option<u64>
    requires most { most ≤ 17 }
    ensures value { result ≡ (if is_number_of most text.now
        then Some (digits_value 10 text.now) else None) }
    ensures below { IfSome result (λ value. value < 10 ^ most) }
{
    if text.is_empty() || text.len() > most || !are_digits(text) {
        return None;
    }
    Some(value_of(text))
}
