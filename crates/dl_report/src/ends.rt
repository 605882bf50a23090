//! How an end is written.

ghost use Rattle.std.specs.Prelude.{◌≡◌, ◌<◌, ◌≤◌, ◌++◌, ◌+◌, ◌/◌, ◌%◌, IfOk, OnOk};
ghost use Rattle.std.specs.Fmt.{decimal};
ghost use Rattle.std.specs.Str.{IsAscii, IsUtf8};
ghost use Rattle.dl_limits.specs.Limits.{most_digits};
ghost use Rattle.dl_report.specs.Ends.{last_digits, with_digits, end_text};

use crate::report::End;
use itoa::Buffer;
use std::alloc::{AllocError, Global};

/// The digit of a number at this power of ten.
fn digit(number: u64, power: u64) -> u8
    requires { 0 < power }
    ensures { result ≡ 48 + number / power % 10 }
{
    b'0' + (number / power % 10) as u8
}

/// Appends the last decimal digits of a number, the highest first.
#[tactic(auto, unfolding(crate::specs::Ends::last_digits))]
fn push_digits(text: &mut Vec<u8>, number: u64, count: u32) -> Result<(), AllocError>
    requires { count ≤ most_digits }
    ensures { OnOk result (text.new.items ≡ text.old.items ++ last_digits count number) }
{
    for done in 0..count {
        text.push(digit(number, 10u64.pow(count - 1 - done)))?;
    }
    Ok(())
}

/// Appends a whole number.
pub fn push_whole(text: &mut Vec<u8>, number: u128) -> Result<(), AllocError>
    ensures appends { OnOk result (text.new.items ≡ text.old.items ++ decimal number) }
    ensures ascii { OnOk result (IsAscii (decimal number)) }
{
    let mut buffer = Buffer::new();
    text.extend_from_slice(buffer.format(number).as_bytes())
}

/// Appends a number of units of the last of these digits behind the point.
fn push_number(text: &mut Vec<u8>, digits: u32, number: u128) -> Result<(), AllocError>
    requires { digits ≤ most_digits }
    ensures appends { OnOk result (text.new.items ≡ text.old.items ++ with_digits digits number) }
    ensures ascii { OnOk result (IsAscii (with_digits digits number)) }
{
    let one = 10u128.pow(digits);
    push_whole(text, number / one)?;
    text.extend_from_slice(b".")?;
    push_digits(text, (number % one) as u64, digits)
}

/// Appends an end.
#[tactic(auto, unfolding(crate::specs::Ends::end_text))]
pub fn push_end(text: &mut Vec<u8>, digits: u32, end: End) -> Result<(), AllocError>
    requires { digits ≤ most_digits }
    ensures appends { OnOk result (text.new.items ≡ text.old.items ++ end_text digits end) }
    ensures ascii { OnOk result (IsAscii (end_text digits end)) }
{
    match end {
        End::Number(number) => push_number(text, digits, number),
        End::Whole(amount) => push_whole(text, amount as u128),
        End::Beyond => text.extend_from_slice(b"beyond"),
        End::Absent => text.extend_from_slice(b"-"),
    }
}

/// The bytes of an end.
pub fn end_bytes(alloc: Global, digits: u32, end: End) -> Result<Vec<u8>, AllocError>
    requires { digits ≤ most_digits }
    ensures value { IfOk result (λ bytes. bytes.items ≡ end_text digits end) }
    ensures utf8 { IfOk result (λ bytes. IsUtf8 bytes.items) }
{
    let mut bytes = Vec::new(alloc);
    push_end(&mut bytes, digits, end)?;
    Ok(bytes)
}
