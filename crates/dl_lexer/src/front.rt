//! The length, in bytes, of what is at the front of some bytes.

ghost use Rattle.std.specs.Prelude.{◌≡◌, ◌≢◌, ◌+◌, ◌<◌, ◌≤◌, ◌↔◌, IsTrue, IfSome, IfNone, Some};
ghost use Rattle.std.specs.Prelude.{length, drop, slice_get};
ghost use Rattle.std.specs.Char.{is_ascii_digit};
ghost use Rattle.std.specs.List.{prefix_len};
ghost use Rattle.dl_lexer.specs.Classes.{is_in};
ghost use Rattle.dl_lexer.specs.Cutting.{IsLongest, blank_length};
ghost use Rattle.dl_bytes.specs.Numerals.{IsDecimal, IsPercent, IsFraction, IsNumeral};
ghost use Rattle.dl_lexer.specs.Tokens.{begins_with_letter, IsWord, IsNote, IsRef};

/// The classes of bytes of which a run has one.
#[derive(Clone, Copy)]
pub(crate) enum Class {
    Digit,
    Word,
    Note,
    Comment,
}

fn is_in(byte: u8, class: Class) -> bool
    ensures { result ≡ is_in class byte }
{
    match class {
        Class::Digit => byte.is_ascii_digit(),
        Class::Word => byte.is_ascii_alphanumeric() || byte == b'_' || byte == b'-',
        Class::Note => byte != b'{' && byte != b'}',
        Class::Comment => byte != b'\n',
    }
}

/// How many bytes of a class the bytes begin with.
fn run_length(bytes: &[u8], class: Class) -> usize
    ensures run { result ≡ prefix_len (is_in class) bytes.now }
    ensures within { result ≤ length bytes.now }
{
    for (i, byte) in bytes.iter().enumerate() {
        if !is_in(*byte, class) {
            return i;
        }
    }
    bytes.len()
}

/// Whether this byte is at a place.
fn is_at(bytes: &[u8], at: usize, byte: u8) -> bool
    ensures is { IsTrue result ↔ (slice_get bytes.now at ≡ Some byte) }
    ensures inside { IsTrue result → at < length bytes.now }
{
    match bytes.get(at) {
        Some(found) => *found == byte,
        None => false,
    }
}

/// The length of the blank that begins the bytes, 0 where none does.
#[tactic(auto, using(crate::proofs::BlankLemmas::comment_length))]
pub(crate) fn blank_length(bytes: &[u8]) -> usize
    ensures length { result ≡ blank_length bytes.now }
    ensures within { result ≤ length bytes.now }
{
    match bytes.first() {
        Some(b'\t' | b'\n' | b'\r' | b' ') => 1,
        Some(b'#') => 1 + run_length(&bytes[1..], Class::Comment),
        _ => 0,
    }
}

/// Whether a letter begins the bytes.
pub(crate) fn begins_with_letter(bytes: &[u8]) -> bool
    ensures { result ≡ begins_with_letter bytes.now }
{
    match bytes.first() {
        Some(byte) => byte.is_ascii_alphabetic(),
        None => false,
    }
}

/// The length of the word that begins the bytes, 0 where none does.
#[tactic(auto, using(crate::proofs::WordLengths::word_none))]
pub(crate) fn word_length(bytes: &[u8]) -> usize
    ensures { IsLongest IsWord bytes.now result }
{
    if begins_with_letter(bytes) {
        run_length(bytes, Class::Word)
    } else {
        0
    }
}

/// The length of the note that begins the bytes, 0 where none does.
#[tactic(auto, using(crate::proofs::WordLengths::note_none, dl_bytes::proofs::Beginnings::begins_otherwise))]
pub(crate) fn note_length(bytes: &[u8]) -> usize
    ensures { IsLongest IsNote bytes.now result }
{
    let Some(text) = bytes.strip_prefix(b"note{") else {
        return 0;
    };
    let length = run_length(text, Class::Note);
    if is_at(text, length, b'}') {
        length + 6
    } else {
        0
    }
}

/// The length of the severity's reference that begins the bytes, 0 where none does.
#[tactic(auto, using(crate::proofs::WordLengths::ref_unnamed, dl_bytes::proofs::Beginnings::begins_so))]
pub(crate) fn ref_length(bytes: &[u8]) -> usize
    ensures { IsLongest IsRef bytes.now result }
{
    let Some(name) = bytes.strip_prefix(b"sev.") else {
        return 0;
    };
    let length = word_length(name);
    if length > 0 { length + 4 } else { 0 }
}

/// The length of the longest decimal that begins the bytes, 0 where none does; `whole` digits begin
/// them.
#[tactic(auto, using(crate::proofs::NumeralLengths::decimal_no_point, crate::proofs::NumeralLengths::decimal_with_bare_point))]
fn decimal_length(bytes: &[u8], whole: usize) -> usize
    requires { whole ≡ prefix_len is_ascii_digit bytes.now }
    ensures { IsLongest IsDecimal bytes.now result }
{
    if !is_at(bytes, whole, b'.') {
        return whole;
    }
    let part = run_length(&bytes[whole + 1..], Class::Digit);
    if whole + part == 0 {
        0
    } else {
        whole + 1 + part
    }
}

/// The length of the percent that begins the bytes, 0 where none does; the longest decimal that
/// begins them has `decimal` bytes.
#[tactic(auto, using(crate::proofs::NumeralLengths::percent_with_mark))]
fn percent_length(bytes: &[u8], decimal: usize) -> usize
    requires { IsLongest IsDecimal bytes.now decimal }
    ensures { IsLongest IsPercent bytes.now result }
{
    if decimal > 0 && is_at(bytes, decimal, b'%') {
        decimal + 1
    } else {
        0
    }
}

/// The length of the fraction that begins the bytes, 0 where none does; `above` digits begin them.
#[tactic(auto, using(crate::proofs::NumeralLengths::fraction_with_slash, crate::proofs::NumeralLengths::fraction_none))]
fn fraction_length(bytes: &[u8], above: usize) -> usize
    requires { above ≡ prefix_len is_ascii_digit bytes.now }
    ensures { IsLongest IsFraction bytes.now result }
{
    if above == 0 || !is_at(bytes, above, b'/') {
        return 0;
    }
    let below = run_length(&bytes[above + 1..], Class::Digit);
    if below == 0 { 0 } else { above + 1 + below }
}

/// The length of the longest numeral that begins the bytes, 0 where none does.
pub(crate) fn numeral_length(bytes: &[u8]) -> usize
    ensures { IsLongest IsNumeral bytes.now result }
{
    let digits = run_length(bytes, Class::Digit);
    let decimal = decimal_length(bytes, digits);
    decimal
        .max(percent_length(bytes, decimal))
        .max(fraction_length(bytes, digits))
}
