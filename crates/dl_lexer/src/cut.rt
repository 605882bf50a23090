//! A text is cut into tokens.

ghost use Rattle.std.specs.Prelude.{◌≡◌, ◌≢◌, ◌≤◌, ◌+◌, ℕ, length, take, slice_get, IsTrue, IfSome};
ghost use Rattle.std.specs.Prelude.{IfNone, IfOk, Some, Err};
ghost use Rattle.dl_limits.specs.Limits.{most_text};
ghost use Rattle.dl_lexer.specs.declared.cut.LexFault.TheVariants.{OutOfMemory, BadByte};
ghost use Rattle.dl_lexer.specs.Cutting.{IsLongest, NoToken, Covers, IsBad, token_of};
ghost use Rattle.dl_lexer.specs.Tokens.{begins_with_letter, IsSpelled, IsToken, sign_byte};

use crate::front::{
    begins_with_letter, blank_length, note_length, numeral_length, ref_length, word_length,
};
use crate::token::{Keyword, Kind, Sign, Span, Token};
use std::alloc::{AllocFailed, Global};
use thiserror::Error;

/// Why a text has no tokens.
#[derive(Clone, Copy, Debug, PartialEq, Eq, Error)]
pub enum LexFault {
    /// At this place neither a blank nor a token begins.
    #[error("no token begins at byte {0}")]
    BadByte(u32),
    /// The tokens found no room.
    #[error("out of memory")]
    OutOfMemory,
}

impl<T: Drop> From<AllocFailed<T>> for LexFault {
    ghost from_gives = { λ _ fault. fault ≡ OutOfMemory };

    fn from(_failed: AllocFailed<T>) -> LexFault {
        LexFault::OutOfMemory
    }
}

/// The sign that begins the bytes.
fn sign_at(bytes: &[u8]) -> Option<Sign>
    ensures found { IfSome result (λ sign. slice_get bytes.now 0 ≡ Some (sign_byte sign)) }
    ensures none { IfNone result ((sign : Sign) → slice_get bytes.now 0 ≢ Some (sign_byte sign)) }
{
    match bytes.first() {
        Some(b'[') => Some(Sign::Open),
        Some(b']') => Some(Sign::Close),
        Some(b':') => Some(Sign::Colon),
        Some(b',') => Some(Sign::Comma),
        Some(b'!') => Some(Sign::Bang),
        _ => None,
    }
}

/// The longest word, note or reference that begins bytes whose first is a letter, and its length.
#[tactic(auto, using(crate::proofs::WordLengths::word_some))]
fn word_at(bytes: &[u8]) -> (Kind, usize)
    requires { IsTrue (begins_with_letter bytes.now) }
    ensures spelled { IsSpelled result.0 (take result.1 bytes.now) }
    ensures longest { IsLongest IsToken bytes.now result.1 }
{
    let note = note_length(bytes);
    let reference = ref_length(bytes);
    let word = word_length(bytes);
    if reference > word.max(note) {
        return (Kind::Ref, reference);
    }
    if note > word {
        return (Kind::Note, note);
    }
    match Keyword::read(&bytes[..word]) {
        Some(keyword) => (Kind::Word(keyword), word),
        None => (Kind::Name, word),
    }
}

/// The longest token that begins the bytes, and its length.
#[tactic(auto, using(crate::proofs::TokenKinds::longest_nothing))]
fn token_at(bytes: &[u8]) -> Option<(Kind, usize)>
    ensures spelled { IfSome result (λ token. IsSpelled token.0 (take token.1 bytes.now)) }
    ensures longest { IfSome result (λ token. IsLongest IsToken bytes.now token.1) }
    ensures none { IfNone result (NoToken bytes.now) }
{
    if begins_with_letter(bytes) {
        return Some(word_at(bytes));
    }
    let numeral = numeral_length(bytes);
    if numeral > 0 {
        return Some((Kind::Numeral, numeral));
    }
    match sign_at(bytes) {
        Some(sign) => Some((Kind::Sign(sign), 1)),
        None => None,
    }
}

/// The token of this kind of `length` bytes from the place `at` on.
fn token_of(kind: Kind, at: usize, length: usize) -> Token
    requires { at + length ≤ most_text }
    ensures { result ≡ token_of kind at length }
{
    let span = Span {
        start: at as u32,
        end: (at + length) as u32,
    };
    Token { kind, span }
}

/// That no token begins at this place.
fn bad_byte(at: usize) -> LexFault
    requires { at ≤ most_text }
    ensures { result ≡ BadByte at }
{
    LexFault::BadByte(at as u32)
}

/// The tokens of a text, in order, or the first place where neither a blank nor a token begins.
/// A text has at most 1,048,576 bytes.
#[tactic(auto, using(crate::proofs::CoverLaws::token_takes, crate::proofs::CutSteps::blank_step, crate::proofs::CutSteps::token_step))]
pub fn lex(alloc: Global, source: &[u8]) -> Result<Vec<Token>, LexFault>
    requires short { length source.now ≤ most_text }
    ensures tokens { IfOk result (λ tokens. Covers source.now (length source.now) tokens.items) }
    ensures bad_byte { (at : ℕ) → result ≡ Err (BadByte at) → IsBad source.now at }
{
    let mut tokens = Vec::new(alloc);
    let mut at = 0;
    'cutting: while at < source.len() {
        let rest = &source[at..];
        let blank = blank_length(rest);
        if blank > 0 {
            at += blank;
        } else {
            let Some((kind, length)) = token_at(rest) else {
                return Err(bad_byte(at));
            };
            tokens.push(token_of(kind, at, length))?;
            at += length;
        }
    }
    Ok(tokens)
}
