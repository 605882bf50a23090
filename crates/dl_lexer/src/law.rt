//! Laws of tokens: what holds of every text. Each law is the contract of a function that does
//! nothing.

ghost use Rattle.std.specs.Prelude.{◌≡◌, ◌≤◌, ℕ, List, length};
ghost use Rattle.dl_lexer.specs.Cutting.{Covers, IsBad};
ghost use Rattle.dl_lexer.specs.Keywords.{spelling};
ghost use Rattle.dl_lexer.specs.Tokens.{IsSpelled};

use crate::token::{Keyword, Kind, Token};

/// No two keywords are written alike.
#[tactic(auto, using(crate::proofs::Spellings::spelling_one))]
pub fn one_keyword()
    ensures { (a b : Keyword) → spelling a ≡ spelling b → a ≡ b }
{}

/// Bytes spell a token of at most one kind.
#[tactic(auto, using(crate::proofs::TokenKinds::kind_one))]
pub fn one_kind()
    ensures { (a b : Kind) (bytes : List ℕ) → IsSpelled a bytes → IsSpelled b bytes → a ≡ b }
{}

/// A text has at most one list of tokens that covers it, up to any place.
#[tactic(auto, using(crate::proofs::CoverLaws::cover_one))]
pub fn one_cover()
    ensures { (bytes : List ℕ) (end : ℕ) (a b : List Token) → Covers bytes end a
        → Covers bytes end b
        → a ≡ b }
{}

/// A text that is covered has no bad place.
pub fn covered_is_not_bad()
    ensures { (bytes : List ℕ) (tokens : List Token) (at : ℕ) → Covers bytes (length bytes) tokens
        → IsBad bytes at → ⊥ }
{}

/// A text has at most one bad place, and the cutting reaches none behind it.
pub fn one_bad_byte()
    ensures one { (bytes : List ℕ) (a b : ℕ) → IsBad bytes a → IsBad bytes b → a ≡ b }
    ensures last { (bytes : List ℕ) (at end : ℕ) (tokens : List Token) → IsBad bytes at
        → Covers bytes end tokens → end ≤ at }
{}
