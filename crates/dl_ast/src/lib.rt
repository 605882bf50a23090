//! The syntax of a program: its types, with the bytes of the text of each node; the
//! grammar that says which tokens spell which program; and what a well-formed program is. Nothing
//! here reads a text: each law is the contract of a function with an empty body.
//!
//! The grammar is that of docs/LANGUAGE.md. What real tokens spell is well formed
//! (`law_well_formed`), and what they spell by the grammar without named severities, `geometric`,
//! `zt`, `zm` and `common` they spell by the whole grammar (`law_old_texts`).
#![tactic(auto)]

ghost use Rattle.std.specs.Prelude.{◌≡◌, ◌<◌, ◌^◌, ℕ, List, [], All, length};
ghost use Rattle.dl_lexer.specs.declared.token.Kind.{Kind};
ghost use Rattle.dl_lexer.specs.Tokens.{IsSpelled};
ghost use Rattle.dl_ast.specs.Lexemes.{Lexeme, IsReal};
ghost use Rattle.dl_ast.specs.Rules.{Spells};
ghost use Rattle.dl_ast.specs.Grammar.{program};
ghost use Rattle.dl_ast.specs.OldGrammar as old;
ghost use Rattle.dl_ast.specs.WellFormed.{IsWellFormed};

pub mod ast;

pub use ast::{
    Atom, CededLayer, Cession, CountAst, Exposure, FreqAst, Layer, LimitAst, ListAst, ListItem,
    MixAst, NameAst, Numeral, PortHead, Program, SevAst, SevBody, SevDef, Share, UnitAst, ZeroAst,
};
pub use dl_lexer::Items;

/// Each kind has a token: some text is spelled so.
pub fn law_each_kind()
    ensures { (k : Kind) → (text : List ℕ) × IsSpelled k text }
{}

/// A program that fewer than 2^32 real tokens spell is well formed.
pub fn law_well_formed()
    ensures { (p : Program) (ts : List Lexeme) → All IsReal ts → length ts < 2 ^ 32
        → Spells program p ts → IsWellFormed p }
{}

/// A program that tokens spell by the grammar without named severities, `geometric`, `zt`, `zm` and
/// `common` is what they spell by the whole grammar too, and it names no severity.
pub fn law_old_texts()
    ensures spelled { (p : Program) (ts : List Lexeme) → Spells old.program p ts
        → Spells program p ts }
    ensures no_names { (p : Program) (ts : List Lexeme) → Spells old.program p ts → p.sevs ≡ [] }
{}
