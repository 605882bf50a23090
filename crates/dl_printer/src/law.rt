//! Laws of the definition of the canonical text. Each law is the contract of a function
//! that does nothing.

ghost use Rattle.std.specs.Prelude.{◌≡◌, List, length};
ghost use Rattle.dl_lexer.specs.declared.token.Token.{Token};
ghost use Rattle.dl_lexer.specs.Cutting.{Covers};
ghost use Rattle.dl_ast.specs.declared.ast.Program.{Program};
ghost use Rattle.dl_ast.specs.Prelude.{lexemes, Spells, program, IsWellFormed};
ghost use Rattle.dl_printer.specs.Canonical.{canonical};
ghost use Rattle.dl_printer.specs.Apart.{SameProgram};
ghost use Rattle.dl_printer.specs.ReadingBack.{ReadsBack};

/// The canonical text of a well-formed program has a token list, which spells the same program
/// apart from spans. Where the text has fewer than 2^32 bytes, the places of these tokens are
/// `u32`s.
#[tactic(auto, using(crate::proofs::Cut::reads_back))]
pub fn law_reads_back()
    ensures { (p : Program) → IsWellFormed p → ReadsBack p }
{}

/// It has no other token list and spells no other program: what is read is the same program apart
/// from spans, and prints as the same text. So a canonical text determines its program apart from
/// spans.
pub fn law_reads_nothing_else()
    ensures read { (p q : Program) (tokens : List Token) → IsWellFormed p
        → Covers (canonical p) (length (canonical p)) tokens
        → Spells program q (lexemes (canonical p) tokens) → SameProgram q p }
    ensures again { (p q : Program) (tokens : List Token) → IsWellFormed p
        → Covers (canonical p) (length (canonical p)) tokens
        → Spells program q (lexemes (canonical p) tokens) → canonical q ≡ canonical p }
    ensures texts { (p q : Program) → IsWellFormed p → IsWellFormed q → canonical p ≡ canonical q
        → SameProgram p q }
{}

/// Programs that differ in their spans alone have one canonical text.
#[tactic(auto, using(crate::proofs::SameText::same_text))]
pub fn law_same_text()
    ensures { (p q : Program) → SameProgram p q → canonical p ≡ canonical q }
{}
