//! Reads a program from the tokens of a text. Tokens spell one program and no other, or they are
//! refused at the first one with which no program goes on.
//!
//! `parse` gives the program that the tokens spell, or the greatest number of tokens that begin a
//! program (`spelled`, `refused`). The same tokens spell no other program (`law_one_program`), and
//! stop at one place only (`law_one_stop`). The lines that the parser reads in another form spell
//! the same as they are written (`law_as_written`).
#![tactic(auto)]

ghost use Rattle.std.specs.Prelude.{◌≡◌, ℕ, List};
ghost use Rattle.dl_ast.specs.declared.ast.Program.{Program};
ghost use Rattle.dl_ast.specs.Prelude.{Lexeme, Spells, item, mixture, cession, exposure, unit, program, sevdef};
ghost use Rattle.dl_parser.specs.Factored as factored;
ghost use Rattle.dl_parser.specs.Factored.{SpellAlike};
ghost use Rattle.dl_parser.specs.Viable.{Stops};

mod cede;
mod cursor;
mod layers;
mod lists;
mod parts;
mod severity;
mod stop;
pub mod syntax;
mod take;
mod units;

pub use syntax::{ParseFault, parse};

/// The same tokens spell at most one program.
#[tactic(auto, using(crate::proofs::Whole::one_program))]
pub fn law_one_program()
    ensures { (p q : Program) (ts : List Lexeme) → Spells program p ts → Spells program q ts
        → p ≡ q }
{}

/// Tokens stop at one place at most.
#[tactic(auto, using(crate::proofs::Whole::one_stop))]
pub fn law_one_stop()
    ensures { (ts : List Lexeme) (j k : ℕ) → Stops ts j → Stops ts k → j ≡ k }
{}

/// The lines that the parser reads with their shared beginnings read once spell the same as they
/// are written, and so does the whole grammar.
#[tactic(auto, using(crate::proofs::Written::item_alike, crate::proofs::Written::mixture_alike, crate::proofs::Written::definition_alike, crate::proofs::Written::cession_alike, crate::proofs::Written::exposure_alike, crate::proofs::Written::unit_alike, crate::proofs::Written::program_alike))]
pub fn law_as_written()
    ensures item { SpellAlike factored.item item }
    ensures mixture { SpellAlike factored.mixture mixture }
    ensures definition { SpellAlike factored.sevdef sevdef }
    ensures cession { SpellAlike factored.cession cession }
    ensures exposure { SpellAlike factored.exposure exposure }
    ensures unit { SpellAlike factored.unit unit }
    ensures program { SpellAlike factored.program program }
{}
