//! The canonical text of a program: one spelling of its syntax, with names, numerals and notes as
//! they were written.
//!
//! `print` gives the canonical text, which is defined over the program's tokens and the gap between
//! two neighbours. That text has one token list, which spells the same program apart from places
//! (`law_reads_back`), and no other (`law_reads_nothing_else`), and programs that differ in their
//! places alone have one canonical text (`law_same_text`): so formatting what was formatted changes
//! nothing.
#![tactic(auto)]

ghost use Rattle.std.specs.Prelude.{◌≡◌, IfOk};
ghost use Rattle.dl_ast.specs.WellFormed.{IsWellFormed};
ghost use Rattle.dl_printer.specs.Canonical.{canonical};

mod law;
mod layers;
mod lists;
mod parts;
mod printer;
mod severity;
mod units;

use crate::printer::Printer;
use dl_ast::Program;
pub use law::{law_reads_back, law_reads_nothing_else, law_same_text};
use std::alloc::{AllocError, Global};

/// The canonical text of a program: `claims`, `premium` and `dsev`, no commas, one blank between
/// tokens but none inside brackets and round `:`, a line for each named severity, for the head of a
/// portfolio and for each unit, and a newline at the end.
#[tactic(auto, using(crate::proofs::Growing::with_text), unfolding(crate::specs::Canonical::canonical))]
pub fn print(alloc: Global, program: &Program) -> Result<Vec<u8>, AllocError>
    requires formed { IsWellFormed program.now }
    ensures { IfOk result (λ text. text.items ≡ canonical program.now) }
{
    let mut printer = Printer::new(alloc);
    printer.program(program)?;
    printer.finish()
}
