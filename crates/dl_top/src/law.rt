//! Laws of the definitions alone. Nothing here runs.

ghost use Rattle.std.specs.Prelude.{ℕ, List};
ghost use Rattle.dl_plan.specs.declared.plan.Plan.{Plan};
ghost use Rattle.dl_plan.specs.declared.settings.Settings.{Settings};
ghost use Rattle.dl_report.specs.declared.report.Report.{Report};
ghost use Rattle.dl_top.specs.Answers.{IsVerifiable};
ghost use Rattle.dl_top.specs.Repeated.{IsHandedOn};
ghost use Rattle.dl_top.specs.Determined.{MayWrite, DeterminesRows};

/// The bytes of a report determine its rows, in each of the three forms: two reports that may be
/// written for the same words and input, with one plan, have the same bytes only where they have
/// the same rows.
pub fn law_rows_determined()
    ensures { (words : List (List ℕ)) (input : List ℕ) (settings : Settings) (plan : Plan)
        (a b : Report) → MayWrite words input settings plan a
        → MayWrite words input settings plan b → DeterminesRows settings plan a b }
{}

/// What `cert` writes is verified: words that want steps checked on the same grid, and an input
/// with the same program and what was written, end in `verified` (`verified` of `run`).
pub fn law_written_verifies()
    ensures { (words : List (List ℕ)) (input text : List ℕ) (words' : List (List ℕ))
        (input' : List ℕ) → IsHandedOn words input text words' input'
        → IsVerifiable words' input' }
{}
