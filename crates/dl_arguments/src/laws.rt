//! Laws of the definitions of the words alone. Nothing here runs: each law is the
//! contract of a function with an empty body.

ghost use Rattle.std.specs.Prelude.{◌≡◌, ◌↔◌, ℕ, List, All, Ok, Some, IsTrue};
ghost use Rattle.dl_bytes.specs.Prelude.{IsNumeral, is_numeral};
ghost use Rattle.dl_lexer.specs.Tokens.{IsWord};
ghost use Rattle.dl_limits.specs.declared.rules.Rules.{Rules};
ghost use Rattle.dl_plan.specs.declared.settings.Ask.{Ask};
ghost use Rattle.dl_plan.specs.declared.settings.Settings.{Settings};
ghost use Rattle.dl_arguments.specs.AsWritten.{AreParts};
ghost use Rattle.dl_arguments.specs.Parts.{Part, command_parts};
ghost use Rattle.dl_arguments.specs.Spelling.{is_word};
ghost use Rattle.dl_arguments.specs.Table.{SpellsAsk, ask_of};
ghost use Rattle.dl_arguments.specs.Words.{words_of};

/// By either set of rules a text is read as an ask exactly where the table of the asks has it; so no
/// text is two asks. Each ask of good words is what its text spells by the rules that they name.
#[tactic(auto, using(crate::proofs::TableLaws::table_back, crate::proofs::TableLaws::table_read, crate::proofs::RangeLaws::asks_by_rules))]
pub fn law_asks()
    ensures table { (rules : Rules) (text : List ℕ) (ask : Ask)
        → (ask_of rules text ≡ Some ask) ↔ SpellsAsk rules text ask }
    ensures words { (words : List (List ℕ)) (settings : Settings) → words_of words ≡ Ok settings
        → All (λ asked. SpellsAsk settings.rules asked.text asked.ask) settings.asks }
{}

/// The tests of a numeral and of a name pass exactly the numerals and the words of a program.
pub fn law_spellings()
    ensures numeral { (text : List ℕ) → IsTrue (is_numeral text) ↔ IsNumeral text }
    ensures word { (text : List ℕ) → IsTrue (is_word text) ↔ IsWord text }
{}

/// The parts that the words are cut into from the left are exactly those that they are written as;
/// so no words have two.
#[tactic(auto, using(crate::proofs::WrittenLaws::parts_written, crate::proofs::WrittenLaws::written_read))]
pub fn law_parts()
    ensures { (words : List (List ℕ)) (parts : List Part)
        → (command_parts words ≡ Some parts) ↔ AreParts words parts }
{}
