//! Laws of the settings that words spell. Nothing here runs: each law is the contract of
//! a function with an empty body.

ghost use Rattle.std.specs.Prelude.{◌≡◌, ◌≤◌, List, ℕ, All, IsUtf8, Ok};
ghost use Rattle.dl_plan.specs.declared.settings.Settings.{Settings};
ghost use Rattle.dl_plan.specs.Prelude.{AreInRange, IsOfCert, IsPlainByte};
ghost use Rattle.dl_arguments.specs.Words.{words_of};
ghost use Rattle.dl_arguments.specs.Options.{most_cert_log2};

/// The settings of good words lie in their ranges, each ask is UTF-8 where each word is, and a plan
/// that is to have a certificate has few cells.
pub fn law_ranges()
    ensures ranges { (words : List (List ℕ)) (settings : Settings)
        → words_of words ≡ Ok settings → AreInRange settings }
    ensures texts { (words : List (List ℕ)) (settings : Settings) → All IsUtf8 words
        → words_of words ≡ Ok settings → All (λ asked. IsUtf8 asked.text) settings.asks }
    ensures cells { (words : List (List ℕ)) (settings : Settings)
        → words_of words ≡ Ok settings → IsOfCert settings.form
        → settings.log2 ≤ most_cert_log2 }
{}

/// Each ask of good words is written with plain bytes alone, whatever bytes the words have. So a
/// report with these asks can be read back from its text, from its records and from its JSON.
#[tactic(auto, using(crate::proofs::PlainAsks::asks_are_plain))]
pub fn law_plain_asks()
    ensures { (words : List (List ℕ)) (settings : Settings)
        → words_of words ≡ Ok settings → All (λ asked. All IsPlainByte asked.text) settings.asks }
{}
