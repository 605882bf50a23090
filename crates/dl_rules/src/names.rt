//! Names, taken up in the order of the text.

ghost use Rattle.std.specs.Prelude.{◌≡◌, ◌∷◌, ◌++◌, [], OnOk, map};
ghost use Rattle.dl_rules.specs.Answer.{HasFault};
ghost use Rattle.dl_rules.specs.Faults.{breaks};
ghost use Rattle.dl_rules.specs.Rules.{repeated};

use crate::broken::broken;
use crate::fault::CheckFault;
use crate::rule::Rule;
use dl_ast::NameAst;
use dl_reading::span_if;
use indexmap::IndexSet;

/// Takes a name up among those before it. The rule is broken where it is one of them.
pub(crate) fn check_name<'a>(
    number: u32,
    rule: Rule,
    names: &mut IndexSet<&'a [u8]>,
    name: &'a NameAst,
) -> Result<(), CheckFault>
    ensures fault { HasFault (breaks number rule
        (repeated (map (λ key. key.now) names.old.keys) name.now)) result }
    ensures names { OnOk result (map (λ key. key.now) names.new.keys
        ≡ map (λ key. key.now) names.old.keys ++ name.now.text ∷ []) }
{
    let is_new = names.insert(name.text.as_slice())?;
    broken(number, rule, span_if(!is_new, name.span))
}
