//! Severities with names: the mixture that a reference names, and the rule on their names.

ghost use Rattle.std.specs.Prelude.{◌≡◌, ◌<◌, ◌^◌, [], None, Some, IfSome, IfNone, length};
ghost use Rattle.dl_reading.specs.First.{in_turn};
ghost use Rattle.dl_rules.specs.Answer.{HasFault};
ghost use Rattle.dl_rules.specs.Faults.{fault_of_severity};
ghost use Rattle.dl_rules.specs.Severities.{named, body_span};

use crate::fault::CheckFault;
use crate::names::check_name;
use crate::rule::Rule;
use dl_ast::{MixAst, SevBody, SevDef};
use dl_lexer::Span;
use indexmap::IndexSet;
use std::alloc::Global;

/// The mixture of the first of these severities that has this name.
pub(crate) fn named<'a>(sevs: &'a [SevDef], name: &[u8]) -> Option<&'a MixAst>
    ensures found { IfSome result (λ mix. named sevs.now name.now ≡ Some mix.now) }
    ensures none { IfNone result (named sevs.now name.now ≡ None) }
{
    for sev in sevs {
        if sev.name.text.as_slice() == name {
            return Some(&sev.mix);
        }
    }
    None
}

/// Where a severity is written in its unit: the place of its mixture, or of its reference.
pub(crate) fn body_span(body: &SevBody) -> Span
    ensures { result ≡ body_span body.now }
{
    match body {
        SevBody::Mixture(mix) => mix.span,
        SevBody::Ref(name) => name.span,
    }
}

/// The rule on the names of severities.
pub(crate) fn check_severities(alloc: Global, sevs: &[SevDef]) -> Result<(), CheckFault>
    requires few { length sevs.now < 2 ^ 32 }
    ensures { HasFault (in_turn fault_of_severity [] sevs.now) result }
{
    let mut names = IndexSet::new(alloc);
    check_names(&mut names, sevs)
}

/// The rule on the names of severities, where no name is taken up yet.
fn check_names<'a>(names: &mut IndexSet<&'a [u8]>, sevs: &'a [SevDef]) -> Result<(), CheckFault>
    requires names { names.old.keys ≡ [] }
    requires few { length sevs.now < 2 ^ 32 }
    ensures { HasFault (in_turn fault_of_severity [] sevs.now) result }
{
    'sevs: for (at, sev) in sevs.iter().enumerate() {
        check_name(at as u32, Rule::DuplicateSeverity, names, &sev.name)?;
    }
    Ok(())
}
