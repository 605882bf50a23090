//! A rule that a unit breaks, and the value that is handed on where it breaks none.

ghost use Rattle.std.specs.Prelude.{◌≡◌, ◌<◌, Option, None, Some, IfOk, OnOk, Ok, Err};
ghost use Rattle.dl_rules.specs.Faults.{breaks};
ghost use Rattle.dl_rules.specs.Answer.{HasFault};
ghost use Rattle.dl_rules.specs.declared.fault.TypeFault.{TypeFault as FaultOfTypes};
ghost use Rattle.dl_rules.specs.declared.fault.CheckFault.TheVariants.{Typing};

use crate::fault::{CheckFault, TypeFault};
use crate::rule::Rule;
use dl_lexer::Span;

/// A broken rule of a unit.
pub(crate) fn typing(unit: u32, rule: Rule, span: Span) -> CheckFault
    ensures { result ≡ Typing (record { unit = unit; rule = rule; span = span }) }
{
    CheckFault::Typing(TypeFault { unit, rule, span })
}

/// A unit breaks a rule where there is a place.
pub(crate) fn broken(unit: u32, rule: Rule, span: Option<Span>) -> Result<(), CheckFault>
    ensures { HasFault (breaks unit rule span) result }
{
    match span {
        Some(span) => Err(typing(unit, rule, span)),
        None => Ok(()),
    }
}

/// The value where the rules on it are kept. Where one is broken the value is dropped here, so that
/// a check owns nothing on its ways out.
pub(crate) fn unless_broken<T: Drop>(
    value: T,
    rules: Result<(), CheckFault>,
) -> Result<T, CheckFault>
    ensures fault { (fault : Option FaultOfTypes) → HasFault fault rules
        → HasFault fault result }
    ensures same { IfOk result (λ made. made ≡ value) }
    ensures kept { OnOk result (rules ≡ Ok tt) }
{
    rules?;
    Ok(value)
}
