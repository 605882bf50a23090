//! The place of what breaks a rule.

ghost use Rattle.std.specs.Prelude.{◌≡◌};
ghost use Rattle.dl_reading.specs.First.{at_if};

use dl_lexer::Span;

/// The span, where the test passes.
pub fn span_if(test: bool, span: Span) -> Option<Span>
    ensures { result ≡ at_if test span }
{
    if test { Some(span) } else { None }
}
