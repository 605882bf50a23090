//! Two parts that are read one behind the other.

ghost use Rattle.std.specs.Prelude.{◌≡◌, Ok, Err, IfOk, IfErr};

/// Two parts that were read one behind the other. Where the second one was not read, the first is
/// dropped here, so that a caller that returns the error owns nothing.
///
/// # Errors
///
/// Those of the second part.
pub fn pair_of<A: Drop, B, E>(first: A, second: Result<B, E>) -> Result<(A, B), E>
    ensures first { IfOk result (λ pair. pair.0 ≡ first) }
    ensures second { IfOk result (λ pair. second ≡ Ok pair.1) }
    ensures fault { IfErr result (λ fault. second ≡ Err fault) }
{
    match second {
        Ok(second) => Ok((first, second)),
        Err(fault) => Err(fault),
    }
}
