//! Why a parser stops.

ghost use Rattle.std.specs.Prelude.{◌≡◌, [], ◌∷◌, IfOk, IfErr};

use dl_lexer::Kind;
use std::alloc::{AllocError, AllocFailed, Global};

/// Why a parser stops.
#[derive(Debug, Drop)]
pub(crate) enum Stop {
    /// The next token, which is not of the kind that is wanted.
    Wanted(Kind),
    /// Memory ran out.
    OutOfMemory,
}

/// A list of this one alone.
pub(crate) fn only<T: Drop>(alloc: Global, part: T) -> Result<Vec<T>, Stop>
    ensures list { IfOk result (λ parts. parts.items ≡ part ∷ []) }
    ensures stop { IfErr result (λ stop. stop ≡ Stop.OutOfMemory) }
{
    let mut parts = Vec::with_capacity(alloc, 1)?;
    parts.push(part)?;
    Ok(parts)
}

impl From<AllocError> for Stop {
    ghost use Rattle.std.specs.Prelude.{◌≡◌};
    ghost use Rattle.dl_parser.specs.declared.stop.Stop.TheVariants.{OutOfMemory};

    ghost from_gives = { λ _ e. e ≡ OutOfMemory };

    fn from(_: AllocError) -> Stop {
        Stop::OutOfMemory
    }
}

impl<T: Drop> From<AllocFailed<T>> for Stop {
    ghost use Rattle.std.specs.Prelude.{◌≡◌};
    ghost use Rattle.dl_parser.specs.declared.stop.Stop.TheVariants.{OutOfMemory};

    ghost from_gives = { λ _ e. e ≡ OutOfMemory };

    fn from(_: AllocFailed<T>) -> Stop {
        Stop::OutOfMemory
    }
}
