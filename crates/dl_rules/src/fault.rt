//! Why a program has no plan.

use crate::rule::Rule;
use dl_lexer::Span;
use std::alloc::{AllocError, AllocFailed};
use thiserror::Error;

/// The first broken rule.
#[derive(Clone, Copy, Debug, PartialEq, Eq)]
pub struct TypeFault {
    /// The number of the unit, counted from 0.
    pub unit: u32,
    /// The rule that it breaks.
    pub rule: Rule,
    /// The span in the text.
    pub span: Span,
}

/// Why a program has no plan.
#[derive(Clone, Copy, Debug, PartialEq, Eq, Error)]
pub enum CheckFault {
    /// A typing rule is broken.
    #[error("a typing rule is broken")]
    Typing(TypeFault),
    /// The plan found no room.
    #[error("out of memory")]
    OutOfMemory,
}

impl<T: Drop> From<AllocFailed<T>> for CheckFault {
    ghost use Rattle.std.specs.Prelude.{◌≡◌};
    ghost use Rattle.dl_rules.specs.declared.fault.CheckFault.TheVariants.{OutOfMemory};

    ghost from_gives = { λ _ fault. fault ≡ OutOfMemory };

    fn from(_failed: AllocFailed<T>) -> CheckFault {
        CheckFault::OutOfMemory
    }
}

impl From<AllocError> for CheckFault {
    ghost use Rattle.std.specs.Prelude.{◌≡◌};
    ghost use Rattle.dl_rules.specs.declared.fault.CheckFault.TheVariants.{OutOfMemory};

    ghost from_gives = { λ _ fault. fault ≡ OutOfMemory };

    fn from(_error: AllocError) -> CheckFault {
        CheckFault::OutOfMemory
    }
}
