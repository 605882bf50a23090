//! Why asks are refused.

use std::alloc::AllocError;
use thiserror::Error;

/// Why asks are refused. Asks are counted from 0.
#[derive(Clone, Copy, Debug, PartialEq, Eq, Error)]
pub enum EvalFault {
    /// This ask is the first that lies past the grid.
    #[error("an ask lies beyond the grid")]
    AskBeyond(u32),
    /// This ask is the first that names no unit of the plan.
    #[error("an ask names no unit")]
    UnknownUnit(u32),
    /// This ask is the first for a share of the tail mean, and the units share a factor.
    #[error("no share of a tail mean under a common factor")]
    NoShare(u32),
    /// This ask is the first that needs more width than the settings give, and it needs this width.
    #[error("an ask needs more width")]
    TooWide(u32, u128),
    /// A grid or the report found no room.
    #[error("out of memory")]
    OutOfMemory,
}

impl From<AllocError> for EvalFault {
    ghost use Rattle.dl_answers.specs.declared.fault.EvalFault.TheVariants.{OutOfMemory};
    ghost use Rattle.std.specs.Prelude.{◌≡◌};

    ghost from_gives = { λ _ fault. fault ≡ OutOfMemory };

    fn from(_error: AllocError) -> EvalFault {
        EvalFault::OutOfMemory
    }
}
