//! The faults of the words.

use std::alloc::{AllocError, AllocFailed};
use thiserror::Error;

/// A fault of the words.
#[derive(Clone, Copy, Debug, PartialEq, Eq, Error)]
pub enum UsageFault {
    /// The words do not fit the command, or a value is not in its range.
    #[error("the words do not fit the command")]
    Line,
    /// This ask, counted from 0, is the first that is not spelled as one.
    #[error("ask {0} is not an ask")]
    Ask(u32),
}

/// Why the words gave no settings.
#[derive(Clone, Copy, Debug, PartialEq, Eq, Error)]
pub enum WordsFault {
    /// The words have this fault.
    #[error("the words have a fault")]
    Usage(UsageFault),
    /// The settings found no room.
    #[error("out of memory")]
    OutOfMemory,
}

impl From<AllocError> for WordsFault {
    ghost use Rattle.dl_arguments.specs.declared.fault.WordsFault.TheVariants.{OutOfMemory};
    ghost use Rattle.std.specs.Prelude.{◌≡◌};

    ghost from_gives = { λ _ fault. fault ≡ OutOfMemory };

    fn from(_error: AllocError) -> WordsFault {
        WordsFault::OutOfMemory
    }
}

impl<T: Drop> From<AllocFailed<T>> for WordsFault {
    ghost use Rattle.dl_arguments.specs.declared.fault.WordsFault.TheVariants.{OutOfMemory};
    ghost use Rattle.std.specs.Prelude.{◌≡◌};

    ghost from_gives = { λ _ fault. fault ≡ OutOfMemory };

    fn from(_failed: AllocFailed<T>) -> WordsFault {
        WordsFault::OutOfMemory
    }
}
