//! Why a step of a severity is refused.

use std::alloc::AllocError;
use thiserror::Error;

/// Why a severity was not conditioned.
#[derive(Clone, Copy, Debug, PartialEq, Eq, Error)]
pub enum AboveFault {
    /// No amount exceeds the attachment.
    #[error("no amount exceeds the attachment")]
    NoneAbove,
    /// The items found no room.
    #[error("out of memory")]
    OutOfMemory,
}

impl From<AllocError> for AboveFault {
    ghost use Rattle.dl_severity.specs.declared.fault.AboveFault.TheVariants.{OutOfMemory};
    ghost use Rattle.std.specs.Prelude.{◌≡◌};

    ghost from_gives = { λ _ fault. fault ≡ OutOfMemory };

    fn from(_error: AllocError) -> AboveFault {
        AboveFault::OutOfMemory
    }
}

/// Why a clause did not map each amount.
#[derive(Clone, Copy, Debug, PartialEq, Eq, Error)]
pub enum CedeFault {
    /// An amount is mapped to no whole number of buckets.
    #[error("an amount is mapped to no whole number of buckets")]
    OffGrid,
    /// The items found no room.
    #[error("out of memory")]
    OutOfMemory,
}

impl From<AllocError> for CedeFault {
    ghost use Rattle.dl_severity.specs.declared.fault.CedeFault.TheVariants.{OutOfMemory};
    ghost use Rattle.std.specs.Prelude.{◌≡◌};

    ghost from_gives = { λ _ fault. fault ≡ OutOfMemory };

    fn from(_error: AllocError) -> CedeFault {
        CedeFault::OutOfMemory
    }
}

/// Why probabilities have no whole weights.
#[derive(Clone, Copy, Debug, PartialEq, Eq, Error)]
pub enum WeighFault {
    /// Their common denominator passes the bound.
    #[error("the common denominator of the probabilities passes its bound")]
    TooFine,
    /// They do not sum to 1.
    #[error("the probabilities do not sum to 1")]
    NotOne,
    /// The items found no room.
    #[error("out of memory")]
    OutOfMemory,
}

impl From<AllocError> for WeighFault {
    ghost use Rattle.dl_severity.specs.declared.fault.WeighFault.TheVariants.{OutOfMemory};
    ghost use Rattle.std.specs.Prelude.{◌≡◌};

    ghost from_gives = { λ _ fault. fault ≡ OutOfMemory };

    fn from(_error: AllocError) -> WeighFault {
        WeighFault::OutOfMemory
    }
}

/// Why atoms were not mixed.
#[derive(Clone, Copy, Debug, PartialEq, Eq, Error)]
pub enum MixFault {
    /// The products of a weight and an atom's probability have a common denominator above the bound.
    #[error("the common denominator of the mixed probabilities passes its bound")]
    TooFine,
    /// The items found no room.
    #[error("out of memory")]
    OutOfMemory,
}

impl From<AllocError> for MixFault {
    ghost use Rattle.dl_severity.specs.declared.fault.MixFault.TheVariants.{OutOfMemory};
    ghost use Rattle.std.specs.Prelude.{◌≡◌};

    ghost from_gives = { λ _ fault. fault ≡ OutOfMemory };

    fn from(_error: AllocError) -> MixFault {
        MixFault::OutOfMemory
    }
}

/// Why values are no amounts.
#[derive(Clone, Copy, Debug, PartialEq, Eq, Error)]
pub enum AmountFault {
    /// The value at this place is no whole number of buckets.
    #[error("value {0} is no whole number of buckets")]
    OffGrid(u32),
    /// The value at this place passes the greatest amount.
    #[error("value {0} passes the greatest amount")]
    TooFar(u32),
    /// The items found no room.
    #[error("out of memory")]
    OutOfMemory,
}

impl From<AllocError> for AmountFault {
    ghost use Rattle.dl_severity.specs.declared.fault.AmountFault.TheVariants.{OutOfMemory};
    ghost use Rattle.std.specs.Prelude.{◌≡◌};

    ghost from_gives = { λ _ fault. fault ≡ OutOfMemory };

    fn from(_error: AllocError) -> AmountFault {
        AmountFault::OutOfMemory
    }
}

/// Why a list was not expanded.
#[derive(Clone, Copy, Debug, PartialEq, Eq, Error)]
pub enum ExpandFault {
    /// There are more values than may be.
    #[error("there are too many values")]
    TooLong,
    /// The items found no room.
    #[error("out of memory")]
    OutOfMemory,
}

impl From<AllocError> for ExpandFault {
    ghost use Rattle.dl_severity.specs.declared.fault.ExpandFault.TheVariants.{OutOfMemory};
    ghost use Rattle.std.specs.Prelude.{◌≡◌};

    ghost from_gives = { λ _ fault. fault ≡ OutOfMemory };

    fn from(_error: AllocError) -> ExpandFault {
        ExpandFault::OutOfMemory
    }
}
