//! Why there is no certificate, or no grid of one.

use std::alloc::AllocError;
use thiserror::Error;

/// Why a plan has no certificate.
#[derive(Clone, Copy, Debug, PartialEq, Eq, Error)]
pub enum CertFault {
    /// The unit of this number, counted from 0, is the first that is not covered; 0 also where the
    /// units share a factor.
    #[error("a unit is not covered")]
    NotCovered(u32),
    /// The steps found no room.
    #[error("out of memory")]
    OutOfMemory,
}

impl From<AllocError> for CertFault {
    ghost use Rattle.dl_cert.specs.declared.fault.CertFault.TheVariants.{OutOfMemory};
    ghost use Rattle.std.specs.Prelude.{◌≡◌};

    ghost from_gives = { λ _ fault. fault ≡ OutOfMemory };

    fn from(_error: AllocError) -> CertFault {
        CertFault::OutOfMemory
    }
}

/// Why steps are not verified.
#[derive(Clone, Copy, Debug, PartialEq, Eq, Error)]
pub enum VerifyFault {
    /// The unit of this number, counted from 0, is the first that is not covered; 0 also where the
    /// units share a factor.
    #[error("a unit is not covered")]
    NotCovered(u32),
    /// The step of this number, counted from 0, is the first bad one; or it is the number of all
    /// steps, and they do not end at the plan's total.
    #[error("a step is not verified")]
    BadStep(u32),
    /// The cells of steps found no room.
    #[error("out of memory")]
    OutOfMemory,
}

impl From<AllocError> for VerifyFault {
    ghost use Rattle.dl_cert.specs.declared.fault.VerifyFault.TheVariants.{OutOfMemory};
    ghost use Rattle.std.specs.Prelude.{◌≡◌};

    ghost from_gives = { λ _ fault. fault ≡ OutOfMemory };

    fn from(_error: AllocError) -> VerifyFault {
        VerifyFault::OutOfMemory
    }
}
