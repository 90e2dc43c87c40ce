//! Why a submitter's call failed.

ghost use Rattle.std.specs.Prelude.{◌≡◌};

use partner_traits::PartnerError;
use std::alloc::AllocError;
use std::io;
use thiserror::Error;
use uring_base::errno::{EEXIST, EINVAL};

/// Why a submitter's call failed.
#[derive(Clone, Copy, PartialEq, Eq, Debug, Error)]
pub enum SubmitError {
    /// A ring descriptor is registered already (`EEXIST`).
    #[error("a ring descriptor is registered already")]
    Exists,
    /// No ring descriptor is registered (`EINVAL`).
    #[error("no ring descriptor is registered")]
    NotRegistered,
    /// The partner is at fault, with this error number; its count of faults shows it.
    #[error("partner fault: error number {0}")]
    Fault(u32),
    #[error("no memory")]
    NoMemory,
}

impl From<AllocError> for SubmitError {
    ghost use Rattle.uring_submit.specs.declared.error.SubmitError.TheVariants.{NoMemory};

    ghost from_gives = { λ _ error. error ≡ NoMemory };

    fn from(_error: AllocError) -> SubmitError {
        SubmitError::NoMemory
    }
}

impl From<PartnerError> for SubmitError {
    ghost use Rattle.uring_submit.specs.Errors.{error_of};

    ghost from_gives = { λ error given. given ≡ error_of error };

    fn from(error: PartnerError) -> SubmitError {
        match error {
            PartnerError::Fault(errno) => SubmitError::Fault(errno),
            PartnerError::NoMemory => SubmitError::NoMemory,
        }
    }
}

impl From<SubmitError> for io::Error {
    ghost use Rattle.uring_submit.specs.Errors.{SubmitErrorIsToldAs};

    ghost from_gives = { SubmitErrorIsToldAs };

    fn from(error: SubmitError) -> io::Error {
        match error {
            SubmitError::Exists => io::Error::from_raw_os_error(EEXIST),
            SubmitError::NotRegistered => io::Error::from_raw_os_error(EINVAL),
            SubmitError::Fault(errno) => io::Error::from_raw_os_error(errno.cast_signed()),
            SubmitError::NoMemory => io::Error::from(io::ErrorKind::OutOfMemory),
        }
    }
}
