//! One call of a partner, and how it fails.

ghost use Rattle.std.specs.Prelude.{◌≡◌};

use std::alloc::AllocError;
use std::io;
use thiserror::Error;
use uring_types::SubmitArgs;

/// The values of one enter (`io_uring_enter` of the Linux io_uring header).
#[derive(Clone, Copy, PartialEq, Eq, Debug)]
pub struct EnterCall {
    /// The registered ring's index; -1 is the raw descriptor.
    pub ring: i32,
    /// How many published entries may be taken.
    pub to_submit: u32,
    /// How many completions the caller waits for.
    pub want: u32,
    pub flags: u32,
    /// What else it is told while it waits, where the flags say that there is more.
    pub args: Option<SubmitArgs>,
}

/// Why a partner's call failed.
#[derive(Clone, Copy, PartialEq, Eq, Debug, Error)]
pub enum PartnerError {
    /// The partner is at fault, with this error number; its count of faults shows it.
    #[error("partner fault: error number {0}")]
    Fault(u32),
    #[error("no memory")]
    NoMemory,
}

impl From<AllocError> for PartnerError {
    ghost use Rattle.partner_traits.specs.declared.call.PartnerError.TheVariants.{NoMemory};

    ghost from_gives = { λ _ error. error ≡ NoMemory };

    fn from(_error: AllocError) -> PartnerError {
        PartnerError::NoMemory
    }
}

impl From<PartnerError> for io::Error {
    ghost use Rattle.partner_traits.specs.Calls.{IsToldAs};

    ghost from_gives = { IsToldAs };

    fn from(error: PartnerError) -> io::Error {
        match error {
            PartnerError::Fault(errno) => io::Error::from_raw_os_error(errno.cast_signed()),
            PartnerError::NoMemory => io::Error::from(io::ErrorKind::OutOfMemory),
        }
    }
}
