//! Why an engine's call failed.

ghost use Rattle.std.specs.Prelude.{◌≡◌};

use partner_traits::PartnerError;
use std::alloc::AllocError;
use std::fmt::{Debug, Formatter, Write};
use std::{fmt, io};
use thiserror::Error;
use uring_base::Buf;
use uring_base::errno::{EEXIST, EINVAL};
use uring_submit::SubmitError;

/// Why an operation wasn't started. The buffer comes back.
#[derive(Drop, Error)]
pub enum StartFault {
    /// The number is in flight, or resolved and unpolled.
    #[error("the number is in use")]
    KeyInUse(Option<Buf>),
    /// The submission ring was full as last seen.
    #[error("the submission ring is full")]
    RingFull(Option<Buf>),
    #[error("no memory")]
    NoMemory(Option<Buf>),
}

impl Debug for StartFault {
    fn fmt<W: Write>(&self, f: &mut Formatter<W>) -> fmt::Result {
        f.write_str(match self {
            StartFault::KeyInUse(_) => "KeyInUse(..)",
            StartFault::RingFull(_) => "RingFull(..)",
            StartFault::NoMemory(_) => "NoMemory(..)",
        })
    }
}

/// For a start that lends no buffer.
impl From<AllocError> for StartFault {
    ghost use Rattle.std.specs.Prelude.{None};
    ghost use Rattle.rent_engine.specs.declared.fault.StartFault.TheVariants.{NoMemory};

    ghost from_gives = { λ _ fault. fault ≡ NoMemory None };

    fn from(_error: AllocError) -> StartFault {
        StartFault::NoMemory(None)
    }
}

impl From<StartFault> for io::Error {
    ghost use Rattle.std.specs.IoError.{error_kind};
    ghost use Rattle.rent_engine.specs.Faults.{start_kind};

    ghost from_gives = { λ fault error. error_kind error ≡ start_kind fault };

    fn from(fault: StartFault) -> io::Error {
        io::Error::from(match fault {
            StartFault::KeyInUse(_) => io::ErrorKind::AlreadyExists,
            StartFault::RingFull(_) => io::ErrorKind::WouldBlock,
            StartFault::NoMemory(_) => io::ErrorKind::OutOfMemory,
        })
    }
}

/// Why completions weren't all taken.
#[derive(Clone, Copy, PartialEq, Eq, Debug, Error)]
pub enum EngineFault {
    /// A completion that no operation in flight may have; it was dropped.
    #[error("a completion of number {0}, which no operation in flight may have")]
    Stranger(u64),
    /// The partner is at fault, with this error number.
    #[error("partner fault: error number {0}")]
    Fault(u32),
    #[error("no memory")]
    NoMemory,
}

impl From<AllocError> for EngineFault {
    ghost use Rattle.rent_engine.specs.declared.fault.EngineFault.TheVariants.{NoMemory};

    ghost from_gives = { λ _ fault. fault ≡ NoMemory };

    fn from(_error: AllocError) -> EngineFault {
        EngineFault::NoMemory
    }
}

impl From<PartnerError> for EngineFault {
    ghost use Rattle.uring_submit.specs.Errors.{error_of};
    ghost use Rattle.rent_engine.specs.Faults.{engine_fault_of};

    ghost from_gives = { λ error fault. fault ≡ engine_fault_of (error_of error) };

    fn from(error: PartnerError) -> EngineFault {
        EngineFault::from(SubmitError::from(error))
    }
}

impl From<SubmitError> for EngineFault {
    ghost use Rattle.rent_engine.specs.Faults.{engine_fault_of};

    ghost from_gives = { λ error fault. fault ≡ engine_fault_of error };

    fn from(error: SubmitError) -> EngineFault {
        match error {
            SubmitError::Exists => EngineFault::Fault(EEXIST.cast_unsigned()),
            SubmitError::NotRegistered => EngineFault::Fault(EINVAL.cast_unsigned()),
            SubmitError::Fault(errno) => EngineFault::Fault(errno),
            SubmitError::NoMemory => EngineFault::NoMemory,
        }
    }
}

impl From<EngineFault> for io::Error {
    ghost use Rattle.rent_engine.specs.Faults.{EngineFaultIsToldAs};

    ghost from_gives = { EngineFaultIsToldAs };

    fn from(fault: EngineFault) -> io::Error {
        match fault {
            EngineFault::Stranger(_) => io::Error::from(io::ErrorKind::InvalidData),
            EngineFault::Fault(errno) => io::Error::from_raw_os_error(errno.cast_signed()),
            EngineFault::NoMemory => io::Error::from(io::ErrorKind::OutOfMemory),
        }
    }
}
