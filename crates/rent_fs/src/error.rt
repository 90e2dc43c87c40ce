//! Why work on files failed.

ghost use Rattle.std.specs.Prelude.{◌≡◌};

use rent_engine::{EngineFault, StartFault};
use std::alloc::AllocError;
use std::io;
use thiserror::Error;

/// Why work on files failed.
#[derive(Clone, Copy, PartialEq, Eq, Debug, Error)]
pub enum FsError {
    /// The operation answered this error number, below 0, or the partner failed with it.
    #[error("error number {0}")]
    Os(u32),
    /// A whole buffer was to be read, and the file ended.
    #[error("the file ended before the buffer was full")]
    UnexpectedEof,
    /// A whole buffer was to be written, and nothing was.
    #[error("nothing of the buffer was written")]
    WriteZero,
    /// A whole buffer was interrupted too often.
    #[error("interrupted too often")]
    Interrupted,
    /// More was told than was asked for, or another buffer came back.
    #[error("more was told than was asked for, or another buffer came back")]
    BadCount,
    /// No part of a path that was to be created has a parent.
    #[error("no part of the path has a parent")]
    WholeTree,
    /// The metadata have no time of birth.
    #[error("the metadata have no time of birth")]
    NoBirthTime,
    /// The state's number is in flight, or resolved and unpolled.
    #[error("the number is in use")]
    KeyInUse,
    /// The engine doesn't know the state's operation, or gave no buffer back.
    #[error("the engine doesn't know the operation, or gave no buffer back")]
    KeyLost,
    /// The submission ring was full as last seen.
    #[error("the submission ring is full")]
    RingFull,
    /// A completion that no operation in flight may have; it was dropped.
    #[error("a completion of number {0}, which no operation in flight may have")]
    Stranger(u64),
    #[error("no memory")]
    NoMemory,
}

impl From<AllocError> for FsError {
    ghost use Rattle.rent_fs.specs.declared.error.FsError.TheVariants.{NoMemory};

    ghost from_gives = { λ _ error. error ≡ NoMemory };

    fn from(_error: AllocError) -> FsError {
        FsError::NoMemory
    }
}

/// The buffer that wasn't lent is dropped.
impl From<StartFault> for FsError {
    ghost use Rattle.rent_fs.specs.Errors.{start_error_of};

    ghost from_gives = { λ fault error. error ≡ start_error_of fault };

    fn from(fault: StartFault) -> FsError {
        match fault {
            StartFault::KeyInUse(_) => FsError::KeyInUse,
            StartFault::RingFull(_) => FsError::RingFull,
            StartFault::NoMemory(_) => FsError::NoMemory,
        }
    }
}

impl From<EngineFault> for FsError {
    ghost use Rattle.rent_fs.specs.Errors.{engine_error_of};

    ghost from_gives = { λ fault error. error ≡ engine_error_of fault };

    fn from(fault: EngineFault) -> FsError {
        match fault {
            EngineFault::Stranger(number) => FsError::Stranger(number),
            EngineFault::Fault(errno) => FsError::Os(errno),
            EngineFault::NoMemory => FsError::NoMemory,
        }
    }
}

impl From<FsError> for io::Error {
    ghost use Rattle.rent_fs.specs.Errors.{FsErrorIsToldAs};

    ghost from_gives = { FsErrorIsToldAs };

    fn from(error: FsError) -> io::Error {
        match error {
            FsError::Os(errno) => io::Error::from_raw_os_error(errno.cast_signed()),
            FsError::UnexpectedEof => io::Error::from(io::ErrorKind::UnexpectedEof),
            FsError::WriteZero => io::Error::from(io::ErrorKind::WriteZero),
            FsError::Interrupted => io::Error::from(io::ErrorKind::Interrupted),
            FsError::BadCount => io::Error::from(io::ErrorKind::InvalidData),
            FsError::WholeTree => io::Error::from(io::ErrorKind::Other),
            FsError::NoBirthTime => io::Error::from(io::ErrorKind::Unsupported),
            FsError::KeyInUse => io::Error::from(io::ErrorKind::AlreadyExists),
            FsError::KeyLost => io::Error::from(io::ErrorKind::Other),
            FsError::RingFull => io::Error::from(io::ErrorKind::WouldBlock),
            FsError::Stranger(_) => io::Error::from(io::ErrorKind::InvalidData),
            FsError::NoMemory => io::Error::from(io::ErrorKind::OutOfMemory),
        }
    }
}
