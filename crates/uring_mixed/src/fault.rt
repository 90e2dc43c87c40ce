//! Why a list wasn't encoded or decoded.

ghost use Rattle.std.specs.Prelude.{◌≡◌};

use std::alloc::AllocError;
use std::io;
use thiserror::Error;

/// Why a list wasn't encoded or decoded. The place is that of the first byte of the entry that
/// isn't whole, counted from 0.
#[derive(Clone, Copy, PartialEq, Eq, Debug, Error)]
pub enum MixedFault {
    /// The byte there is no mark.
    #[error("no mark at byte {0}")]
    Mark(usize),
    /// Fewer bytes follow the mark there than it says.
    #[error("entry cut at byte {0}")]
    Cut(usize),
    /// There was no memory.
    #[error("no memory")]
    NoMemory,
}

impl From<AllocError> for MixedFault {
    ghost use Rattle.uring_mixed.specs.declared.fault.MixedFault.TheVariants.{NoMemory};

    ghost from_gives = { λ _ fault. fault ≡ NoMemory };

    fn from(_error: AllocError) -> MixedFault {
        MixedFault::NoMemory
    }
}

impl From<MixedFault> for io::Error {
    ghost use Rattle.std.specs.IoError.{error_kind};
    ghost use Rattle.uring_mixed.specs.Faults.{mixed_fault_kind};

    ghost from_gives = { λ fault error. error_kind error ≡ mixed_fault_kind fault };

    fn from(fault: MixedFault) -> io::Error {
        io::Error::from(match fault {
            MixedFault::Mark(_) => io::ErrorKind::InvalidData,
            MixedFault::Cut(_) => io::ErrorKind::UnexpectedEof,
            MixedFault::NoMemory => io::ErrorKind::OutOfMemory,
        })
    }
}
