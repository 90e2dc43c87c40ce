//! Reading a whole input.

ghost use Rattle.std.specs.Prelude.{◌≡◌, ◌≤◌, IfOk, IfErr};
ghost use Rattle.uring_streams.specs.Inputs.{GaveFront, IsRefusedFor, IsWholeInput};
ghost use Rattle.uring_streams.specs.declared.read.InputFault.TheVariants.{NoMemory, ReadFault};
ghost use Rattle.uring_streams.specs.Faults.{input_fault_kind};
ghost use Rattle.std.specs.IoError.{error_kind};

use crate::traits::{Failed, Source};
use std::alloc::{AllocError, Global};
use std::io::{self, ErrorKind};
use thiserror::Error;
use uring_base::Buf;

/// The longest input that `read_all` reads, in bytes.
pub const INPUT_LIMIT: usize = 16_777_216;
/// How many bytes are asked of a source at a time.
const PIECE_LEN: usize = 4096;

/// Why an input wasn't read.
#[derive(Clone, Copy, Debug, PartialEq, Eq, Error)]
pub enum InputFault {
    /// The source failed.
    #[error("read fault")]
    ReadFault,
    /// The input is longer than `INPUT_LIMIT`.
    #[error("too long")]
    TooLong,
    /// There was no memory to hold it.
    #[error("no memory")]
    NoMemory,
}

impl From<AllocError> for InputFault {
    ghost from_gives = { λ _ e. e ≡ NoMemory };

    fn from(_e: AllocError) -> InputFault {
        InputFault::NoMemory
    }
}

impl From<Failed> for InputFault {
    ghost from_gives = { λ _ e. e ≡ ReadFault };

    fn from(_e: Failed) -> InputFault {
        InputFault::ReadFault
    }
}

impl From<InputFault> for io::Error {
    ghost from_gives = { λ fault e. error_kind e ≡ input_fault_kind fault };

    fn from(fault: InputFault) -> io::Error {
        io::Error::from(match fault {
            InputFault::ReadFault => ErrorKind::Other,
            InputFault::TooLong => ErrorKind::FileTooLarge,
            InputFault::NoMemory => ErrorKind::OutOfMemory,
        })
    }
}

/// All that the source has left, at most `INPUT_LIMIT` bytes. After a refusal the bytes that were
/// read are gone.
pub fn read_all<S: Source>(alloc: Global, source: &mut S) -> Result<Buf, InputFault>
    ensures whole { IfOk result (λ buf. IsWholeInput (S.left source.old) (S.left source.new)
        (S.taken source.old) (S.taken source.new) buf) }
    ensures refused { IfErr result (λ e. IsRefusedFor (S.left source.old) (S.taken source.old) (S.taken source.new)
        (S.faults source.old) (S.faults source.new) e) }
    ensures front { GaveFront (S.left source.old) (S.left source.new) (S.taken source.old) (S.taken source.new) }
    ensures later { S.faults source.old ≤ S.faults source.new }
{
    let mut bytes = Vec::new(alloc);
    let mut piece = [0; PIECE_LEN];
    loop {
        let count = source.read(&mut piece)?;
        if count == 0 {
            return Ok(Buf::from(bytes));
        }
        if count > INPUT_LIMIT - bytes.len() {
            return Err(InputFault::TooLong);
        }
        bytes.extend_from_slice(&piece[..count])?;
    }
}
