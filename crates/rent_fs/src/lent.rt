//! What comes of operations that lend a buffer, or none.

ghost use Rattle.std.specs.Prelude.{◌≡◌};
ghost use Rattle.rent_fs.specs.Lent.{closed, lent, path_done};
ghost use Rattle.rent_fs.specs.Outputs.{IsSmallFault};

use crate::error::FsError;
use crate::synced::of_code;
use rent_engine::{OneAnswer, OpDone};
use uring_base::Buf;

fn with_loan(done: OpDone) -> Result<(i32, Buf), FsError>
    ensures { result ≡ lent (OneAnswer.Done done) }
{
    let OpDone {
        result: code,
        flags: _,
        buf,
        quiet: _,
    } = done;
    match buf {
        Some(buf) => Ok((code, buf)),
        None => Err(FsError::KeyLost),
    }
}

/// The result of an operation that lent a buffer, and the buffer as it came back.
pub(crate) fn lent(answer: OneAnswer) -> Result<(i32, Buf), FsError>
    ensures { result ≡ lent answer }
{
    match answer {
        OneAnswer::Done(done) => with_loan(done),
        OneAnswer::InUse(_) => Err(FsError::KeyInUse),
        OneAnswer::NoMemory(_) => Err(FsError::NoMemory),
        OneAnswer::Lost => Err(FsError::KeyLost),
    }
}

/// What an operation on a path gives that gives nothing but that it is done.
pub(crate) fn path_done(answer: OneAnswer) -> Result<(), FsError>
    ensures gives { result ≡ path_done answer }
    ensures small { IsSmallFault result }
{
    match lent(answer) {
        Ok((code, _)) => of_code(code),
        Err(error) => Err(error),
    }
}

/// A close is done whatever its result.
pub(crate) fn closed(answer: OneAnswer) -> Result<(), FsError>
    ensures gives { result ≡ closed answer }
    ensures small { IsSmallFault result }
{
    match answer {
        OneAnswer::Done(_) => Ok(()),
        OneAnswer::InUse(_) => Err(FsError::KeyInUse),
        OneAnswer::NoMemory(_) => Err(FsError::NoMemory),
        OneAnswer::Lost => Err(FsError::KeyLost),
    }
}
