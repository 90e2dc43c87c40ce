//! What a read or a write gives.

ghost use Rattle.std.specs.Prelude.{◌≡◌};
ghost use Rattle.rent_fs.specs.Outputs.{counted, moved, or_empty, with_buf, IsSmall};

use crate::error::FsError;
use rent_engine::{OneAnswer, OpDone};
use std::alloc::Global;
use uring_base::Buf;

/// The count, or the errno of a negative result.
fn count_of(code: i32) -> Result<usize, FsError>
    ensures counted { result ≡ counted code }
    ensures small { IsSmall result }
{
    if code < 0 {
        Err(FsError::Os(code.unsigned_abs()))
    } else {
        Ok(code as usize)
    }
}

pub(crate) fn or_empty(alloc: Global, buf: Option<Buf>) -> Buf
    ensures { result ≡ or_empty buf }
{
    match buf {
        Some(buf) => buf,
        None => Buf::new(alloc),
    }
}

fn of_done(alloc: Global, done: OpDone) -> (Result<usize, FsError>, Buf)
    ensures gives { result ≡ with_buf done.result done.buf }
    ensures small { IsSmall result.0 }
{
    let OpDone {
        result,
        flags: _,
        buf,
        quiet: _,
    } = done;
    match buf {
        Some(buf) => (count_of(result), buf),
        None => (Err(FsError::KeyLost), Buf::new(alloc)),
    }
}

/// What an operation that lent a buffer gives, by its answer.
pub(crate) fn moved(alloc: Global, answer: OneAnswer) -> (Result<usize, FsError>, Buf)
    ensures gives { result ≡ moved answer }
    ensures small { IsSmall result.0 }
{
    match answer {
        OneAnswer::Done(done) => of_done(alloc, done),
        OneAnswer::InUse(buf) => (Err(FsError::KeyInUse), or_empty(alloc, buf)),
        OneAnswer::NoMemory(buf) => (Err(FsError::NoMemory), or_empty(alloc, buf)),
        OneAnswer::Lost => (Err(FsError::KeyLost), Buf::new(alloc)),
    }
}
