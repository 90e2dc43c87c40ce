//! What a sync gives.

ghost use Rattle.std.specs.Prelude.{◌≡◌};
ghost use Rattle.rent_fs.specs.Outputs.{ended, synced, IsSmallFault};

use crate::error::FsError;
use rent_engine::OneAnswer;

pub(crate) fn of_code(code: i32) -> Result<(), FsError>
    ensures ended { result ≡ ended code }
    ensures small { IsSmallFault result }
{
    if code < 0 {
        Err(FsError::Os(code.unsigned_abs()))
    } else {
        Ok(())
    }
}

/// What an operation that lent no buffer gives, by its answer.
pub(crate) fn synced(answer: OneAnswer) -> Result<(), FsError>
    ensures gives { result ≡ synced answer }
    ensures small { IsSmallFault result }
{
    match answer {
        OneAnswer::Done(done) => of_code(done.result),
        OneAnswer::InUse(_) => Err(FsError::KeyInUse),
        OneAnswer::NoMemory(_) => Err(FsError::NoMemory),
        OneAnswer::Lost => Err(FsError::KeyLost),
    }
}
