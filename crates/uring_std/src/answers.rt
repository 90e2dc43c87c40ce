//! How an answer of the system becomes a result.

ghost use Rattle.std.specs.Prelude.{◌≡◌};
ghost use Rattle.std.specs.IoError.{raw_os_error};
ghost use Rattle.uring_std.specs.Answers.{IsCountOf, errno_told, refusal, result_of};

use std::io;
use uring_base::errno::EIO;

/// The error number of a failure: the system's, and `EIO` where it gave none.
pub fn errno_of(error: &io::Error) -> i32
    ensures { result ≡ errno_told (raw_os_error error.now) }
{
    match error.raw_os_error() {
        Some(code) if 0 < code => code,
        _ => EIO,
    }
}

/// The result of a call that failed: its error number below 0.
pub fn refusal_of(error: &io::Error) -> i32
    ensures { result ≡ refusal error.now }
{
    -errno_of(error)
}

/// The result of a call that has no count.
pub fn result_of(answer: io::Result<()>) -> i32
    ensures { result ≡ result_of answer }
{
    match answer {
        Ok(()) => 0,
        Err(error) => refusal_of(&error),
    }
}

/// The result of a read or write: its count. A count that is no result can't come from a buffer
/// whose length is one.
pub fn count_of(answer: io::Result<usize>) -> i32
    ensures { IsCountOf answer result }
{
    match answer {
        Ok(count) => i32::try_from(count).unwrap_or(i32::MAX),
        Err(error) => refusal_of(&error),
    }
}
