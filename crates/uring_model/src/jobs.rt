//! Jobs and what comes of them.

ghost use Rattle.std.specs.Prelude.{◌≡◌};

use std::alloc::AllocError;
use std::io;
use thiserror::Error;
use uring_base::{Buf, Event};

/// Whether the next job hangs on this one. A soft link is cut where this job fails, a hard one
/// is not.
#[derive(Clone, Copy, PartialEq, Eq, Debug)]
pub enum Link {
    Free,
    Soft,
    Hard,
}

/// What a job does. Files go by number, offsets and lengths count bytes, and a cancel names a
/// job by its place in the list.
#[derive(Drop)]
pub enum JobKind {
    Nop,
    Read { file: u32, offset: u64, buf: Buf },
    Write { file: u32, offset: u64, buf: Buf },
    Fsync { file: u32 },
    Ftruncate { file: u32, len: u64 },
    Cancel { job: u64 },
}

/// A job. A drained one settles when all before it have, and before all behind it. Nothing is
/// posted for a quiet one that succeeds: the end of the next job tells of it. A quiet job is no
/// read or write, has a link, and isn't the last.
#[derive(Drop)]
pub struct Job {
    pub kind: JobKind,
    pub drain: bool,
    pub quiet: bool,
    pub link: Link,
}

/// What came of a job: its result, and the buffer of a read or write. It is quiet where nothing
/// was posted for the job; its result is then 0.
#[derive(Drop)]
pub struct Outcome {
    pub result: i32,
    pub buf: Option<Buf>,
    pub quiet: bool,
}

/// What came of a list of jobs: an outcome each, in their order, and the journal of the run.
#[derive(Drop)]
pub struct Report {
    pub outcomes: Vec<Outcome>,
    pub journal: Vec<Event>,
}

/// Why a run of jobs has no report.
#[derive(Clone, Copy, PartialEq, Eq, Debug, Error)]
pub enum RunFault {
    /// The ring sizes aren't valid.
    #[error("bad ring size")]
    BadSize,
    /// This is the first job that isn't valid.
    #[error("bad job {0}")]
    BadJob(u64),
    /// The partner posted what this number wasn't due: its job wasn't started or has ended, or
    /// the loan isn't its own.
    #[error("partner posted for job {0} what was not due")]
    Stranger(u64),
    /// Too many turns passed with neither a take nor a final post.
    #[error("stalled")]
    Stalled,
    /// The partner failed, which its count of faults shows.
    #[error("partner fault")]
    PartnerFault,
    #[error("no memory")]
    NoMemory,
}

impl From<AllocError> for RunFault {
    ghost use Rattle.uring_model.specs.declared.jobs.RunFault.TheVariants.{NoMemory};

    ghost from_gives = { λ _ fault. fault ≡ NoMemory };

    fn from(_error: AllocError) -> RunFault {
        RunFault::NoMemory
    }
}

impl From<RunFault> for io::Error {
    ghost use Rattle.uring_model.specs.Faults.{HasKindOf};

    ghost from_gives = { HasKindOf };

    fn from(fault: RunFault) -> io::Error {
        let kind = match fault {
            RunFault::BadSize | RunFault::BadJob(_) => io::ErrorKind::InvalidInput,
            RunFault::Stranger(_) | RunFault::Stalled | RunFault::PartnerFault => {
                io::ErrorKind::Other
            }
            RunFault::NoMemory => io::ErrorKind::OutOfMemory,
        };
        io::Error::from(kind)
    }
}
