//! How a run of the program ended.

ghost use Rattle.std.specs.Prelude.{◌≡◌, ◌≢◌, ◌↔◌, [], IsTrue, MatchResult};
ghost use Rattle.uring_model.specs.declared.jobs.RunFault.TheVariants.{NoMemory};
ghost use Rattle.uring_text.specs.Status.{code_of, status_words};

use std::alloc::Global;
use std::fmt;
use uring_base::Buf;
use uring_model::RunFault;

/// How a run of the program ended.
#[derive(Clone, Copy, Debug, PartialEq, Eq)]
pub enum Status {
    /// All was written.
    Done,
    /// The words after the program's name aren't in its grammar.
    Usage,
    /// The input failed.
    ReadFault,
    /// The input has more bytes than the program takes.
    TooLong,
    /// The input is no script: the first line, from 1, that no script begins with.
    Script(u64),
    /// The ring sizes aren't valid.
    BadSize,
    /// This is the first job that isn't valid.
    BadJob(u64),
    /// The partner posted what this number wasn't due.
    Stranger(u64),
    /// Too many turns passed with neither a take nor a final post.
    Stalled,
    /// The partner failed.
    PartnerFault,
    /// The output failed.
    WriteFault,
    /// There was no memory.
    NoMemory,
}

impl From<RunFault> for Status {
    ghost use Rattle.uring_text.specs.Status.{status_of};

    ghost from_gives = { λ fault status. status ≡ status_of fault };

    fn from(fault: RunFault) -> Status {
        match fault {
            RunFault::BadSize => Status::BadSize,
            RunFault::BadJob(job) => Status::BadJob(job),
            RunFault::Stranger(number) => Status::Stranger(number),
            RunFault::Stalled => Status::Stalled,
            RunFault::PartnerFault => Status::PartnerFault,
            RunFault::NoMemory => Status::NoMemory,
        }
    }
}

impl Status {
    /// The status that the process exits with.
    pub fn code(&self) -> u8
        ensures { result ≡ code_of self.now }
    {
        match self {
            Status::Done => 0,
            Status::Usage => 2,
            Status::ReadFault => 3,
            Status::TooLong => 4,
            Status::Script(_) => 5,
            Status::BadSize => 6,
            Status::BadJob(_) => 7,
            Status::Stranger(_) => 8,
            Status::Stalled => 9,
            Status::PartnerFault => 10,
            Status::WriteFault => 11,
            Status::NoMemory => 12,
        }
    }

    /// Whether the program says something of it.
    pub fn has_text(&self) -> bool
        ensures { IsTrue result ↔ (status_words self.now ≢ []) }
    {
        !matches!(self, Status::Done)
    }
}

/// Writes what the program says of a status, without a line feed: nothing where all was written.
/// It takes no memory.
impl fmt::Display for Status {
    ghost use Rattle.std.specs.Prelude.{Some};

    ghost output = { λ status. Some (status_words status) };

    fn fmt<W: fmt::Write>(&self, f: &mut fmt::Formatter<W>) -> fmt::Result {
        match self {
            Status::Done => Ok(()),
            Status::Usage => f.write_str("usage"),
            Status::ReadFault => f.write_str("read fault"),
            Status::TooLong => f.write_str("too long"),
            Status::Script(line) => write!(f, "script line {line}"),
            Status::BadSize => f.write_str("bad size"),
            Status::BadJob(job) => write!(f, "bad job {job}"),
            Status::Stranger(number) => write!(f, "stranger {number}"),
            Status::Stalled => f.write_str("stalled"),
            Status::PartnerFault => f.write_str("partner fault"),
            Status::WriteFault => f.write_str("write fault"),
            Status::NoMemory => f.write_str("no memory"),
        }
    }
}

/// What `Display` writes of a status, as bytes.
pub fn status_text(alloc: Global, status: Status) -> Result<Buf, RunFault>
    ensures { MatchResult result (λ text. text ≡ status_words status) (λ fault. fault ≡ NoMemory) }
{
    let text = status.to_string(alloc)?;
    Ok(Buf::from(text.into_bytes()))
}
