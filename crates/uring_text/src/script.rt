//! Scripts: the files, choices and jobs of a run.

ghost use Rattle.std.specs.Prelude.{◌≡◌};
ghost use Rattle.std.specs.IoError.{error_kind};
ghost use Rattle.uring_text.specs.declared.script.ScriptFault.TheVariants.{NoMemory};
ghost use Rattle.uring_text.specs.Faults.{script_fault_kind};

use std::alloc::AllocError;
use std::io::{self, ErrorKind};
use thiserror::Error;
use uring_base::Buf;
use uring_model::Job;

/// A file that stands at the start, by its number.
#[derive(Drop)]
pub struct Seed {
    /// What jobs call it.
    pub number: u32,
    /// What it holds.
    pub bytes: Buf,
}

/// What one line of a script says.
#[derive(Drop)]
pub enum Line {
    /// An empty line or a comment.
    Blank,
    /// A file that stands at the start.
    File(Seed),
    /// A number by which the partner picks what it settles next.
    Choose(u32),
    /// A job with its marks.
    Job(Job),
}

/// What a script tells: each list in the order of the lines.
#[derive(Drop)]
pub struct Script {
    /// The files that stand at the start.
    pub files: Vec<Seed>,
    /// The numbers by which the partner picks what it settles next.
    pub choices: Vec<u32>,
    /// The jobs, each numbered by its place.
    pub jobs: Vec<Job>,
}

/// Why bytes give no script.
#[derive(Clone, Copy, Debug, PartialEq, Eq, Error)]
pub enum ScriptFault {
    /// The lines up to this one, counted from 1, are no script, and those before it are one.
    #[error("script line {0}")]
    Line(u64),
    /// There was no memory to hold it.
    #[error("no memory")]
    NoMemory,
}

impl From<AllocError> for ScriptFault {
    ghost from_gives = { λ _ fault. fault ≡ NoMemory };

    fn from(_error: AllocError) -> ScriptFault {
        ScriptFault::NoMemory
    }
}

impl From<ScriptFault> for io::Error {
    ghost from_gives = { λ fault e. error_kind e ≡ script_fault_kind fault };

    fn from(fault: ScriptFault) -> io::Error {
        io::Error::from(match fault {
            ScriptFault::Line(_) => ErrorKind::InvalidData,
            ScriptFault::NoMemory => ErrorKind::OutOfMemory,
        })
    }
}
