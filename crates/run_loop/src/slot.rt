//! One job's place in the table of a run.

ghost use Rattle.std.specs.Prelude.{◌≡◌};
ghost use Rattle.run_loop.specs.Told.{reply_for};

use uring_model::{JobKind, Outcome};

/// What a job's outcome tells of its operation.
#[derive(Clone, Copy)]
pub enum Reply {
    /// The result.
    Plain,
    /// The result, and the buffer that was lent.
    Buffer,
    /// Whether it failed: an errno below 0, and 0 for any other result.
    Success,
}

/// What the outcome of such a job tells.
pub fn reply_for(kind: &JobKind) -> Reply
    ensures { result ≡ reply_for kind.now }
{
    match kind {
        JobKind::Read { .. } | JobKind::Write { .. } => Reply::Buffer,
        JobKind::Fsync { .. } => Reply::Success,
        JobKind::Nop | JobKind::Ftruncate { .. } | JobKind::Cancel { .. } => Reply::Plain,
    }
}

/// Where a job stands: it has no outcome yet, or it has one.
#[derive(Drop)]
pub enum Slot {
    /// What its outcome will tell, and whether the job is quiet.
    Open { reply: Reply, quiet: bool },
    Done(Outcome),
}
