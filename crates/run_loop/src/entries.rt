//! The entries of the jobs.

ghost use Rattle.std.specs.Prelude.{◌≡◌, ◌≤◌, ◌<◌, ◌^◌, IfNone, true, Some};
ghost use Rattle.uring_model.specs.Jobs.{model_op, buf_lent, model_job, is_valid_at, is_valid_op, may_be_quiet, is_valid_job};
ghost use Rattle.run_loop.specs.Entries.{AllValid, IsInRange, AllInRange, first_bad, unlinked_if};

use crate::slot::Reply;
use uring_base::limits::{MAX_BUFFER, MAX_POSITION};
use uring_base::squeue::Entry;
use uring_base::{Buf, Loan};
use uring_model::{Job, JobKind, Link};

/// What is offered for a job: its entry, with its loan, what its outcome will tell, and whether the
/// job is quiet.
#[derive(Drop)]
pub struct Offer {
    pub entry: Entry,
    pub loan: Option<Loan>,
    pub reply: Reply,
    pub quiet: bool,
}

fn is_in_range(offset: u64, buf: &Buf) -> bool
    ensures { result ≡ is_valid_at offset buf.now }
{
    buf.len() <= MAX_BUFFER && offset <= MAX_POSITION - buf.len() as u64
}

fn is_valid_kind(kind: &JobKind) -> bool
    ensures { result ≡ is_valid_op (model_op kind.now) (buf_lent kind.now) }
{
    match kind {
        JobKind::Read { offset, buf, .. } | JobKind::Write { offset, buf, .. } => {
            is_in_range(*offset, buf)
        }
        JobKind::Ftruncate { len, .. } => *len <= MAX_POSITION,
        JobKind::Nop | JobKind::Fsync { .. } | JobKind::Cancel { .. } => true,
    }
}

fn may_be_quiet(is_last: bool, job: &Job) -> bool
    ensures { result ≡ may_be_quiet is_last (model_job job.now) }
{
    let moves_bytes = matches!(&job.kind, JobKind::Read { .. } | JobKind::Write { .. });
    let is_linked = !matches!(job.link, Link::Free);
    !moves_bytes && is_linked && !is_last
}

fn is_valid(is_last: bool, job: &Job) -> bool
    ensures { result ≡ is_valid_job is_last (model_job job.now) }
{
    is_valid_kind(&job.kind) && (!job.quiet || may_be_quiet(is_last, job))
}

// Reading the number shows that it has its type's range.
fn keep_range(job: &Job)
    ensures { IsInRange job.now.kind }
{
    match &job.kind {
        JobKind::Read { file, .. }
        | JobKind::Write { file, .. }
        | JobKind::Fsync { file }
        | JobKind::Ftruncate { file, .. } => {
            let _file = *file;
        }
        JobKind::Nop | JobKind::Cancel { .. } => {}
    }
}

/// The first job whose buffer is too long for a result, or that reaches past the largest place, or
/// is quiet where it is a read or a write, has no link or is the last.
pub fn first_bad_job(jobs: &[Job]) -> Option<u64>
    ensures first { result ≡ first_bad 0 jobs.now }
    ensures none { IfNone result (AllValid jobs.now) }
    ensures in_range { IfNone result (AllInRange jobs.now) }
{
    for (place, job) in jobs.iter().enumerate() {
        keep_range(job);
        let is_last = place + 1 == jobs.len();
        if !is_valid(is_last, job) {
            return Some(place as u64);
        }
    }
    None
}

/// The job; the last one has no link.
pub fn unlinked_if(is_last: bool, job: Job) -> Job
    ensures { result ≡ unlinked_if is_last job }
{
    let link = if is_last { Link::Free } else { job.link };
    Job { link, ..job }
}
