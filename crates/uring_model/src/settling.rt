//! What the settling of a job answers.

ghost use Rattle.std.specs.Prelude.{◌≡◌, ◌+◌, ◌||◌, ◌^◌, ◌<◌, length, IfOk};
ghost use Rattle.uring_model.specs.Operations.{op_in, PartFits, FindsAs};
ghost use Rattle.uring_model.specs.Jobs.{model_op, buf_lent};
ghost use Rattle.uring_model.specs.Replay.{settle, can_mark};
ghost use Rattle.uring_model.specs.Rows.{rows_in, settling_answer, place_between, HasCount};

use crate::files::Files;
use crate::jobs::JobKind;
use crate::machine::{Answered, perform};
use crate::operation::Operation;
use crate::rows::{Row, can_mark, is_severed};
use std::alloc::{AllocError, Global};
use uring_base::Buf;
use uring_base::errno::ECANCELED;

/// What a settling answers, and what it leaves in the job's buffer.
#[derive(Drop)]
pub struct Settling {
    pub answered: Answered,
    pub buf: Buf,
}

/// Settles the job of this row, which stands between the rows before and after it.
pub fn settle(
    alloc: Global,
    files: &mut Files,
    before: &[Row],
    row: &Row,
    after: &[Row],
) -> Result<Settling, AllocError>
    requires { HasCount row.now.job }
    ensures { IfOk result (λ s. settling_answer s files.new ≡ settle files.old (place_between before.now row.now after.now)) }
{
    let mut buf = lent(alloc, &row.job.kind)?;
    if row.marked || is_severed(before) {
        return Ok(Settling {
            answered: Answered::plain(-ECANCELED),
            buf,
        });
    }
    let operation = operation_of_kind(&row.job.kind);
    let can_cancel = finds(operation, before, after);
    let answered = perform(alloc, files, operation, can_cancel, buf.as_mut_slice())?;
    Ok(Settling { answered, buf })
}

/// What a job of this kind asks.
fn operation_of_kind(kind: &JobKind) -> Operation
    ensures op { op_in result ≡ model_op kind.now }
    ensures fits { length (buf_lent kind.now) < 2 ^ 31 → PartFits result (buf_lent kind.now) }
{
    match kind {
        JobKind::Nop => Operation::Nop,
        JobKind::Read { file, offset, .. } => Operation::Read {
            file: *file,
            offset: *offset,
        },
        JobKind::Write { file, offset, .. } => Operation::Write {
            file: *file,
            offset: *offset,
        },
        JobKind::Fsync { file } => Operation::Fsync { file: *file },
        JobKind::Ftruncate { file, len } => Operation::Ftruncate {
            file: *file,
            len: *len,
        },
        JobKind::Cancel { job } => Operation::Cancel { number: *job },
    }
}

/// A copy of the buffer that a job lends, which is empty where it lends none.
fn lent(alloc: Global, kind: &JobKind) -> Result<Buf, AllocError>
    ensures { IfOk result (λ buf. buf ≡ buf_lent kind.now) }
{
    match kind {
        JobKind::Read { buf, .. } | JobKind::Write { buf, .. } => buf.try_clone(alloc),
        _ => Ok(Buf::new(alloc)),
    }
}

/// Whether a cancel finds its job among the rows before and after it.
fn finds(operation: Operation, before: &[Row], after: &[Row]) -> bool
    ensures { FindsAs (λ t. can_mark t 0 (rows_in before.now) || can_mark t (length (rows_in before.now) + 1) (rows_in after.now)) result operation }
{
    match operation {
        Operation::Cancel { number } => {
            can_mark(number, 0, before) || can_mark(number, before.len() + 1, after)
        }
        _ => false,
    }
}
