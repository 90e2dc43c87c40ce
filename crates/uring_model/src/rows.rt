//! The rows of a replay: a row for each job taken.

ghost use Rattle.std.specs.Prelude.{◌≡◌, ◌↔◌, [], ◌∷◌, Bool, false, IsTrue, Some};
ghost use Rattle.std.specs.List.{All};
ghost use Rattle.uring_model.specs.Jobs.{model_job, linked, model_op, buf_lent};
ghost use Rattle.uring_model.specs.Replay.{waits, severed, drains_done, all_done, may, is_bad, due, can_mark, mark_if};
ghost use Rattle.uring_model.specs.Rows.{row_in, rows_in, HasCount, HasCounts, is_markable};

use crate::jobs::{Job, JobKind, Link};
use uring_base::Buf;
use uring_base::limits::MAX_BUFFER;

/// What a settled job answered. The buffer is empty where the job has none.
#[derive(Drop)]
pub struct Settled {
    pub result: i32,
    pub buf: Buf,
}

/// A job that was taken, as it was asked, whether it was canceled while it was open, and what it
/// answered once it is settled.
#[derive(Drop)]
pub struct Row {
    pub job: Job,
    pub marked: bool,
    pub outcome: Option<Settled>,
}

/// Whether each job's buffer has a length that is a result: at most 2147483647 bytes.
pub fn have_counts(jobs: &[Job]) -> bool
    ensures { IsTrue result ↔ All HasCount jobs.now }
{
    jobs.iter().all(|job| has_count(job))
}

fn has_count(job: &Job) -> bool
    ensures { IsTrue result ↔ HasCount job.now }
{
    match &job.kind {
        JobKind::Read { buf, .. } | JobKind::Write { buf, .. } => buf.len() <= MAX_BUFFER,
        _ => true,
    }
}

/// Whether an open job may settle that has these rows before it.
pub fn may_settle(before: &[Row], job: &Job) -> bool
    ensures { result ≡ may (rows_in before.now) (model_job job.now) }
{
    !waits(before) && drains_done(before) && (!job.drain || all_done(before))
}

/// Whether all jobs have settled.
pub fn all_done(rows: &[Row]) -> bool
    ensures { result ≡ all_done (rows_in rows.now) }
{
    for row in rows {
        if row.outcome.is_none() {
            return false;
        }
    }
    true
}

/// Whether the job behind these rows is severed.
pub fn is_severed(rows: &[Row]) -> bool
    ensures { result ≡ severed false (rows_in rows.now) }
{
    let mut cut = false;
    for row in rows {
        cut = severs(cut, row);
    }
    cut
}

/// Whether the job of this number is open and unmarked among these rows, the first of which has
/// the number `first`.
pub fn can_mark(number: u64, first: usize, rows: &[Row]) -> bool
    ensures { result ≡ can_mark number first (rows_in rows.now) }
{
    let place = number as usize;
    if place < first || place - first >= rows.len() {
        return false;
    }
    is_unmarked(&rows[place - first])
}

/// Marks the job of this number, if there is one that is open.
pub fn mark(rows: &mut Vec<Row>, marks: Option<u64>)
    requires { HasCounts rows.old.items }
    ensures rows { rows_in rows.new.items ≡ mark_if marks (rows_in rows.old.items) }
    ensures counts { HasCounts rows.new.items }
{
    if let Some(number) = marks {
        let place = number as usize;
        if place < rows.len() {
            rows[place].marked = true;
        }
    }
}

fn is_unmarked(row: &Row) -> bool
    ensures { result ≡ is_markable (Some (row_in row.now)) }
{
    row.outcome.is_none() && !row.marked
}

fn waits(rows: &[Row]) -> bool
    ensures { result ≡ waits false (rows_in rows.now) }
{
    let mut held = false;
    for row in rows {
        held = holds(row);
    }
    held
}

fn drains_done(rows: &[Row]) -> bool
    ensures { result ≡ drains_done (rows_in rows.now) }
{
    for row in rows {
        if row.outcome.is_none() && row.job.drain {
            return false;
        }
    }
    true
}

fn holds(row: &Row) -> bool
    ensures { (w : Bool) → waits w (row_in row.now ∷ []) ≡ result }
{
    row.outcome.is_none() && is_linked(row.job.link)
}

fn severs(cut: bool, row: &Row) -> bool
    ensures { severed cut (row_in row.now ∷ []) ≡ result }
{
    match &row.outcome {
        None => is_linked(row.job.link) && cut,
        Some(settled) => {
            is_linked(row.job.link)
                && (cut || (row.job.link == Link::Soft && has_gone_badly(&row.job, settled.result)))
        }
    }
}

fn is_linked(link: Link) -> bool
    ensures { result ≡ linked link }
{
    link != Link::Free
}

fn has_gone_badly(job: &Job, outcome: i32) -> bool
    ensures { result ≡ is_bad (model_job job.now) outcome }
{
    outcome < 0 || (outcome as usize) < least_due(&job.kind)
}

/// The result that is due at least.
fn least_due(kind: &JobKind) -> usize
    ensures { result ≡ due (model_op kind.now) (buf_lent kind.now) }
{
    match kind {
        JobKind::Read { buf, .. } | JobKind::Write { buf, .. } => buf.len(),
        _ => 0,
    }
}
