//! How a job's operation is polled.

ghost use Rattle.std.specs.Prelude.{[], ◌≡◌, ◌+◌, ◌≤◌, ℕ, ℤ, false, Some, None};
ghost use Rattle.rent_fs.specs.Outputs.{counted, ended, IsSmall, IsSmallFault};
ghost use Rattle.run_loop.specs.declared.slot.Reply.TheVariants as replies;
ghost use Rattle.run_loop.specs.Told.{heard};
ghost use Rattle.run_loop.specs.declared.job_op.JobOp.{JobOp};
ghost use Rattle.run_loop.specs.Steps.{CanBePolled, IsPolled};
ghost use Rattle.run_loop.specs.Flights.{outcome_polled};

use crate::job_op::{JobOp, JobPoll};
use crate::slot::Reply;
use rent_engine::{Engine, OpDone, OpKey, OpPoll, OpState, Poll};
use rent_fs::{FsError, ReadAt, Sync, WriteAt};
use ring_traits::UserEnds;
use std::alloc::Global;
use uring_base::Buf;
use uring_model::Outcome;

/// The result that a count or an errno tells.
fn result_of(count: Result<usize, FsError>) -> i32
    requires small { IsSmall count }
    requires counted { (r : ℤ) × (count ≡ counted r) }
    ensures { (r : ℤ) → count ≡ counted r → result ≡ r }
{
    match count {
        Ok(count) => count as i32,
        Err(FsError::Os(errno)) => (-(errno as i64)) as i32,
        Err(_) => unreachable!(),
    }
}

/// What a read or a write gives its job.
fn moved_outcome(count: Result<usize, FsError>, buf: Buf) -> Outcome
    requires small { IsSmall count }
    requires counted { (r : ℤ) × (count ≡ counted r) }
    ensures { (r : ℤ) → count ≡ counted r → result ≡ record { result = r; buf = Some buf; quiet = false } }
{
    Outcome {
        result: result_of(count),
        buf: Some(buf),
        quiet: false,
    }
}

/// What a sync gives its job.
fn sync_outcome(answer: Result<(), FsError>) -> Outcome
    requires small { IsSmallFault answer }
    requires ended { (r : ℤ) × (answer ≡ ended r) }
    ensures { (r : ℤ) → answer ≡ ended r → result ≡ record { result = heard replies.Success r; buf = None; quiet = false } }
{
    let result = match answer {
        Ok(()) => 0,
        Err(FsError::Os(errno)) => (-(errno as i64)) as i32,
        Err(_) => unreachable!(),
    };
    Outcome {
        result,
        buf: None,
        quiet: false,
    }
}

/// What a job is told of a result: of a success, where no more is to be told, that it is one.
fn heard(reply: Reply, code: i32) -> i32
    ensures { result ≡ heard reply code }
{
    match reply {
        Reply::Plain | Reply::Buffer => code,
        Reply::Success => code.min(0),
    }
}

/// What a resolved operation gives its job.
fn job_outcome(reply: Reply, done: OpDone) -> Outcome
    ensures { result ≡ outcome_polled reply done }
{
    Outcome {
        result: heard(reply, done.result),
        buf: done.buf,
        quiet: done.quiet,
    }
}

fn poll_read<R: UserEnds>(alloc: Global, engine: &mut Engine<R>, mut read: ReadAt) -> JobPoll
    requires { (n : ℕ) × CanBePolled engine.old.ops n (JobOp.Read read) }
    ensures uses { R.used engine.old.ring [] [] engine.new.ring }
    ensures polled { (n : ℕ) → CanBePolled engine.old.ops n (JobOp.Read read) → IsPolled R.lists R.room R.waiting n (JobOp.Read read) engine.old.ring engine.new.ring engine.old.ops engine.new.ops result }
{
    match read.poll(alloc, engine) {
        Poll::Pending => JobPoll::Pending(JobOp::Read(read)),
        Poll::Ready((count, buf)) => JobPoll::Ready(moved_outcome(count, buf)),
    }
}

fn poll_write<R: UserEnds>(alloc: Global, engine: &mut Engine<R>, mut write: WriteAt) -> JobPoll
    requires { (n : ℕ) × CanBePolled engine.old.ops n (JobOp.Write write) }
    ensures uses { R.used engine.old.ring [] [] engine.new.ring }
    ensures polled { (n : ℕ) → CanBePolled engine.old.ops n (JobOp.Write write) → IsPolled R.lists R.room R.waiting n (JobOp.Write write) engine.old.ring engine.new.ring engine.old.ops engine.new.ops result }
{
    match write.poll(alloc, engine) {
        Poll::Pending => JobPoll::Pending(JobOp::Write(write)),
        Poll::Ready((count, buf)) => JobPoll::Ready(moved_outcome(count, buf)),
    }
}

fn poll_sync<R: UserEnds>(alloc: Global, engine: &mut Engine<R>, mut sync: Sync) -> JobPoll
    requires { (n : ℕ) × CanBePolled engine.old.ops n (JobOp.Sync sync) }
    ensures uses { R.used engine.old.ring [] [] engine.new.ring }
    ensures polled { (n : ℕ) → CanBePolled engine.old.ops n (JobOp.Sync sync) → IsPolled R.lists R.room R.waiting n (JobOp.Sync sync) engine.old.ring engine.new.ring engine.old.ops engine.new.ops result }
{
    match sync.poll(alloc, engine) {
        Poll::Pending => JobPoll::Pending(JobOp::Sync(sync)),
        Poll::Ready(answer) => JobPoll::Ready(sync_outcome(answer)),
    }
}

fn poll_plain<R: UserEnds>(engine: &mut Engine<R>, key: OpKey, reply: Reply) -> JobPoll
    requires { (n : ℕ) × CanBePolled engine.old.ops n (JobOp.Plain key reply) }
    ensures uses { R.used engine.old.ring [] [] engine.new.ring }
    ensures polled { (n : ℕ) → CanBePolled engine.old.ops n (JobOp.Plain key reply) → IsPolled R.lists R.room R.waiting n (JobOp.Plain key reply) engine.old.ring engine.new.ring engine.old.ops engine.new.ops result }
{
    match engine.poll(key) {
        OpPoll::Ready(done) => JobPoll::Ready(job_outcome(reply, done)),
        OpPoll::Pending(key) => JobPoll::Pending(JobOp::Plain(key, reply)),
        OpPoll::Lost(_) => unreachable!(),
    }
}

/// Polls a job's operation once.
pub fn poll_job<R: UserEnds>(alloc: Global, engine: &mut Engine<R>, op: JobOp) -> JobPoll
    requires { (n : ℕ) × CanBePolled engine.old.ops n op }
    ensures uses { R.used engine.old.ring [] [] engine.new.ring }
    ensures polled { (n : ℕ) → CanBePolled engine.old.ops n op → IsPolled R.lists R.room R.waiting n op engine.old.ring engine.new.ring engine.old.ops engine.new.ops result }
{
    match op {
        JobOp::Read(read) => poll_read(alloc, engine, read),
        JobOp::Write(write) => poll_write(alloc, engine, write),
        JobOp::Sync(sync) => poll_sync(alloc, engine, sync),
        JobOp::Plain(key, reply) => poll_plain(engine, key, reply),
    }
}
