//! How a job's operation is started.

ghost use Rattle.std.specs.Prelude.{◌≡◌, ◌+◌, ◌<◌, ◌≤◌, ◌^◌, ◌∷◌, [], ℕ, Some, None, is_some, true, false, IfOk, IfErr, OnOk, OnErr, length};
ghost use Rattle.uring_base.specs.FlagBits.{bits_in};
ghost use Rattle.uring_model.specs.declared.jobs.JobKind.{JobKind};
ghost use Rattle.uring_model.specs.Jobs.{model_job, is_valid_job, is_valid_at};
ghost use Rattle.ring_traits.specs.Lists.{Becomes};
ghost use Rattle.rent_table.specs.Ops.{knows, started};
ghost use Rattle.run_loop.specs.Entries.{job_words, job_loan, job_entry, offer_of};
ghost use Rattle.run_loop.specs.Rounds.{pushed_more};
ghost use Rattle.run_loop.specs.Steps.{mark_bits, IsBegun};
ghost use Rattle.run_loop.specs.Told.{reply_for, lends};
ghost use Rattle.run_loop.specs.declared.slot.Reply.TheVariants as replies;

use crate::job_op::JobOp;
use crate::slot::{Reply, reply_for};
use bitflags::Flags as _;
use rent_engine::{Engine, OpState, Poll, StartFault};
use rent_fs::File;
use ring_traits::UserEnds;
use std::alloc::Global;
use uring_base::Buf;
use uring_base::squeue::{Entry, Flags};
use uring_base::types::Fixed;
use uring_model::{Job, JobKind, Link, RunFault};
use uring_ops_file::{AsyncCancel, Fsync, Ftruncate, Nop};

/// The flags of a job's marks.
fn marks(drain: bool, link: Link) -> Flags
    ensures { bits_in result ≡ mark_bits drain link }
{
    let linked = match link {
        Link::Free => Flags::empty(),
        Link::Soft => Flags::IO_LINK,
        Link::Hard => Flags::IO_HARDLINK,
    };
    if drain {
        Flags::IO_DRAIN | linked
    } else {
        linked
    }
}

/// The words of a job that lends no buffer.
fn bare_words(kind: JobKind) -> Entry
    requires { lends (reply_for kind) ≡ false }
    ensures { (number : ℕ) → result ≡ job_words number kind }
{
    match kind {
        JobKind::Nop => Nop::new().build(),
        JobKind::Fsync { file } => Fsync::new(Fixed(file)).build(),
        JobKind::Ftruncate { file, len } => Ftruncate::new(Fixed(file), len).build(),
        JobKind::Cancel { job } => AsyncCancel::new(job).build(),
        JobKind::Read { .. } | JobKind::Write { .. } => unreachable!(),
    }
}

fn start_read<R: UserEnds>(
    alloc: Global,
    engine: &mut Engine<R>,
    number: u64,
    file: u32,
    offset: u64,
    buf: Buf,
    marks: Flags,
) -> Result<JobOp, RunFault>
    requires unknown { knows engine.old.ops number ≡ false }
    requires room { 0 < R.room engine.old.ring }
    requires valid { is_valid_at offset buf ≡ true }
    ensures begun { IfOk result (λ op. IsBegun R.offers_large R.used R.lists R.room R.waiting number (JobKind.Read file offset buf) false (bits_in marks) engine.old.ring engine.new.ring engine.old.ops engine.new.ops op) }
    ensures memory { IfErr result (λ e. e ≡ RunFault.NoMemory) }
    ensures unused { OnErr result (R.used engine.old.ring [] [] engine.new.ring) }
{
    let read = File::of_number(file).read_at(buf, offset);
    let mut read = read.with_number(number).with_flags(marks);
    match read.poll(alloc, engine) {
        Poll::Pending => Ok(JobOp::Read(read)),
        Poll::Ready(_) => Err(RunFault::NoMemory),
    }
}

fn start_write<R: UserEnds>(
    alloc: Global,
    engine: &mut Engine<R>,
    number: u64,
    file: u32,
    offset: u64,
    buf: Buf,
    marks: Flags,
) -> Result<JobOp, RunFault>
    requires unknown { knows engine.old.ops number ≡ false }
    requires room { 0 < R.room engine.old.ring }
    requires valid { is_valid_at offset buf ≡ true }
    ensures begun { IfOk result (λ op. IsBegun R.offers_large R.used R.lists R.room R.waiting number (JobKind.Write file offset buf) false (bits_in marks) engine.old.ring engine.new.ring engine.old.ops engine.new.ops op) }
    ensures memory { IfErr result (λ e. e ≡ RunFault.NoMemory) }
    ensures unused { OnErr result (R.used engine.old.ring [] [] engine.new.ring) }
{
    let write = File::of_number(file).write_at(buf, offset);
    let mut write = write.with_number(number).with_flags(marks);
    match write.poll(alloc, engine) {
        Poll::Pending => Ok(JobOp::Write(write)),
        Poll::Ready(_) => Err(RunFault::NoMemory),
    }
}

fn start_sync<R: UserEnds>(
    alloc: Global,
    engine: &mut Engine<R>,
    number: u64,
    file: u32,
    marks: Flags,
) -> Result<JobOp, RunFault>
    requires unknown { knows engine.old.ops number ≡ false }
    requires room { 0 < R.room engine.old.ring }
    ensures begun { IfOk result (λ op. IsBegun R.offers_large R.used R.lists R.room R.waiting number (JobKind.Fsync file) false (bits_in marks) engine.old.ring engine.new.ring engine.old.ops engine.new.ops op) }
    ensures memory { IfErr result (λ e. e ≡ RunFault.NoMemory) }
    ensures unused { OnErr result (R.used engine.old.ring [] [] engine.new.ring) }
{
    let sync = File::of_number(file).sync_all();
    let mut sync = sync.with_number(number).with_flags(marks);
    match sync.poll(alloc, engine) {
        Poll::Pending => Ok(JobOp::Sync(sync)),
        Poll::Ready(_) => Err(RunFault::NoMemory),
    }
}

fn start_plain<R: UserEnds>(
    alloc: Global,
    engine: &mut Engine<R>,
    number: u64,
    kind: JobKind,
    marks: Flags,
) -> Result<JobOp, RunFault>
    requires unknown { knows engine.old.ops number ≡ false }
    requires room { 0 < R.room engine.old.ring }
    requires plain { reply_for kind ≡ replies.Plain }
    ensures begun { IfOk result (λ op. IsBegun R.offers_large R.used R.lists R.room R.waiting number kind false (bits_in marks) engine.old.ring engine.new.ring engine.old.ops engine.new.ops op) }
    ensures memory { IfErr result (λ e. e ≡ RunFault.NoMemory) }
    ensures unused { OnErr result (R.used engine.old.ring [] [] engine.new.ring) }
{
    let words = bare_words(kind);
    match engine.start(alloc, number, words.flags(marks), 0, None) {
        Ok(key) => Ok(JobOp::Plain(key, Reply::Plain)),
        Err(fault) => match fault {
            StartFault::NoMemory(_buf) => Err(RunFault::NoMemory),
            StartFault::KeyInUse(_buf) | StartFault::RingFull(_buf) => unreachable!(),
        },
    }
}

/// Starts a quiet job's operation: it is resolved with that of the next number.
fn start_quiet<R: UserEnds>(
    alloc: Global,
    engine: &mut Engine<R>,
    number: u64,
    job: Job,
) -> Result<JobOp, RunFault>
    requires unknown { knows engine.old.ops number ≡ false }
    requires room { 0 < R.room engine.old.ring }
    requires valid { is_valid_job false (model_job job) ≡ true }
    requires quiet { job.quiet ≡ true }
    requires bound { number + 1 < 2 ^ 64 }
    ensures begun { IfOk result (λ op. IsBegun R.offers_large R.used R.lists R.room R.waiting number job.kind true (mark_bits job.drain job.link) engine.old.ring engine.new.ring engine.old.ops engine.new.ops op) }
    ensures memory { IfErr result (λ e. e ≡ RunFault.NoMemory) }
    ensures unused { OnErr result (R.used engine.old.ring [] [] engine.new.ring) }
{
    let marks = marks(job.drain, job.link);
    let reply = reply_for(&job.kind);
    let words = bare_words(job.kind);
    match engine.start_quiet(alloc, number, words.flags(marks), number + 1) {
        Ok(key) => Ok(JobOp::Plain(key, reply)),
        Err(fault) => match fault {
            StartFault::NoMemory(_buf) => Err(RunFault::NoMemory),
            StartFault::KeyInUse(_buf) | StartFault::RingFull(_buf) => unreachable!(),
        },
    }
}

/// Starts a job's operation under a number: a quiet job's as its entry, a read, a write or a sync
/// as a state of its file that is polled once, and another as its entry.
pub fn start_job<R: UserEnds>(
    alloc: Global,
    engine: &mut Engine<R>,
    number: u64,
    job: Job,
) -> Result<JobOp, RunFault>
    requires unknown { knows engine.old.ops number ≡ false }
    requires room { 0 < R.room engine.old.ring }
    requires valid { is_valid_job false (model_job job) ≡ true }
    requires bound { number + 1 < 2 ^ 64 }
    ensures begun { IfOk result (λ op. IsBegun R.offers_large R.used R.lists R.room R.waiting number job.kind job.quiet (mark_bits job.drain job.link) engine.old.ring engine.new.ring engine.old.ops engine.new.ops op) }
    ensures memory { IfErr result (λ e. e ≡ RunFault.NoMemory) }
    ensures unused { OnErr result (R.used engine.old.ring [] [] engine.new.ring) }
{
    if job.quiet {
        return start_quiet(alloc, engine, number, job);
    }
    let marks = marks(job.drain, job.link);
    match job.kind {
        JobKind::Read { file, offset, buf } => {
            start_read(alloc, engine, number, file, offset, buf, marks)
        }
        JobKind::Write { file, offset, buf } => {
            start_write(alloc, engine, number, file, offset, buf, marks)
        }
        JobKind::Fsync { file } => start_sync(alloc, engine, number, file, marks),
        kind => start_plain(alloc, engine, number, kind, marks),
    }
}
