//! Jobs from a number.

ghost use Rattle.std.specs.Prelude.{◌≡◌, ◌+◌, ◌<◌, ◌%◌, ◌/◌, IfOk};
ghost use Rattle.job_generator.specs.Generator.{next, kind_by, link_by, job_by, generated, written_by};

use std::alloc::{AllocError, Global};
use uring_base::Buf;
use uring_model::{Job, JobKind, Link};

/// The number behind `x`.
fn next(x: u32) -> u32
    ensures { result ≡ next x }
{
    ((1_664_525 * x as u64 + 1_013_904_223) % (1 << 32)) as u32
}

/// What the number says is written.
fn written(alloc: Global, x: u32) -> Result<Buf, AllocError>
    ensures { IfOk result (λ buf. buf ≡ written_by x) }
{
    let byte = (x / 16 % 256) as u8;
    let count = (x / 4096 % 16 + 1) as usize;
    Ok(Buf::from(vec![in alloc; byte; count]?))
}

/// The operation of the job at this place.
fn kind(alloc: Global, place: u64, x: u32) -> Result<JobKind, AllocError>
    requires { place + 1 < 18446744073709551616 }
    ensures { IfOk result (λ kind. kind ≡ kind_by (x / 65536 % 6) place x) }
{
    let file = x / 256 % 4;
    let offset = (x % 4096) as u64;
    match x / 65536 % 6 {
        0 => Ok(JobKind::Nop),
        1 => {
            let buf = Buf::zeroed(alloc, (x / 4096 % 64) as usize)?;
            Ok(JobKind::Read { file, offset, buf })
        }
        2 => {
            let buf = written(alloc, x)?;
            Ok(JobKind::Write { file, offset, buf })
        }
        3 => Ok(JobKind::Fsync { file }),
        4 => Ok(JobKind::Ftruncate { file, len: offset }),
        _ => Ok(JobKind::Cancel {
            job: x as u64 % (place + 1),
        }),
    }
}

fn link(x: u32) -> Link
    ensures { result ≡ link_by (x / 1048576 % 8) }
{
    match x / 1_048_576 % 8 {
        1 => Link::Soft,
        2 => Link::Hard,
        _ => Link::Free,
    }
}

/// The job at this place.
fn job(alloc: Global, place: u64, x: u32) -> Result<Job, AllocError>
    requires { place + 1 < 18446744073709551616 }
    ensures { IfOk result (λ job. job ≡ job_by place x) }
{
    Ok(Job {
        kind: kind(alloc, place, x)?,
        drain: x / 16_777_216 % 16 == 0,
        quiet: false,
        link: link(x),
    })
}

/// So many jobs, each with its own number: a nop, read, write, sync, truncate or cancel, on one of
/// the files 0 to 3. Some are drained, and some are linked.
pub fn generate(alloc: Global, count: u32) -> Result<Vec<Job>, AllocError>
    ensures { IfOk result (λ jobs. jobs.items ≡ generated count) }
{
    let mut jobs = Vec::with_capacity(alloc, count as usize)?;
    let mut x = 1;
    for place in 0..count {
        x = next(x);
        jobs.push(job(alloc, place as u64, x)?)?;
    }
    Ok(jobs)
}
