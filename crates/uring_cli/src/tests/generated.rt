//! The command `gen`.

use super::words_of;
use crate::gen_main;
use crate::generated::run_generated;
use job_generator::generate;
use std::alloc::Global;
use std::test::Fail;
use uring_base::{Buf, Nums};
use uring_model::{Job, JobKind, Link};
use uring_partner::MemoryPartner;
use uring_streams::MemorySink;
use uring_text::Status;

/// The status of a command, and what it wrote, four bytes a write, of which those in `fails` fail.
fn called(alloc: Global, line: &str, fails: Nums) -> Result<(Status, Buf), Fail> {
    let words = words_of(alloc, line)?;
    let mut out = MemorySink::new(alloc, 4, fails);
    let mut partner = MemoryPartner::new(alloc);
    let status = gen_main(alloc, &words, &mut out, &mut partner);
    Ok((status, Buf::from_slice(alloc, out.bytes())?))
}

/// Each call that can find no memory answers otherwise where there is memory.
#[test]
fn each_call(rt: HostRuntime) -> Result<(), Fail> {
    let alloc = rt.alloc();
    let jobs = generate(alloc, 3)?;
    assert_eq!(rt; jobs.len(), 3);
    let mut partner = MemoryPartner::new(alloc);
    let text = run_generated(alloc, 1, &mut partner);
    assert!(rt; text.is_ok());
    assert_eq!(rt; partner.file_len(1), Some(2412));
    let (status, _) = called(alloc, "gen 1", Nums::new(alloc))?;
    assert_eq!(rt; status, Status::Done);
    Ok(())
}

/// Whether it is the first, second or third job, worked out by hand from the numbers 1015568748,
/// 1586005467 and 2165703038.
fn is_as_worked_out(place: usize, job: &Job) -> bool {
    let link = if place == 2 { Link::Soft } else { Link::Free };
    let kind = match &job.kind {
        JobKind::Ftruncate { file: 1, len: 2412 } => place == 0,
        JobKind::Write {
            file: 1,
            offset: 1499,
            buf,
        } => place == 1 && buf.as_slice() == [0x5d; 9].as_slice(),
        JobKind::Ftruncate { file: 1, len: 382 } => place == 2,
        _ => false,
    };
    kind && job.link == link && !job.drain && !job.quiet
}

#[test]
fn first_jobs(rt: HostRuntime) -> Result<(), Fail> {
    let jobs = generate(rt.alloc(), 3)?;
    for (place, job) in jobs.iter().enumerate() {
        assert!(rt; is_as_worked_out(place, job), "{place}");
    }
    Ok(())
}

/// What is told of some numbers, as `bench/generated_runs.py` works it out: less than a turn, one
/// job more than a turn, and many turns.
#[test]
fn summaries(rt: HostRuntime) -> Result<(), Fail> {
    for (line, wanted) in [
        ("gen 1", "jobs 1\nnegative 0\nturns 1\nbytes 2412\n"),
        ("gen 2", "jobs 2\nnegative 0\nturns 1\nbytes 2412\n"),
        ("gen 65", "jobs 65\nnegative 9\nturns 2\nbytes 12292\n"),
        (
            "gen 1000",
            "jobs 1000\nnegative 185\nturns 16\nbytes 10554\n",
        ),
    ] {
        let (status, text) = called(rt.alloc(), line, Nums::new(rt.alloc()))?;
        assert_eq!(rt; status, Status::Done, "{line}");
        assert_eq!(rt; text.as_slice(), wanted.as_bytes(), "{line}");
    }
    Ok(())
}

/// The most jobs, run twice, tell the same, which is what `bench/generated_runs.py` works out.
#[test]
fn most_jobs_twice(rt: HostRuntime) -> Result<(), Fail> {
    let wanted = "jobs 100000\nnegative 19956\nturns 1563\nbytes 7410\n";
    for _ in 0..2 {
        let (status, text) = called(rt.alloc(), "gen 100000", Nums::new(rt.alloc()))?;
        assert_eq!(rt; status, Status::Done);
        assert_eq!(rt; text.as_slice(), wanted.as_bytes());
    }
    Ok(())
}

/// Words that aren't the command's do nothing, and what a failing output took before stays.
#[test]
fn refusals(rt: HostRuntime) -> Result<(), Fail> {
    let alloc = rt.alloc();
    for line in [
        "",
        "gen",
        "gens 1",
        "run",
        "1 gen",
        "gen 0",
        "gen 01",
        "gen +1",
        "gen 100001",
        "gen 1 1",
        "gen x",
        "gen 4294967297",
    ] {
        let (status, text) = called(alloc, line, Nums::new(alloc))?;
        assert_eq!(rt; status, Status::Usage, "{line}");
        assert!(rt; text.is_empty(), "{line}");
    }
    let mut second = Nums::new(alloc);
    second.push(alloc, 2)?;
    let (status, text) = called(alloc, "gen 2", second)?;
    assert_eq!(rt; status, Status::WriteFault);
    assert_eq!(rt; text.as_slice(), b"jobs".as_slice());
    Ok(())
}
