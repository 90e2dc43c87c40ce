use std::alloc::{AllocError, Global};
use std::test::Fail;
use uring_base::{Buf, Event};
use uring_model::{
    Files, Job, JobKind, Link, Operation, Outcome, Replayed, RunFault, have_counts, perform, replay,
};

#[derive(Debug, Drop)]
enum Trouble {
    TooLong,
    NoReplay,
}

fn job(kind: JobKind, link: Link) -> Job {
    Job {
        kind,
        drain: false,
        quiet: false,
        link,
    }
}

fn one_file(alloc: Global, number: u32, bytes: &[u8]) -> Result<Files, AllocError> {
    let mut files = Files::new(alloc);
    files.put(alloc, number, Buf::from_slice(alloc, bytes)?)?;
    Ok(files)
}

fn post(job: u64, answer: i32) -> Event {
    Event::Post {
        job,
        result: answer,
        fin: true,
    }
}

fn run(alloc: Global, files: Files, jobs: Vec<Job>, journal: &[Event]) -> Result<Replayed, Fail> {
    if !have_counts(&jobs) {
        return Err(Fail::from(Trouble::TooLong));
    }
    match replay(alloc, jobs, files, journal)? {
        Some(replayed) => Ok(replayed),
        None => Err(Fail::from(Trouble::NoReplay)),
    }
}

fn is_outcome(outcome: &Option<Outcome>, answer: i32, bytes: &[u8]) -> bool {
    match outcome {
        Some(
            Outcome {
                result,
                buf: Some(buf),
                quiet: false,
            },
        ) => *result == answer && buf.as_slice() == bytes,
        _ => false,
    }
}

/// Each call that can find no memory answers otherwise where there is memory: a write past the end
/// of a file, and a short read whose soft link cuts the write behind it.
#[test]
fn each_call(rt: HostRuntime) -> Result<(), Fail> {
    let alloc = rt.alloc();
    let mut files = one_file(alloc, 3, b"hello")?;
    let mut part = [7u8];
    let operation = Operation::Write { file: 3, offset: 6 };
    let answered = perform(alloc, &mut files, operation, false, &mut part)?;
    assert_eq!(rt; answered.result, 1);
    let read = JobKind::Read {
        file: 3,
        offset: 5,
        buf: Buf::zeroed(alloc, 3)?,
    };
    let write = JobKind::Write {
        file: 3,
        offset: 0,
        buf: Buf::from_slice(alloc, b"c")?,
    };
    let jobs = vec![in alloc; job(read, Link::Soft), job(write, Link::Free)]?;
    let journal = [
        Event::Turn(2),
        Event::Take(0),
        Event::Take(1),
        post(0, 2),
        post(1, -125),
    ];
    let replayed = run(alloc, files, jobs, &journal)?;
    assert!(rt; replayed.is_whole());
    let file = replayed.files.get(3);
    assert!(rt; matches!(file, Some(bytes) if bytes.as_slice() == b"hello\0\x07".as_slice()));
    let outcomes = replayed.into_outcomes(alloc)?;
    assert_eq!(rt; outcomes.len(), 2);
    assert!(rt; is_outcome(&outcomes[0], 2, b"\0\x07\0"));
    assert!(rt; is_outcome(&outcomes[1], -125, b"c"));
    Ok(())
}

/// A job that isn't taken or hasn't settled has no outcome.
#[test]
fn parts_of_runs(rt: HostRuntime) -> Result<(), Fail> {
    let alloc = rt.alloc();
    let nop = job(JobKind::Nop, Link::Free);
    let jobs = vec![in alloc;
        nop,
        job(JobKind::Nop, Link::Free),
        job(JobKind::Nop, Link::Free),
    ]?;
    let journal = [Event::Take(0), Event::Take(1), post(1, 0)];
    let replayed = run(alloc, Files::new(alloc), jobs, &journal)?;
    assert!(rt; !replayed.is_whole());
    let outcomes = replayed.into_outcomes(alloc)?;
    assert_eq!(rt; outcomes.len(), 3);
    assert!(rt; outcomes[0].is_none());
    assert!(rt;
        matches!(&outcomes[1], Some(outcome) if outcome.result == 0 && outcome.buf.is_none())
    );
    assert!(rt; outcomes[2].is_none());
    Ok(())
}

/// What a fault says.
#[test]
fn texts(rt: HostRuntime) -> Result<(), Fail> {
    let alloc = rt.alloc();
    for (fault, text) in [
        (RunFault::BadSize, "bad ring size"),
        (RunFault::BadJob(3), "bad job 3"),
        (
            RunFault::Stranger(18446744073709551615),
            "partner posted for job 18446744073709551615 what was not due",
        ),
        (RunFault::Stalled, "stalled"),
        (RunFault::PartnerFault, "partner fault"),
        (RunFault::NoMemory, "no memory"),
    ] {
        assert_eq!(rt; fault.to_string(alloc)?.as_str(), text);
    }
    Ok(())
}
