use ring_setup::Settings;
use ring_traits::UserEnds;
use run_loop::{Job, JobKind, Link, RunFault, first_bad_job, run_jobs, run_on};
use std::alloc::{AllocError, Global};
use std::process::Abort;
use std::test::Fail;
use uring_base::{Buf, Event};
use uring_partner::{HostilePartner, LoanPlan, MemoryPartner, Partner, Scripted, Seedable};
use uring_shared::SharedRings;

fn free(kind: JobKind) -> Job {
    Job {
        kind,
        drain: false,
        quiet: false,
        link: Link::Free,
    }
}

fn one(alloc: Global, kind: JobKind) -> Result<Vec<Job>, AllocError> {
    let mut jobs = Vec::new(alloc);
    jobs.push(free(kind))?;
    Ok(jobs)
}

fn read_of_two(alloc: Global) -> Result<JobKind, AllocError> {
    Ok(JobKind::Read {
        file: 3,
        offset: 0,
        buf: Buf::zeroed(alloc, 2)?,
    })
}

fn post(user_data: u64, outcome: i32, flags: u32, loan: LoanPlan) -> Scripted {
    Scripted::Post {
        user_data,
        result: outcome,
        flags,
        loan,
    }
}

/// A write past the end of an empty file, and a read of it, with ample memory.
#[test]
fn each_call(rt: HostRuntime) -> Result<(), Fail> {
    let alloc = rt.alloc();
    let mut partner = MemoryPartner::new(alloc);
    assert!(rt; partner.put_file(alloc, 1, Buf::new(alloc)).is_ok());
    let mut jobs = one(
        alloc,
        JobKind::Write {
            file: 1,
            offset: 2,
            buf: Buf::from_slice(alloc, &[255])?,
        },
    )?;
    jobs.push(free(JobKind::Read {
        file: 1,
        offset: 0,
        buf: Buf::zeroed(alloc, 3)?,
    }))?;
    let Ok(report) = run_jobs(alloc, 8, 16, u32::MAX, 2, &mut partner, jobs) else {
        assert!(rt; false);
        return Ok(());
    };
    assert_eq!(rt; report.outcomes.len(), 2);
    assert_eq!(rt; report.outcomes[0].result, 1);
    assert_eq!(rt; report.outcomes[1].result, 3);
    assert!(rt; report.outcomes[0].buf.is_some());
    assert_eq!(rt; report.journal.len(), 5);
    assert_eq!(rt; report.journal[0], Event::Turn(2));
    assert!(rt; partner.is_idle());
    Ok(())
}

/// What a run answers to one job over a partner with this script, or none for its report.
fn fault_over(
    rt: &impl Abort,
    alloc: Global,
    kind: JobKind,
    posts: Vec<Scripted>,
) -> Result<Option<RunFault>, Fail> {
    let mut partner = HostilePartner::new(alloc, posts);
    let jobs = one(alloc, kind)?;
    match run_jobs(alloc, 8, 16, 0, 2, &mut partner, jobs) {
        Ok(report) => {
            assert_eq!(rt; report.outcomes.len(), 1);
            Ok(None)
        }
        Err(fault) => Ok(Some(fault)),
    }
}

/// Posts that no job is due are strangers, a silent partner stalls, and a count above the buffer
/// is told as it came.
#[test]
fn hostile_partners(rt: HostRuntime) -> Result<(), Fail> {
    let alloc = rt.alloc();
    let posts = vec![in alloc; post(7, 0, 0, LoanPlan::Nothing)]?;
    assert_eq!(rt;
        fault_over(&rt, alloc, JobKind::Nop, posts)?,
        Some(RunFault::Stranger(7))
    );
    let read = read_of_two(alloc)?;
    let posts = vec![in alloc; post(0, 2, 0, LoanPlan::Foreign(9))]?;
    assert_eq!(rt;
        fault_over(&rt, alloc, read, posts)?,
        Some(RunFault::Stranger(0))
    );
    let read = read_of_two(alloc)?;
    let posts = vec![in alloc; post(0, 2, 0, LoanPlan::Nothing)]?;
    assert_eq!(rt;
        fault_over(&rt, alloc, read, posts)?,
        Some(RunFault::Stranger(0))
    );
    let posts = Vec::new(alloc);
    assert_eq!(rt;
        fault_over(&rt, alloc, JobKind::Nop, posts)?,
        Some(RunFault::Stalled)
    );
    let read = read_of_two(alloc)?;
    let posts = vec![in alloc; post(0, 1000, 0, LoanPlan::Lent)]?;
    assert_eq!(rt; fault_over(&rt, alloc, read, posts)?, None);
    Ok(())
}

/// A silent partner is given up after as many idle turns as may pass: its log has a turn over the
/// entry, the entry's taking, which keeps that turn from being idle, and two turns over none.
#[test]
fn idle_turns(rt: HostRuntime) -> Result<(), Fail> {
    let alloc = rt.alloc();
    let mut partner = HostilePartner::new(alloc, Vec::new(alloc));
    let jobs = one(alloc, JobKind::Nop)?;
    let run = run_jobs(alloc, 8, 16, 0, 2, &mut partner, jobs);
    assert!(rt; matches!(run, Err(RunFault::Stalled)));
    assert_eq!(rt; partner.log_len(), 4);
    Ok(())
}

/// The positions of a ring of 2 entries and 4 completions before and after a run on it.
#[tactic(auto, unfolding(ring_core::specs::Positions::is_ring_size))]
fn places_around(
    alloc: Global,
    start: u32,
    partner: &mut MemoryPartner,
    jobs: Vec<Job>,
) -> Option<((u32, u32), (u32, u32))> {
    let settings = Settings {
        cq_entries: Some(4),
        ..Settings::new(0)
    };
    let Ok(parameters) = settings.parameters(2) else {
        return None;
    };
    let Ok(ring) = SharedRings::new(alloc, 2, 4, start) else {
        return None;
    };
    if first_bad_job(&jobs).is_some() {
        return None;
    }
    let before = ring.places();
    let (_report, ring) = run_on(alloc, ring, parameters, 2, partner, jobs).ok()?;
    Some((before, ring.places()))
}

/// A ring that is handed in goes through the run: two jobs and two posts.
#[test]
fn on_a_ring(rt: HostRuntime) -> Result<(), Fail> {
    let alloc = rt.alloc();
    let mut partner = MemoryPartner::new(alloc);
    let mut jobs = one(alloc, JobKind::Nop)?;
    jobs.push(free(JobKind::Nop))?;
    assert_eq!(rt;
        places_around(alloc, u32::MAX, &mut partner, jobs),
        Some(((u32::MAX, u32::MAX), (1, 1)))
    );
    Ok(())
}

/// Sizes are tested first, and then the jobs.
#[test]
fn refusals(rt: HostRuntime) -> Result<(), Fail> {
    let alloc = rt.alloc();
    let mut partner = MemoryPartner::new(alloc);
    let far = JobKind::Read {
        file: 1,
        offset: 9_223_372_036_854_775_807,
        buf: Buf::zeroed(alloc, 1)?,
    };
    let sizes = run_jobs(alloc, 8, 4, 0, 1, &mut partner, Vec::new(alloc));
    assert!(rt; matches!(sizes, Err(RunFault::BadSize)));
    let jobs = run_jobs(alloc, 8, 16, 0, 1, &mut partner, one(alloc, far)?);
    assert!(rt; matches!(jobs, Err(RunFault::BadJob(0))));
    Ok(())
}

/// A sync tells that it went well, or the errno: a result above 0 is told as 0.
#[test]
fn syncs(rt: HostRuntime) -> Result<(), Fail> {
    let alloc = rt.alloc();
    for (posted, told) in [(5, 0), (0, 0), (-5, -5)] {
        let posts = vec![in alloc; post(0, posted, 0, LoanPlan::Nothing)]?;
        let mut partner = HostilePartner::new(alloc, posts);
        let jobs = one(alloc, JobKind::Fsync { file: 3 })?;
        let Ok(report) = run_jobs(alloc, 8, 16, 0, 2, &mut partner, jobs) else {
            assert!(rt; false);
            return Ok(());
        };
        assert_eq!(rt; report.outcomes.len(), 1);
        assert_eq!(rt; report.outcomes[0].result, told);
    }
    Ok(())
}
