//! Runs whose partner takes its turns on a thread of its own.

use partner_serving::{End, Gate, NoGate};
use run_loop::{Job, JobKind, Link, Outcome, RunFault, run_shared};
use std::alloc::{AllocError, Global};
use std::sync::atomic::{AtomicBool, Ordering};
use std::test::Fail;
use std::thread;
use uring_base::{Buf, Event};
use uring_partner::{HostilePartner, LoanPlan, MemoryPartner, Partner, Scripted, Seedable};

/// How often an end looks for the other one at the most.
const LOOKS: u32 = 10_000_000;

fn job(kind: JobKind, drain: bool, link: Link) -> Job {
    Job {
        kind,
        drain,
        quiet: false,
        link,
    }
}

fn nops(alloc: Global, count: usize) -> Result<Vec<Job>, AllocError> {
    let mut jobs = Vec::new(alloc);
    for _ in 0..count {
        jobs.push(job(JobKind::Nop, false, Link::Free))?;
    }
    Ok(jobs)
}

fn has_bytes(outcome: &Outcome, bytes: &[u8]) -> bool {
    match &outcome.buf {
        Some(buf) => buf.as_slice() == bytes,
        None => false,
    }
}

/// A drained write that is linked, and a drained read of what it wrote, over rings of one entry and
/// one completion. The positions wrap. There is memory, so the run has its report.
#[test]
fn each_call_of_a_shared_run(rt: HostRuntime) -> Result<(), Fail> {
    let alloc = rt.alloc();
    let mut partner = MemoryPartner::new(alloc);
    assert!(rt; partner.put_file(alloc, 1, Buf::new(alloc)).is_ok());
    let write = JobKind::Write {
        file: 1,
        offset: 1,
        buf: Buf::from_slice(alloc, b"ab")?,
    };
    let read = JobKind::Read {
        file: 1,
        offset: 0,
        buf: Buf::zeroed(alloc, 4)?,
    };
    let mut jobs = Vec::new(alloc);
    jobs.push(job(write, true, Link::Soft))?;
    jobs.push(job(read, true, Link::Free))?;
    let (result, partner) = run_shared(&rt, alloc, 1, 1, u32::MAX, partner, jobs, &NoGate);
    let (Ok(report), Some(partner)) = (result, partner) else {
        assert!(rt; false);
        return Ok(());
    };
    assert_eq!(rt; report.outcomes.len(), 2);
    assert_eq!(rt; report.outcomes[0].result, 2);
    assert!(rt; has_bytes(&report.outcomes[0], b"ab"));
    assert_eq!(rt; report.outcomes[1].result, 3);
    assert!(rt; has_bytes(&report.outcomes[1], &[0, 97, 98, 0]));
    assert_eq!(rt; report.journal.len(), partner.log_len());
    assert!(rt; report.journal.contains(&Event::Take(1)));
    assert!(rt; partner.is_idle());
    Ok(())
}

/// Each end waits at its first round until the other one has come to its own.
#[derive(Drop)]
struct Meeting {
    engine: AtomicBool,
    partner: AtomicBool,
    missed: AtomicBool,
}

impl Meeting {
    fn new() -> Meeting {
        Meeting {
            engine: AtomicBool::new(false),
            partner: AtomicBool::new(false),
            missed: AtomicBool::new(false),
        }
    }

    fn has_met(&self) -> bool {
        let both = self.engine.load(Ordering::SeqCst) && self.partner.load(Ordering::SeqCst);
        both && !self.missed.load(Ordering::SeqCst)
    }
}

fn waits_for(other: &AtomicBool) -> bool {
    for _look in 0..LOOKS {
        if other.load(Ordering::SeqCst) {
            return true;
        }
        thread::yield_now();
    }
    false
}

impl Gate for Meeting {
    fn pass(&self, end: End, round: u64) {
        if round != 0 {
            return;
        }
        let (mine, other) = match end {
            End::Engine => (&self.engine, &self.partner),
            End::Partner => (&self.partner, &self.engine),
        };
        mine.store(true, Ordering::SeqCst);
        if !waits_for(other) {
            self.missed.store(true, Ordering::SeqCst);
        }
    }
}

/// Both ends make their first rounds at the same time: so each has a thread.
#[test]
fn gate_two_ends(rt: HostRuntime) -> Result<(), Fail> {
    let alloc = rt.alloc();
    let partner = MemoryPartner::new(alloc);
    let gate = Meeting::new();
    let (result, _partner) = run_shared(&rt, alloc, 8, 16, 0, partner, nops(alloc, 2)?, &gate);
    assert!(rt; matches!(&result, Ok(report) if report.outcomes.len() == 2));
    assert!(rt; gate.has_met());
    Ok(())
}

/// More jobs than the rings hold, every other one quiet. Each is answered, and taken once; of the
/// quiet ones the journal tells as such.
#[test]
fn many_jobs(rt: HostRuntime) -> Result<(), Fail> {
    let alloc = rt.alloc();
    let partner = MemoryPartner::new(alloc);
    let mut jobs = Vec::new(alloc);
    for number in 0..100 {
        jobs.push(Job {
            kind: JobKind::Nop,
            drain: false,
            quiet: number % 2 == 0,
            link: Link::Hard,
        })?;
    }
    let (result, _partner) = run_shared(&rt, alloc, 4, 8, 0, partner, jobs, &NoGate);
    let Ok(report) = result else {
        assert!(rt; false);
        return Ok(());
    };
    assert_eq!(rt; report.outcomes.len(), 100);
    let mut taken: u64 = 0;
    let mut quiet: u64 = 0;
    for event in &report.journal {
        if let Event::Take(number) = event {
            assert_eq!(rt; *number, taken);
            taken = taken.wrapping_add(1);
        }
        if let Event::Quiet(number) = event {
            assert_eq!(rt; *number, quiet.wrapping_mul(2));
            quiet = quiet.wrapping_add(1);
        }
    }
    assert_eq!(rt; (taken, quiet), (100, 50));
    Ok(())
}

/// Sizes are tested first, and then the jobs; the partner comes back as it was.
#[test]
fn shared_refusals(rt: HostRuntime) -> Result<(), Fail> {
    let alloc = rt.alloc();
    let partner = MemoryPartner::new(alloc);
    let (result, partner) = run_shared(&rt, alloc, 8, 4, 0, partner, nops(alloc, 1)?, &NoGate);
    assert!(rt; matches!(result, Err(RunFault::BadSize)));
    let Some(partner) = partner else {
        assert!(rt; false);
        return Ok(());
    };
    let far = JobKind::Read {
        file: 1,
        offset: 9_223_372_036_854_775_807,
        buf: Buf::zeroed(alloc, 1)?,
    };
    let mut jobs = nops(alloc, 1)?;
    jobs.push(job(far, false, Link::Free))?;
    let (result, partner) = run_shared(&rt, alloc, 8, 16, 0, partner, jobs, &NoGate);
    assert!(rt; matches!(result, Err(RunFault::BadJob(1))));
    assert!(rt; matches!(&partner, Some(partner) if partner.log_len() == 0));
    Ok(())
}

/// What no job is due is a stranger, and a planned failure is the partner's fault.
#[test]
fn shared_faults(rt: HostRuntime) -> Result<(), Fail> {
    let alloc = rt.alloc();
    let mut posts = Vec::new(alloc);
    posts.push(Scripted::Post {
        user_data: 7,
        result: 0,
        flags: 0,
        loan: LoanPlan::Nothing,
    })?;
    let partner = HostilePartner::new(alloc, posts);
    let (result, _partner) = run_shared(&rt, alloc, 8, 16, 0, partner, nops(alloc, 1)?, &NoGate);
    assert!(rt; matches!(result, Err(RunFault::Stranger(7))));
    let mut partner = MemoryPartner::new(alloc);
    partner.fail_enter(alloc, 1)?;
    let (result, partner) = run_shared(&rt, alloc, 8, 16, 0, partner, nops(alloc, 1)?, &NoGate);
    assert!(rt; matches!(result, Err(RunFault::PartnerFault)));
    assert!(rt; matches!(&partner, Some(partner) if partner.log_len() == 0));
    Ok(())
}
