use bitflags::Flags as _;
use partner_traits::{EnterCall, Partner};
use ring_setup::SubmissionFlags;
use ring_traits::{PartnerSide, UserEnds};
use std::alloc::Global;
use std::process::Abort;
use std::test::Fail;
use uring_base::errno::EIO;
use uring_base::squeue::Entry;
use uring_base::{Event, cqueue};
use uring_ops_file::Nop;
use uring_partner::MemoryPartner;
use uring_ring::IoUring;
use uring_submit::{EnterFlags, SubmitError, Submitter};
use uring_types::SubmitArgs;

/// Asserts that the enter in this place had these values, over the raw descriptor.
fn assert_entered(
    rt: &impl Abort,
    partner: &MemoryPartner,
    place: usize,
    to_submit: u32,
    want: u32,
    flags: EnterFlags,
) {
    let wanted = EnterCall {
        ring: -1,
        to_submit,
        want,
        flags: flags.bits(),
        args: None,
    };
    assert_eq!(rt; partner.enter_call(place), Some(&wanted));
}

/// The one call that can find no memory answers otherwise where there is memory.
#[test]
fn each_call_of_the_submitter(rt: HostRuntime) -> Result<(), Fail> {
    let alloc = rt.alloc();
    let mut ring = IoUring::new(alloc, 2)?;
    let mut partner = MemoryPartner::new(alloc);
    let mut submitter = Submitter::new(ring.params());
    assert!(rt; ring.offer(Nop::new().build(), None).is_ok());
    ring.publish();
    let answer = submitter.submit_and_wait(alloc, &mut ring, &mut partner, 1);
    assert_eq!(rt; answer, Ok(1));
    Ok(())
}

/// What is published, what is wanted and what the ring's flags say reaches the partner.
#[test]
fn values_of_an_enter(rt: HostRuntime) -> Result<(), Fail> {
    let alloc = rt.alloc();
    let mut ring = IoUring::new(alloc, 2)?;
    let mut submitter = Submitter::new(ring.params());
    let mut partner = MemoryPartner::new(alloc);
    assert_eq!(rt;
        submitter.submit_and_wait(alloc, &mut ring, &mut partner, 0),
        Ok(0)
    );
    assert_entered(&rt, &partner, 0, 0, 0, EnterFlags::empty());
    assert!(rt; ring.offer(Nop::new().build(), None).is_ok());
    ring.publish();
    assert_eq!(rt;
        submitter.submit_and_wait(alloc, &mut ring, &mut partner, 3),
        Ok(1)
    );
    assert_entered(&rt, &partner, 1, 1, 3, EnterFlags::GETEVENTS);
    ring.set_sq_flags(SubmissionFlags::CQ_OVERFLOW.bits());
    assert_eq!(rt;
        submitter.submit_and_wait(alloc, &mut ring, &mut partner, 0),
        Ok(0)
    );
    assert_entered(&rt, &partner, 2, 0, 0, EnterFlags::GETEVENTS);
    Ok(())
}

/// A partner's fault is handed on with its error number.
#[test]
fn faults_are_handed_on(rt: HostRuntime) -> Result<(), Fail> {
    let alloc = rt.alloc();
    let mut ring = IoUring::new(alloc, 2)?;
    let mut submitter = Submitter::new(ring.params());
    let mut partner = MemoryPartner::new(alloc);
    assert!(rt; partner.fail_enter(alloc, 1).is_ok());
    let answer = submitter.submit_and_wait(alloc, &mut ring, &mut partner, 1);
    assert_eq!(rt; answer, Err(SubmitError::Fault(EIO.cast_unsigned())));
    Ok(())
}

/// Where the partner's own thread takes entries there is no enter while it is awake, and one that
/// wakes it once it sleeps.
#[test]
fn a_thread_is_woken_where_it_sleeps(rt: HostRuntime) -> Result<(), Fail> {
    let alloc = rt.alloc();
    let mut builder = IoUring::<Entry, cqueue::Entry>::builder();
    let mut ring = builder.setup_sqpoll(1).build(alloc, 2)?;
    let mut submitter = Submitter::new(ring.params());
    let mut partner = MemoryPartner::new(alloc);
    assert_eq!(rt; submitter.submit(alloc, &mut ring, &mut partner), Ok(0));
    assert_eq!(rt; partner.log_len(), 0);
    ring.set_sq_flags(SubmissionFlags::NEED_WAKEUP.bits());
    assert_eq!(rt; submitter.submit(alloc, &mut ring, &mut partner), Ok(0));
    assert_eq!(rt; partner.log_len(), 1);
    assert_eq!(rt; partner.log_event(0), Event::Turn(0));
    let Some(call) = partner.enter_call(0) else {
        panic!(rt; "the enter is kept");
    };
    assert_eq!(rt; call.flags, 2);
    assert_eq!(rt; call.ring, -1);
    assert!(rt; partner.enter_call(1).is_none());
    Ok(())
}

/// The other calls that enter, each with its values.
#[test]
fn values_of_the_other_enters(rt: HostRuntime) -> Result<(), Fail> {
    let alloc = rt.alloc();
    let mut ring = IoUring::new(alloc, 2)?;
    let mut submitter = Submitter::new(ring.params());
    let mut partner = MemoryPartner::new(alloc);
    let args = SubmitArgs::new().min_wait_usec(5);
    assert_eq!(rt;
        submitter.submit_with_args(alloc, &mut ring, &mut partner, 1, args),
        Ok(0)
    );
    let wanted = EnterCall {
        ring: -1,
        to_submit: 0,
        want: 1,
        flags: 9,
        args: Some(args),
    };
    assert_eq!(rt; partner.enter_call(0), Some(&wanted));
    assert_eq!(rt;
        submitter.squeue_wait(alloc, &mut ring, &mut partner),
        Ok(0)
    );
    assert_entered(&rt, &partner, 1, 0, 0, EnterFlags::SQ_WAIT);
    assert_eq!(rt;
        submitter.enter(alloc, &mut ring, &mut partner, 3, 4, 64, None),
        Ok(0)
    );
    assert_entered(&rt, &partner, 2, 3, 4, EnterFlags::EXT_ARG_REG);
    Ok(())
}
