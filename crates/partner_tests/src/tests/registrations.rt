use ring_traits::UserEnds;
use std::process::Abort;
use std::test::Fail;
use uring_ops_file::Nop;
use uring_partner::MemoryPartner;
use uring_ring::IoUring;
use uring_submit::{Probe, Restriction, SKIP_FILE, SubmitError, Submitter};
use uring_types::{CancelBuilder, CloneBuffersFlags, Napi, Timespec};

/// Asserts that the request in this place had this code, count and numbers.
fn assert_sent(
    rt: &impl Abort,
    partner: &MemoryPartner,
    place: usize,
    code: u32,
    nr: u32,
    nums: &[u64],
) {
    let Some(request) = partner.request(place) else {
        panic!(rt; "the request is kept");
    };
    assert_eq!(rt; request.ring, -1);
    assert_eq!(rt; request.code, code);
    assert_eq!(rt; request.nr, nr);
    assert!(rt; request.nums.as_slice() == nums);
    assert!(rt; partner.request(place.saturating_add(1)).is_none());
}

#[test]
fn buffers_are_registered(rt: HostRuntime) -> Result<(), Fail> {
    let alloc = rt.alloc();
    let ring = IoUring::new(alloc, 2)?;
    let submitter = Submitter::new(ring.params());
    let mut p = MemoryPartner::new(alloc);
    submitter.register_buffers(alloc, &mut p, &[7, 8])?;
    assert_sent(&rt, &p, 0, 0, 2, &[7, 8]);
    submitter.register_buffers_update(alloc, &mut p, 4, &[7, 8, 9], Some(&[1, 2]))?;
    assert_sent(&rt, &p, 1, 16, 32, &[4, 2, 7, 8, 1, 2]);
    submitter.register_buffers_update(alloc, &mut p, 4, &[7], None)?;
    assert_sent(&rt, &p, 2, 16, 32, &[4, 1, 7]);
    submitter.register_buffers2(alloc, &mut p, &[7], &[1, 2])?;
    assert_sent(&rt, &p, 3, 15, 32, &[1, 0, 7, 1]);
    submitter.register_buffers_sparse(alloc, &mut p, 6)?;
    assert_sent(&rt, &p, 4, 15, 32, &[6, 1]);
    submitter.register_buffers_clone(alloc, &mut p, -1)?;
    assert_sent(&rt, &p, 5, 30, 1, &[4294967295, 0, 0, 0, 0]);
    let flags = CloneBuffersFlags::DST_REPLACE;
    submitter.register_buffers_clone_offset(alloc, &mut p, 3, 4, 5, 6, flags)?;
    assert_sent(&rt, &p, 6, 30, 1, &[3, 2, 4, 5, 6]);
    submitter.unregister_buffers(alloc, &mut p)?;
    assert_sent(&rt, &p, 7, 1, 0, &[]);
    Ok(())
}

#[test]
fn files_and_events_are_registered(rt: HostRuntime) -> Result<(), Fail> {
    let alloc = rt.alloc();
    let ring = IoUring::new(alloc, 2)?;
    let submitter = Submitter::new(ring.params());
    let mut p = MemoryPartner::new(alloc);
    submitter.register_files_sparse(alloc, &mut p, 5)?;
    assert_sent(&rt, &p, 0, 13, 32, &[5, 1]);
    submitter.register_files(alloc, &mut p, &[3, -1])?;
    assert_sent(&rt, &p, 1, 2, 2, &[3, 4294967295]);
    let updated = submitter.register_files_update(alloc, &mut p, 9, &[3, SKIP_FILE])?;
    assert_eq!(rt; updated, 2);
    assert_sent(&rt, &p, 2, 6, 2, &[9, 3, 4294967294]);
    submitter.register_eventfd(alloc, &mut p, 4)?;
    assert_sent(&rt, &p, 3, 4, 1, &[4]);
    submitter.register_eventfd_async(alloc, &mut p, 4)?;
    assert_sent(&rt, &p, 4, 7, 1, &[4]);
    submitter.unregister_files(alloc, &mut p)?;
    assert_sent(&rt, &p, 5, 3, 0, &[]);
    submitter.unregister_eventfd(alloc, &mut p)?;
    assert_sent(&rt, &p, 6, 5, 0, &[]);
    let personality = submitter.register_personality(alloc, &mut p)?;
    assert_eq!(rt; personality, 1);
    assert_sent(&rt, &p, 7, 9, 0, &[]);
    submitter.unregister_personality(alloc, &mut p, 12)?;
    assert_sent(&rt, &p, 8, 10, 12, &[]);
    Ok(())
}

#[test]
fn settings_are_registered(rt: HostRuntime) -> Result<(), Fail> {
    let alloc = rt.alloc();
    let ring = IoUring::new(alloc, 2)?;
    let submitter = Submitter::new(ring.params());
    let mut p = MemoryPartner::new(alloc);
    let allowed = [
        Restriction::register_op(11),
        Restriction::sqe_op(22),
        Restriction::sqe_flags_allowed(4),
        Restriction::sqe_flags_required(1),
    ];
    submitter.register_restrictions(alloc, &mut p, &allowed)?;
    assert_sent(&rt, &p, 0, 11, 4, &[720896, 1441793, 262146, 65539]);
    submitter.register_enable_rings(alloc, &mut p)?;
    assert_sent(&rt, &p, 1, 12, 0, &[]);
    let mut max = [3, 4];
    submitter.register_iowq_max_workers(alloc, &mut p, &mut max)?;
    assert_sent(&rt, &p, 2, 19, 2, &[3, 4]);
    assert!(rt; max == [3, 4]);
    submitter.register_buf_ring(alloc, &mut p, 99, 8, 2)?;
    assert_sent(&rt, &p, 3, 22, 1, &[99, 8, 2, 0]);
    submitter.register_buf_ring_with_flags(alloc, &mut p, 99, 8, 2, 1)?;
    assert_sent(&rt, &p, 4, 22, 1, &[99, 8, 2, 1]);
    submitter.unregister_buf_ring(alloc, &mut p, 2)?;
    assert_sent(&rt, &p, 5, 23, 1, &[0, 0, 2, 0]);
    let time = Timespec::new().sec(2).nsec(500);
    submitter.register_sync_cancel(
        alloc,
        &mut p,
        Some(time),
        CancelBuilder::user_data(42).all(),
    )?;
    assert_sent(&rt, &p, 6, 24, 1, &[42, 4294967295, 1, 2, 500]);
    submitter.register_sync_cancel(alloc, &mut p, None, CancelBuilder::any())?;
    let forever = 18446744073709551615;
    assert_sent(&rt, &p, 7, 24, 1, &[0, 4294967295, 4, forever, forever]);
    Ok(())
}

#[test]
fn napi_is_registered(rt: HostRuntime) -> Result<(), Fail> {
    let alloc = rt.alloc();
    let ring = IoUring::new(alloc, 2)?;
    let submitter = Submitter::new(ring.params());
    let mut p = MemoryPartner::new(alloc);
    let mut napi = Napi::new()
        .set_busy_poll_timeout(50)
        .set_prefer_busy_poll(true);
    submitter.register_napi(alloc, &mut p, &mut napi)?;
    assert_sent(&rt, &p, 0, 27, 1, &[50, 1, 0, 0]);
    assert_eq!(rt; napi.busy_poll_timeout, 50);
    assert!(rt; napi.prefer_busy_poll);
    submitter.unregister_napi(alloc, &mut p, &mut napi)?;
    assert_sent(&rt, &p, 1, 28, 1, &[50, 1, 0, 0]);
    submitter.register_napi_add_id(alloc, &mut p, 6)?;
    assert_sent(&rt, &p, 2, 27, 1, &[0, 0, 1, 6]);
    submitter.register_napi_del_id(alloc, &mut p, 6)?;
    assert_sent(&rt, &p, 3, 27, 1, &[0, 0, 2, 6]);
    Ok(())
}

/// A ring's descriptor is registered once and let go once, and a probe tells what is served.
#[test]
fn a_ring_is_registered(rt: HostRuntime) -> Result<(), Fail> {
    let alloc = rt.alloc();
    let mut ring = IoUring::new(alloc, 2)?;
    let mut submitter = Submitter::new(ring.params());
    let mut p = MemoryPartner::new(alloc);
    assert_eq!(rt; submitter.register_ring_fd(alloc, &mut p), Ok(()));
    assert_sent(&rt, &p, 0, 20, 1, &[4294967295, 0]);
    assert_eq!(rt;
        submitter.register_ring_fd(alloc, &mut p),
        Err(SubmitError::Exists)
    );
    assert!(rt; p.request(1).is_none());
    assert!(rt; ring.offer(Nop::new().build(), None).is_ok());
    ring.publish();
    assert_eq!(rt; submitter.submit(alloc, &mut ring, &mut p), Ok(1));
    let Some(call) = p.enter_call(0) else {
        panic!(rt; "the enter is kept");
    };
    assert_eq!(rt; call.ring, 0);
    assert_eq!(rt; call.flags, 16);
    assert_eq!(rt; submitter.unregister_ring_fd(alloc, &mut p), Ok(()));
    let Some(request) = p.request(1) else {
        panic!(rt; "the request is kept");
    };
    assert_eq!(rt; request.ring, 0);
    assert_eq!(rt; request.code, 2147483669);
    assert!(rt; request.nums.as_slice() == [0, 0].as_slice());
    let again = submitter.unregister_ring_fd(alloc, &mut p);
    assert_eq!(rt; again, Err(SubmitError::NotRegistered));
    assert!(rt; p.request(2).is_none());
    Ok(())
}

#[test]
fn a_probe_tells_what_is_served(rt: HostRuntime) -> Result<(), Fail> {
    let alloc = rt.alloc();
    let ring = IoUring::new(alloc, 2)?;
    let submitter = Submitter::new(ring.params());
    let mut p = MemoryPartner::new(alloc);
    let mut probe = Probe::new();
    assert!(rt; !probe.is_supported(0));
    submitter.register_probe(alloc, &mut p, &mut probe)?;
    let Some(request) = p.request(0) else {
        panic!(rt; "the request is kept");
    };
    assert_eq!(rt; request.code, 8);
    assert_eq!(rt; request.nr, 256);
    assert_eq!(rt; request.nums.len(), 257);
    let served: [u8; 12] = [0, 3, 14, 18, 19, 21, 22, 23, 35, 36, 37, 55];
    for op in 0..=255 {
        assert_eq!(rt; probe.is_supported(op), served.contains(&op));
    }
    Ok(())
}
