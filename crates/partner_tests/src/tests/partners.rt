//! Turns of both partners over a small pair of rings, worked out by hand.

use bitflags::Flags as _;
use partner_traits::{EnterCall, Partner, PartnerError, Seedable};
use ring_traits::UserEnds;
use std::alloc::{AllocError, Global};
use std::process::Abort;
use std::test::Fail;
use uring_base::errno::{EBADF, EINVAL, EIO, EOPNOTSUPP};
use uring_base::squeue::{Entry, Flags};
use uring_base::types::Fixed;
use uring_base::{Buf, Event, Loan, cqueue};
use uring_ops_file::{AsyncCancel, Nop, Read, Write};
use uring_partner::{HostilePartner, LoanPlan, MemoryPartner, Scripted};
use uring_ring::IoUring;

/// No operation has this code.
const NO_OPERATION: u8 = 77;

/// `IORING_ASYNC_CANCEL_ALL`, in the word of a cancel's own flags.
const CANCEL_ALL: u32 = 1;

fn offer(rt: &impl Abort, ring: &mut IoUring, entry: Entry, number: u64, loan: Option<Loan>) {
    assert!(rt; ring.offer(entry.user_data(number), loan).is_ok());
}

fn lent(alloc: Global, number: u64, from: u32, bytes: &[u8]) -> Result<Option<Loan>, AllocError> {
    let buf = Buf::from_slice(alloc, bytes)?;
    Ok(Some(Loan { number, from, buf }))
}

/// A turn over what was offered, of which the user sees what it posted.
fn turn<P: Partner>(
    alloc: Global,
    partner: &mut P,
    ring: &mut IoUring,
) -> Result<u32, PartnerError> {
    let call = EnterCall {
        ring: -1,
        to_submit: 8,
        want: 0,
        flags: 0,
        args: None,
    };
    ring.publish();
    let taken = partner.enter(alloc, &call, ring)?;
    ring.refresh();
    Ok(taken)
}

/// Reaps a completion with this number and result, and this loan's number and bytes, if any.
fn reap(
    rt: &impl Abort,
    ring: &mut IoUring,
    number: u64,
    outcome: i32,
    loan: Option<(u64, &[u8])>,
) {
    let Some(completion) = ring.reap() else {
        panic!(rt; "nothing to reap");
    };
    assert_eq!(rt; completion.user_data, number);
    assert_eq!(rt; completion.result, outcome);
    match (&completion.loan, loan) {
        (Some(back), Some((lent, bytes))) => {
            assert_eq!(rt; back.number, lent);
            assert_eq!(rt; back.buf.as_slice(), bytes);
        }
        (None, None) => {}
        _ => panic!(rt; "a loan is missing, or one too many"),
    }
}

fn event<P: Partner>(rt: &impl Abort, partner: &P, place: usize) -> Event {
    assert!(rt; place < partner.log_len());
    partner.log_event(place)
}

/// A write of two bytes, and a read into the four bytes from the loan's place on.
#[test]
fn reads_and_writes(rt: HostRuntime) -> Result<(), Fail> {
    let alloc = rt.alloc();
    let mut partner = MemoryPartner::new(alloc);
    let mut ring = IoUring::new(alloc, 4)?;
    partner.put_file(alloc, 1, Buf::from_slice(alloc, b"hello")?)?;
    let write = Write::new(Fixed(1), 8, 2).offset(1).build();
    offer(&rt, &mut ring, write, 8, lent(alloc, 8, 0, b"XY")?);
    let read = Read::new(Fixed(1), 9, 5).build();
    offer(&rt, &mut ring, read, 9, lent(alloc, 9, 2, b"abcdef")?);
    assert_eq!(rt; turn(alloc, &mut partner, &mut ring)?, 2);
    reap(&rt, &mut ring, 8, 2, Some((8, b"XY")));
    reap(&rt, &mut ring, 9, 4, Some((9, b"abhXYl")));
    assert_eq!(rt; partner.file_bytes(1), Some(b"hXYlo".as_slice()));
    assert_eq!(rt; partner.log_len(), 5);
    assert_eq!(rt; event(&rt, &partner, 0), Event::Turn(2));
    assert_eq!(rt; event(&rt, &partner, 2), Event::Take(9));
    let last = Event::Post {
        job: 9,
        result: 4,
        fin: true,
    };
    assert_eq!(rt; event(&rt, &partner, 4), last);
    Ok(())
}

/// Reads without a loan and of no file, a code of no operation, a flag that isn't served, and a
/// cancel of more than one.
#[test]
fn refuses_what_it_cannot_do(rt: HostRuntime) -> Result<(), Fail> {
    let alloc = rt.alloc();
    let mut partner = MemoryPartner::new(alloc);
    let mut ring = IoUring::new(alloc, 8)?;
    let read = Read::new(Fixed(1), 1, 2).build();
    offer(&rt, &mut ring, read, 1, None);
    offer(&rt, &mut ring, read, 2, lent(alloc, 2, 0, b"ab")?);
    offer(&rt, &mut ring, Entry::blank(NO_OPERATION), 3, None);
    let selecting = Nop::new().build().flags(Flags::BUFFER_SELECT);
    offer(&rt, &mut ring, selecting, 4, None);
    let cancel = Entry {
        op: CANCEL_ALL,
        ..AsyncCancel::new(3).build()
    };
    offer(&rt, &mut ring, cancel, 5, None);
    assert_eq!(rt; turn(alloc, &mut partner, &mut ring)?, 5);
    reap(&rt, &mut ring, 1, -EINVAL, None);
    reap(&rt, &mut ring, 2, -EBADF, Some((2, b"ab")));
    reap(&rt, &mut ring, 3, -EOPNOTSUPP, None);
    reap(&rt, &mut ring, 4, -EOPNOTSUPP, None);
    reap(&rt, &mut ring, 5, -EOPNOTSUPP, None);
    Ok(())
}

/// The calls of a memory partner that can find no memory, with ample memory.
#[test]
fn each_call_of_a_memory_partner(rt: HostRuntime) -> Result<(), Fail> {
    let alloc = rt.alloc();
    let mut partner = MemoryPartner::new(alloc);
    let mut ring = IoUring::new(alloc, 4)?;
    partner.put_file(alloc, 3, Buf::from_slice(alloc, b"four")?)?;
    assert_eq!(rt; partner.file_len(3), Some(4));
    partner.add_choice(alloc, 1)?;
    partner.fail_enter(alloc, 2)?;
    offer(&rt, &mut ring, Nop::new().build(), 1, None);
    assert_eq!(rt; turn(alloc, &mut partner, &mut ring)?, 1);
    let fault = Err(PartnerError::Fault(EIO.cast_unsigned()));
    assert_eq!(rt; turn(alloc, &mut partner, &mut ring), fault);
    assert_eq!(rt; partner.faults(), 1);
    assert_eq!(rt; partner.log_len(), 3);
    assert_eq!(rt; turn(alloc, &mut partner, &mut ring)?, 0);
    reap(&rt, &mut ring, 1, 0, None);
    assert!(rt; partner.is_idle());
    Ok(())
}

fn post(user_data: u64, outcome: i32, flags: cqueue::Flags, loan: LoanPlan) -> Scripted {
    Scripted::Post {
        user_data,
        result: outcome,
        flags: flags.bits(),
        loan,
    }
}

/// A read's loan comes back once, and a foreign one in between; the second turn posts the rest.
#[test]
fn posts_its_script(rt: HostRuntime) -> Result<(), Fail> {
    let alloc = rt.alloc();
    let none = cqueue::Flags::empty();
    let mut script = Vec::new(alloc);
    script.push(post(1, -EIO, none, LoanPlan::Lent))?;
    script.push(post(9, 3, cqueue::Flags::MORE, LoanPlan::Foreign(4)))?;
    script.push(Scripted::Turn)?;
    script.push(post(1, 0, none, LoanPlan::Lent))?;
    let mut partner = HostilePartner::new(alloc, script);
    let mut ring = IoUring::new(alloc, 2)?;
    let read = Read::new(Fixed(7), 1, 2).build();
    offer(&rt, &mut ring, read, 1, lent(alloc, 1, 0, b"ab")?);
    assert_eq!(rt; turn(alloc, &mut partner, &mut ring)?, 1);
    reap(&rt, &mut ring, 1, -EIO, Some((1, b"ab")));
    reap(&rt, &mut ring, 9, 3, Some((4, b"")));
    assert!(rt; ring.reap().is_none());
    let last = Event::Post {
        job: 9,
        result: 3,
        fin: false,
    };
    assert_eq!(rt; event(&rt, &partner, 3), last);
    assert_eq!(rt; turn(alloc, &mut partner, &mut ring)?, 0);
    reap(&rt, &mut ring, 1, 0, None);
    Ok(())
}
