use crate::tests::helpers::{
    all_over, assert_completes, assert_in_flight, assert_resolved, cancel_under, completion,
    engine_of, is_key_in_use, is_ring_full, nop_under, start_nop, turn,
};
use crate::tests::quiet_ends::quiet_under;
use bitflags::Flags as _;
use partner_traits::Seedable;
use rent_engine::{Engine, EngineFault, OneAnswer, OneOp, OpState, Poll, Step};
use std::alloc::Global;
use std::process::Abort;
use uring_base::errno::{ECANCELED, ENOENT};
use uring_base::squeue::Entry;
use uring_base::types::Fixed;
use uring_base::{Buf, Completion, Loan, cqueue};
use uring_ops_file::{Nop, Read};
use uring_partner::MemoryPartner;
use uring_ring::IoUring;

/// Each call that can find no memory answers otherwise where there is memory.
#[test]
fn each_call_of_the_engine(rt: HostRuntime) {
    let alloc = rt.alloc();
    let mut engine = engine_of(&rt, alloc, 2);
    let mut partner = MemoryPartner::new(alloc);
    start_and_turn(&rt, alloc, &mut engine, &mut partner);
    nop_as_a_state(&rt, alloc, &mut engine, &mut partner);
    assert!(rt; quiet_under(alloc, &mut engine, 9, 10).is_ok());
}

fn start_and_turn(
    rt: &impl Abort,
    alloc: Global,
    engine: &mut Engine<IoUring>,
    partner: &mut MemoryPartner,
) {
    start_nop(rt, alloc, engine, 5);
    assert!(rt; engine.pump(alloc).is_ok());
    assert!(rt; engine.reserve(alloc, 3).is_ok());
    turn(rt, alloc, engine, partner);
    assert!(rt; cancel_under(alloc, engine, 5, 6).is_ok());
}

fn nop_as_a_state(
    rt: &impl Abort,
    alloc: Global,
    engine: &mut Engine<IoUring>,
    partner: &mut MemoryPartner,
) {
    let mut op = OneOp::new(Nop::new().build(), None);
    assert!(rt; op.poll(alloc, engine).is_pending());
    turn(rt, alloc, engine, partner);
    assert!(rt; is_ready(op.poll(alloc, engine)));
    assert!(rt; op.is_done());
}

/// Whether the operation was started and is resolved.
fn is_ready(polled: Poll<OneAnswer>) -> bool {
    matches!(polled, Poll::Ready(OneAnswer::Done(_)))
}

/// One operation at a time, on a ring of one entry.
#[test]
fn ring_of_one(rt: HostRuntime) {
    let alloc = rt.alloc();
    let mut engine = engine_of(&rt, alloc, 1);
    let mut partner = MemoryPartner::new(alloc);
    one_at_a_time(&rt, alloc, &mut engine, &mut partner);
}

fn one_at_a_time(
    rt: &impl Abort,
    alloc: Global,
    engine: &mut Engine<IoUring>,
    partner: &mut MemoryPartner,
) {
    nop_alone(rt, alloc, engine, partner);
    cancel_alone(rt, alloc, engine, partner);
}

fn nop_alone(
    rt: &impl Abort,
    alloc: Global,
    engine: &mut Engine<IoUring>,
    partner: &mut MemoryPartner,
) {
    let started = nop_under(alloc, engine, 5);
    assert!(rt; is_key_in_use(nop_under(alloc, engine, 5)));
    assert!(rt; is_ring_full(nop_under(alloc, engine, 6)));
    assert_eq!(rt; turn(rt, alloc, engine, partner), all_over(1));
    assert_resolved(rt, engine, started, 0);
    assert_eq!(rt; engine.fresh(), 0);
}

fn cancel_alone(
    rt: &impl Abort,
    alloc: Global,
    engine: &mut Engine<IoUring>,
    partner: &mut MemoryPartner,
) {
    let canceled = cancel_under(alloc, engine, 9, 7);
    assert_eq!(rt; turn(rt, alloc, engine, partner), all_over(1));
    assert_resolved(rt, engine, canceled, -ENOENT);
}

/// Five kinds of completions that no operation in flight may have, and what then may come.
#[test]
fn strangers(rt: HostRuntime) {
    let alloc = rt.alloc();
    let mut engine = engine_of(&rt, alloc, 2);
    strangers_of_two(&rt, alloc, &mut engine);
}

fn strangers_of_two(rt: &impl Abort, alloc: Global, engine: &mut Engine<IoUring>) {
    start_read(rt, alloc, engine, 0);
    start_nop(rt, alloc, engine, 1);
    five_strangers(rt, alloc, engine);
    step_and_end(rt, alloc, engine);
}

/// Starts a read of two bytes, and drops its key.
fn start_read(rt: &impl Abort, alloc: Global, engine: &mut Engine<IoUring>, number: u64) {
    let buf = Buf::from_slice(alloc, b"ab").expect(rt, "memory");
    assert!(rt;
        engine
            .start(alloc, number, read_of(2, 0), 0, Some(buf))
            .is_ok()
    );
}

/// Reads so many bytes of file 3.
fn read_of(len: u32, offset: u64) -> Entry {
    Read::new(Fixed(3), 0, len).offset(offset).build()
}

fn five_strangers(rt: &impl Abort, alloc: Global, engine: &mut Engine<IoUring>) {
    let last = cqueue::Flags::empty().bits();
    let more = cqueue::Flags::MORE.bits();
    assert_stranger(rt, engine, completion(9, last, None));
    assert_stranger(rt, engine, completion(0, last, None));
    assert_stranger(rt, engine, completion(0, last, loan_of(rt, alloc, 9)));
    assert_stranger(rt, engine, completion(0, more, loan_of(rt, alloc, 0)));
    assert_stranger(rt, engine, completion(1, last, loan_of(rt, alloc, 1)));
}

fn loan_of(rt: &impl Abort, alloc: Global, number: u64) -> Option<Loan> {
    Some(Loan {
        number,
        from: 0,
        buf: Buf::from_slice(alloc, b"ab").expect(rt, "memory"),
    })
}

/// Asserts that the completion is a stranger, and that two operations are in flight still.
fn assert_stranger(rt: &impl Abort, engine: &mut Engine<IoUring>, strange: Completion) {
    let stranger = EngineFault::Stranger(strange.user_data);
    assert_completes(rt, engine, strange, Err(stranger));
    assert_in_flight(rt, engine, 2);
}

/// The read takes a step, and then its last completion.
fn step_and_end(rt: &impl Abort, alloc: Global, engine: &mut Engine<IoUring>) {
    let last = cqueue::Flags::empty().bits();
    let more = cqueue::Flags::MORE.bits();
    let step = Step {
        number: 0,
        result: 7,
        flags: more,
    };
    assert_completes(rt, engine, completion(0, more, None), Ok(Some(step)));
    let end = completion(0, last, loan_of(rt, alloc, 0));
    assert_completes(rt, engine, end, Ok(None));
    assert_in_flight(rt, engine, 1);
    assert_eq!(rt; engine.fresh(), 2);
}

/// A read gets the bytes of the file that it names.
#[test]
fn one_read(rt: HostRuntime) {
    let alloc = rt.alloc();
    let mut engine = engine_of(&rt, alloc, 2);
    let mut partner = MemoryPartner::new(alloc);
    put_hello(&rt, alloc, &mut partner);
    read_four(&rt, alloc, &mut engine, &mut partner);
}

/// Makes file 3 of the bytes `hello`.
fn put_hello(rt: &impl Abort, alloc: Global, partner: &mut MemoryPartner) {
    let hello = Buf::from_slice(alloc, b"hello").expect(rt, "memory");
    assert!(rt; partner.put_file(alloc, 3, hello).is_ok());
}

fn read_four(
    rt: &impl Abort,
    alloc: Global,
    engine: &mut Engine<IoUring>,
    partner: &mut MemoryPartner,
) {
    let zeros = Buf::zeroed(alloc, 4).expect(rt, "memory");
    let mut op = OneOp::new(read_of(4, 1), Some(zeros)).with_number(8);
    assert!(rt; op.poll(alloc, engine).is_pending());
    turn(rt, alloc, engine, partner);
    assert_brings(rt, op.poll(alloc, engine), b"ello");
}

/// Asserts that the operation is done and brought these bytes.
fn assert_brings(rt: &impl Abort, polled: Poll<OneAnswer>, bytes: &[u8]) {
    let buf = brought_by(polled).expect(rt, "no buffer");
    assert_eq!(rt; buf.as_slice(), bytes);
}

/// The buffer that an operation brought, where it is done.
fn brought_by(polled: Poll<OneAnswer>) -> Option<Buf> {
    match polled {
        Poll::Ready(OneAnswer::Done(done)) => done.buf,
        _ => None,
    }
}

/// A cancel finds what is in flight, which is then resolved by its own completion. It is refused as
/// any operation is.
#[test]
fn cancels(rt: HostRuntime) {
    let alloc = rt.alloc();
    let mut engine = engine_of(&rt, alloc, 2);
    let mut partner = MemoryPartner::new(alloc);
    cancel_nop(&rt, alloc, &mut engine, &mut partner);
}

fn cancel_nop(
    rt: &impl Abort,
    alloc: Global,
    engine: &mut Engine<IoUring>,
    partner: &mut MemoryPartner,
) {
    let canceled = cancel_under(alloc, engine, 4, 3);
    assert!(rt; is_key_in_use(cancel_under(alloc, engine, 4, 3)));
    let nop = nop_under(alloc, engine, 4);
    assert!(rt; is_ring_full(cancel_under(alloc, engine, 4, 5)));
    assert_eq!(rt; turn(rt, alloc, engine, partner), all_over(2));
    assert_resolved(rt, engine, canceled, 0);
    assert_resolved(rt, engine, nop, -ECANCELED);
}
