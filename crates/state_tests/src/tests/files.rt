use crate::tests::helpers::{
    assert_in_flight, assert_moves, assert_waits, engine_of, posting, put_bytes, turn, wait_a_turn,
};
use rent_engine::{Engine, EngineFault, OpState, Poll, StartFault};
use rent_fs::{File, FsError, ReadAt, Sync};
use std::alloc::Global;
use std::fmt::Display;
use std::process::Abort;
use uring_base::Buf;
use uring_base::errno::{EBADF, EIO};
use uring_base::squeue::Flags;
use uring_partner::{HostilePartner, MemoryPartner};
use uring_ring::IoUring;
use uring_submit::SubmitError;

/// Asserts that the sync is done at its next poll, with this answer.
fn assert_syncs(
    rt: &impl Abort,
    alloc: Global,
    engine: &mut Engine<IoUring>,
    sync: &mut Sync,
    answer: Result<(), FsError>,
) {
    assert!(rt; !sync.is_done());
    match sync.poll(alloc, engine) {
        Poll::Ready(given) => assert_eq!(rt; given, answer),
        Poll::Pending => assert!(rt; false, "pending"),
    }
    assert!(rt; sync.is_done());
}

/// Each call that can find no memory answers otherwise where there is memory: what is written is
/// read.
#[test]
fn each_call_of_the_files(rt: HostRuntime) {
    let alloc = rt.alloc();
    let mut engine = engine_of(&rt, alloc, 2);
    let mut partner = MemoryPartner::new(alloc);
    put_bytes(&rt, alloc, &mut partner, b"");
    write_hello(&rt, alloc, &mut engine, &mut partner);
    read_the_last(&rt, alloc, &mut engine, &mut partner);
    sync_both_ways(&rt, alloc, &mut engine, &mut partner);
}

fn write_hello(
    rt: &impl Abort,
    alloc: Global,
    engine: &mut Engine<IoUring>,
    partner: &mut MemoryPartner,
) {
    let bytes = Buf::from_slice(alloc, b"hello").expect(rt, "memory");
    let mut write = File::of_number(3).write_at(bytes, 0);
    wait_a_turn(rt, alloc, engine, partner, &mut write);
    assert_moves(rt, alloc, engine, &mut write, Ok(5), b"hello");
}

/// A read of three bytes finds one.
fn read_the_last(
    rt: &impl Abort,
    alloc: Global,
    engine: &mut Engine<IoUring>,
    partner: &mut MemoryPartner,
) {
    let zeros = Buf::zeroed(alloc, 3).expect(rt, "memory");
    let mut read = File::of_number(3).read_at(zeros, 4);
    assert_waits(rt, alloc, engine, &mut read);
    wait_a_turn(rt, alloc, engine, partner, &mut read);
    assert_moves(rt, alloc, engine, &mut read, Ok(1), b"o\0\0");
}

fn sync_both_ways(
    rt: &impl Abort,
    alloc: Global,
    engine: &mut Engine<IoUring>,
    partner: &mut MemoryPartner,
) {
    let file = File::of_number(3);
    for mut sync in [file.sync_all(), file.sync_data()] {
        wait_a_turn(rt, alloc, engine, partner, &mut sync);
        assert_syncs(rt, alloc, engine, &mut sync, Ok(()));
    }
}

/// A state whose number is in use is done at once; one that finds the ring full waits.
#[test]
fn numbers_in_use(rt: HostRuntime) {
    let alloc = rt.alloc();
    let mut engine = engine_of(&rt, alloc, 1);
    let mut partner = MemoryPartner::new(alloc);
    two_of_a_number(&rt, alloc, &mut engine, &mut partner);
}

fn two_of_a_number(
    rt: &impl Abort,
    alloc: Global,
    engine: &mut Engine<IoUring>,
    partner: &mut MemoryPartner,
) {
    let zero = Buf::zeroed(alloc, 1).expect(rt, "memory");
    let mut first = File::of_number(9).read_at(zero, 0).with_number(5);
    assert_waits(rt, alloc, engine, &mut first);
    second_of_the_number(rt, alloc, engine);
    third_waits(rt, alloc, engine, partner, &mut first);
}

fn second_of_the_number(rt: &impl Abort, alloc: Global, engine: &mut Engine<IoUring>) {
    let zero = Buf::zeroed(alloc, 1).expect(rt, "memory");
    let mut second = File::of_number(9).read_at(zero, 0).with_number(5);
    let in_use = Err(FsError::KeyInUse);
    assert_moves(rt, alloc, engine, &mut second, in_use, b"\0");
}

/// A third read waits until the first is over, whose file isn't there.
fn third_waits(
    rt: &impl Abort,
    alloc: Global,
    engine: &mut Engine<IoUring>,
    partner: &mut MemoryPartner,
    first: &mut ReadAt,
) {
    let zero = Buf::zeroed(alloc, 1).expect(rt, "memory");
    let mut third = File::of_number(9).read_at(zero, 0);
    assert_waits(rt, alloc, engine, &mut third);
    assert_in_flight(rt, engine, 1);
    turn(rt, alloc, engine, partner);
    let no_file = Err(FsError::Os(EBADF.cast_unsigned()));
    assert_moves(rt, alloc, engine, first, no_file, b"\0");
    assert_waits(rt, alloc, engine, &mut third);
    assert_in_flight(rt, engine, 1);
}

/// A state that is polled on another engine than the one it began on is lost, with its buffer.
#[test]
fn lost_on_another_engine(rt: HostRuntime) {
    let alloc = rt.alloc();
    assert_eq!(rt; File::of_number(3).number(), 3);
    let mut one = engine_of(&rt, alloc, 1);
    let mut other = engine_of(&rt, alloc, 1);
    read_on_two(&rt, alloc, &mut one, &mut other);
}

fn read_on_two(
    rt: &impl Abort,
    alloc: Global,
    one: &mut Engine<IoUring>,
    other: &mut Engine<IoUring>,
) {
    let zero = Buf::zeroed(alloc, 1).expect(rt, "memory");
    let mut read = File::of_number(3).read_at(zero, 0);
    assert_waits(rt, alloc, one, &mut read);
    assert_moves(rt, alloc, other, &mut read, Err(FsError::KeyLost), b"");
}

/// A count above the buffer's length is told as it came, and so is an interruption.
#[test]
fn what_a_hostile_partner_tells(rt: HostRuntime) {
    let alloc = rt.alloc();
    let mut partner = posting(&rt, alloc, &[1000, i32::MIN]);
    let mut engine = engine_of(&rt, alloc, 1);
    for answer in [Ok(1000), Err(FsError::Os(i32::MIN.unsigned_abs()))] {
        read_two(&rt, alloc, &mut engine, &mut partner, answer);
    }
}

/// A read of two bytes gets this answer, and no byte.
fn read_two(
    rt: &impl Abort,
    alloc: Global,
    engine: &mut Engine<IoUring>,
    partner: &mut HostilePartner,
    answer: Result<usize, FsError>,
) {
    let zeros = Buf::zeroed(alloc, 2).expect(rt, "memory");
    let mut read = File::of_number(3)
        .read_at(zeros, 0)
        .with_flags(Flags::ASYNC);
    turn_of_a_read(rt, alloc, engine, partner, &mut read, answer);
}

fn turn_of_a_read(
    rt: &impl Abort,
    alloc: Global,
    engine: &mut Engine<IoUring>,
    partner: &mut HostilePartner,
    read: &mut ReadAt,
    answer: Result<usize, FsError>,
) {
    wait_a_turn(rt, alloc, engine, partner, read);
    assert_moves(rt, alloc, engine, read, answer, b"\0\0");
}

/// A sync of a file that isn't there, of a number in use, and of another engine's operation.
#[test]
fn syncs_that_fail(rt: HostRuntime) {
    let alloc = rt.alloc();
    let mut engine = engine_of(&rt, alloc, 2);
    let mut other = engine_of(&rt, alloc, 2);
    let mut partner = MemoryPartner::new(alloc);
    three_syncs(&rt, alloc, &mut engine, &mut other, &mut partner);
}

fn three_syncs(
    rt: &impl Abort,
    alloc: Global,
    engine: &mut Engine<IoUring>,
    other: &mut Engine<IoUring>,
    partner: &mut MemoryPartner,
) {
    let file = File::of_number(9);
    let mut first = file.sync_data().with_number(5).with_flags(Flags::ASYNC);
    first_of_three(rt, alloc, engine, other, partner, &mut first);
}

fn first_of_three(
    rt: &impl Abort,
    alloc: Global,
    engine: &mut Engine<IoUring>,
    other: &mut Engine<IoUring>,
    partner: &mut MemoryPartner,
    first: &mut Sync,
) {
    assert_waits(rt, alloc, engine, first);
    second_and_third(rt, alloc, engine, other);
    turn(rt, alloc, engine, partner);
    let no_file = Err(FsError::Os(EBADF.cast_unsigned()));
    assert_syncs(rt, alloc, engine, first, no_file);
}

fn second_and_third(
    rt: &impl Abort,
    alloc: Global,
    engine: &mut Engine<IoUring>,
    other: &mut Engine<IoUring>,
) {
    let file = File::of_number(9);
    let mut second = file.sync_all().with_number(5);
    let in_use = Err(FsError::KeyInUse);
    assert_syncs(rt, alloc, engine, &mut second, in_use);
    let mut third = file.sync_all();
    assert_waits(rt, alloc, engine, &mut third);
    assert_syncs(rt, alloc, other, &mut third, Err(FsError::KeyLost));
}

/// What the faults of each layer say, and that a partner's keeps its error number up to the top.
#[test]
fn texts_of_faults(rt: HostRuntime) {
    let alloc = rt.alloc();
    let full = StartFault::RingFull(None);
    assert_says(&rt, alloc, &full, "the submission ring is full");
    let submit = SubmitError::Fault(EIO.cast_unsigned());
    assert_says(&rt, alloc, &submit, "partner fault: error number 5");
    let engine = EngineFault::from(submit);
    assert_says(&rt, alloc, &engine, "partner fault: error number 5");
    let file = FsError::from(engine);
    assert_says(&rt, alloc, &file, "error number 5");
}

fn assert_says<T: Display>(rt: &impl Abort, alloc: Global, fault: &T, wanted: &str) {
    let text = format!(in alloc; "{fault}").expect(rt, "memory");
    assert_eq!(rt; text.as_str(), wanted);
}
