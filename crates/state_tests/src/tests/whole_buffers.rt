use crate::tests::helpers::{
    assert_in_flight, assert_moves, assert_waits, engine_of, posting, put_bytes, turn, wait_a_turn,
};
use rent_engine::Engine;
use rent_fs::{File, FsError};
use std::alloc::Global;
use std::process::Abort;
use uring_base::Buf;
use uring_base::errno::EINTR;
use uring_partner::{HostilePartner, MemoryPartner};
use uring_ring::IoUring;

/// Asserts that the write of five bytes waits for so many turns, and then gives this answer.
fn assert_writes(
    rt: &impl Abort,
    alloc: Global,
    engine: &mut Engine<IoUring>,
    partner: &mut HostilePartner,
    turns: u32,
    answer: Result<(), FsError>,
) {
    let hello = Buf::from_slice(alloc, b"hello").expect(rt, "memory");
    let mut write = File::of_number(3).write_all_at(hello, 7);
    for _ in 0..turns {
        wait_a_turn(rt, alloc, engine, partner, &mut write);
    }
    assert_moves(rt, alloc, engine, &mut write, answer, b"hello");
}

/// Two bytes, an interruption, and the other three.
#[test]
fn short_counts_add_up(rt: HostRuntime) {
    let alloc = rt.alloc();
    let mut partner = posting(&rt, alloc, &[2, -EINTR, 3]);
    let mut engine = engine_of(&rt, alloc, 1);
    assert_writes(&rt, alloc, &mut engine, &mut partner, 3, Ok(()));
}

/// A count of 0 is told, and so is a count above what is left.
#[test]
fn counts_that_fail(rt: HostRuntime) {
    let alloc = rt.alloc();
    let mut partner = posting(&rt, alloc, &[2, 0, 6]);
    let mut engine = engine_of(&rt, alloc, 1);
    two_that_fail(&rt, alloc, &mut engine, &mut partner);
}

fn two_that_fail(
    rt: &impl Abort,
    alloc: Global,
    engine: &mut Engine<IoUring>,
    partner: &mut HostilePartner,
) {
    let zero = Err(FsError::WriteZero);
    assert_writes(rt, alloc, engine, partner, 2, zero);
    let too_much = Err(FsError::BadCount);
    assert_writes(rt, alloc, engine, partner, 1, too_much);
}

/// Fifteen interruptions may come, and the sixteenth ends it.
#[test]
fn sixteen_interruptions(rt: HostRuntime) {
    let alloc = rt.alloc();
    let mut partner = posting(&rt, alloc, &[-EINTR; 16]);
    let mut engine = engine_of(&rt, alloc, 1);
    let interrupted = Err(FsError::Interrupted);
    assert_writes(&rt, alloc, &mut engine, &mut partner, 16, interrupted);
}

/// An empty buffer comes back at once, and nothing is offered.
#[test]
fn empty_buffers(rt: HostRuntime) {
    let alloc = rt.alloc();
    let mut engine = engine_of(&rt, alloc, 1);
    move_nothing(&rt, alloc, &mut engine);
}

fn move_nothing(rt: &impl Abort, alloc: Global, engine: &mut Engine<IoUring>) {
    write_nothing(rt, alloc, engine);
    read_nothing(rt, alloc, engine);
    assert_in_flight(rt, engine, 0);
    assert_eq!(rt; engine.free(), 1);
}

fn write_nothing(rt: &impl Abort, alloc: Global, engine: &mut Engine<IoUring>) {
    let mut write = File::of_number(3).write_all_at(Buf::new(alloc), 7);
    assert_moves(rt, alloc, engine, &mut write, Ok(()), b"");
}

fn read_nothing(rt: &impl Abort, alloc: Global, engine: &mut Engine<IoUring>) {
    let mut read = File::of_number(3).read_exact_at(Buf::new(alloc), 7);
    assert_moves(rt, alloc, engine, &mut read, Ok(()), b"");
}

/// A read past the end keeps what there was. Its second operation begins behind the first one's
/// bytes, in the file and in the buffer.
#[test]
fn read_past_the_end(rt: HostRuntime) {
    let alloc = rt.alloc();
    let mut engine = engine_of(&rt, alloc, 1);
    let mut partner = MemoryPartner::new(alloc);
    read_four_of_two(&rt, alloc, &mut engine, &mut partner);
}

fn read_four_of_two(
    rt: &impl Abort,
    alloc: Global,
    engine: &mut Engine<IoUring>,
    partner: &mut MemoryPartner,
) {
    put_bytes(rt, alloc, partner, b"hello");
    let zeros = Buf::zeroed(alloc, 4).expect(rt, "memory");
    let mut read = File::of_number(3).read_exact_at(zeros, 3);
    wait_a_turn(rt, alloc, engine, partner, &mut read);
    assert_waits(rt, alloc, engine, &mut read);
    assert_in_flight(rt, engine, 1);
    turn(rt, alloc, engine, partner);
    let end = Err(FsError::UnexpectedEof);
    assert_moves(rt, alloc, engine, &mut read, end, b"lo\0\0");
}

/// A whole buffer is written and read again, under a number of its own.
#[test]
fn each_call_of_whole_buffers(rt: HostRuntime) {
    let alloc = rt.alloc();
    let mut engine = engine_of(&rt, alloc, 1);
    let mut partner = MemoryPartner::new(alloc);
    write_and_read(&rt, alloc, &mut engine, &mut partner);
}

fn write_and_read(
    rt: &impl Abort,
    alloc: Global,
    engine: &mut Engine<IoUring>,
    partner: &mut MemoryPartner,
) {
    put_bytes(rt, alloc, partner, b"");
    write_hello(rt, alloc, engine, partner);
    read_the_middle(rt, alloc, engine, partner);
}

fn write_hello(
    rt: &impl Abort,
    alloc: Global,
    engine: &mut Engine<IoUring>,
    partner: &mut MemoryPartner,
) {
    let hello = Buf::from_slice(alloc, b"hello").expect(rt, "memory");
    let mut write = File::of_number(3).write_all_at(hello, 0).with_number(9);
    wait_a_turn(rt, alloc, engine, partner, &mut write);
    assert_eq!(rt; engine.fresh(), 0);
    assert_moves(rt, alloc, engine, &mut write, Ok(()), b"hello");
}

fn read_the_middle(
    rt: &impl Abort,
    alloc: Global,
    engine: &mut Engine<IoUring>,
    partner: &mut MemoryPartner,
) {
    let zeros = Buf::zeroed(alloc, 3).expect(rt, "memory");
    let mut read = File::of_number(3).read_exact_at(zeros, 1);
    wait_a_turn(rt, alloc, engine, partner, &mut read);
    assert_moves(rt, alloc, engine, &mut read, Ok(()), b"ell");
}

/// A whole buffer whose number is in use comes back, and one that is polled on another engine than
/// the one it began on is lost.
#[test]
fn whole_buffers_refused_and_lost(rt: HostRuntime) {
    let alloc = rt.alloc();
    let mut one = engine_of(&rt, alloc, 1);
    let mut other = engine_of(&rt, alloc, 1);
    two_writes(&rt, alloc, &mut one, &mut other);
}

fn two_writes(
    rt: &impl Abort,
    alloc: Global,
    one: &mut Engine<IoUring>,
    other: &mut Engine<IoUring>,
) {
    let hello = Buf::from_slice(alloc, b"hello").expect(rt, "memory");
    let mut first = File::of_number(3).write_all_at(hello, 7).with_number(5);
    assert_waits(rt, alloc, one, &mut first);
    second_of_the_number(rt, alloc, one);
    let lost = Err(FsError::KeyLost);
    assert_moves(rt, alloc, other, &mut first, lost, b"");
}

fn second_of_the_number(rt: &impl Abort, alloc: Global, engine: &mut Engine<IoUring>) {
    let hello = Buf::from_slice(alloc, b"hello").expect(rt, "memory");
    let mut second = File::of_number(3).write_all_at(hello, 7).with_number(5);
    let in_use = Err(FsError::KeyInUse);
    assert_moves(rt, alloc, engine, &mut second, in_use, b"hello");
}
