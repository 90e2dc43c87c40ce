use crate::tests::helpers::{engine_of, put_bytes};
use partner_traits::Partner;
use rent_engine::{Engine, ExecFault, Executor, OpState};
use rent_fs::{File, FsError, ReadAt};
use std::alloc::Global;
use std::process::Abort;
use uring_base::{Buf, Event};
use uring_partner::MemoryPartner;
use uring_ring::IoUring;

/// Spawns a read of the whole of file 3 under a number, and asserts that this is its id.
fn spawn_read(
    rt: &impl Abort,
    alloc: Global,
    tasks: &mut Executor<ReadAt>,
    number: u64,
    id: usize,
) {
    let zeros = Buf::zeroed(alloc, 5).expect(rt, "memory");
    let read = File::of_number(3).read_at(zeros, 0).with_number(number);
    assert!(rt; !read.is_done());
    assert_eq!(rt; tasks.spawn(alloc, read).ok(), Some(id));
}

/// Rounds, and so many turns between them at most.
fn run(
    alloc: Global,
    engine: &mut Engine<IoUring>,
    partner: &mut MemoryPartner,
    tasks: &mut Executor<ReadAt>,
    turns: u32,
) -> Result<u32, ExecFault> {
    tasks.run(alloc, engine, partner, turns)
}

/// Asserts that a task gave the whole of file 3.
fn assert_read(rt: &impl Abort, output: Option<(Result<usize, FsError>, Buf)>) {
    match output {
        Some((count, buf)) => {
            assert_eq!(rt; count, Ok(5));
            assert_eq!(rt; buf.as_slice(), b"hello".as_slice());
        }
        None => assert!(rt; false, "no output"),
    }
}

/// Each call that can find no memory answers otherwise where there is memory. A read needs one
/// turn, and its output is there once.
#[test]
fn each_call_of_the_executor(rt: HostRuntime) {
    let alloc = rt.alloc();
    let mut engine = engine_of(&rt, alloc, 2);
    let mut partner = MemoryPartner::new(alloc);
    let mut tasks = Executor::new(alloc);
    run_one(&rt, alloc, &mut engine, &mut partner, &mut tasks);
}

/// A read under number 7, polled by a round and by turns.
fn run_one(
    rt: &impl Abort,
    alloc: Global,
    engine: &mut Engine<IoUring>,
    partner: &mut MemoryPartner,
    tasks: &mut Executor<ReadAt>,
) {
    put_bytes(rt, alloc, partner, b"hello");
    spawn_read(rt, alloc, tasks, 7, 0);
    assert_eq!(rt; tasks.round(alloc, engine), Ok(1));
    assert_eq!(rt;
        run(alloc, engine, partner, tasks, 0),
        Err(ExecFault::Spent)
    );
    assert_eq!(rt; tasks.unfinished(), 1);
    assert!(rt; tasks.take(0).is_none());
    assert_eq!(rt; run(alloc, engine, partner, tasks, 1), Ok(1));
    assert_eq!(rt; run(alloc, engine, partner, tasks, 1), Ok(0));
    take_one(rt, tasks);
}

/// The output of the first task is there once.
fn take_one(rt: &impl Abort, tasks: &mut Executor<ReadAt>) {
    assert_read(rt, tasks.take(0));
    assert!(rt; tasks.take(0).is_none());
}

/// Tasks are polled in rising id, whatever the numbers of their operations are. Ids go on rising.
#[test]
fn tasks_in_order(rt: HostRuntime) {
    let alloc = rt.alloc();
    let mut engine = engine_of(&rt, alloc, 2);
    let mut partner = MemoryPartner::new(alloc);
    let mut tasks = Executor::new(alloc);
    run_two(&rt, alloc, &mut engine, &mut partner, &mut tasks);
}

/// Two reads are taken in one turn, in the order of their ids.
fn run_two(
    rt: &impl Abort,
    alloc: Global,
    engine: &mut Engine<IoUring>,
    partner: &mut MemoryPartner,
    tasks: &mut Executor<ReadAt>,
) {
    put_bytes(rt, alloc, partner, b"hello");
    spawn_read(rt, alloc, tasks, 5, 0);
    spawn_read(rt, alloc, tasks, 4, 1);
    assert_eq!(rt; run(alloc, engine, partner, tasks, 1), Ok(1));
    assert_event(rt, partner, 0, Event::Turn(2));
    assert_event(rt, partner, 1, Event::Take(5));
    assert_event(rt, partner, 2, Event::Take(4));
    assert_read(rt, tasks.take(1));
    spawn_read(rt, alloc, tasks, 4, 2);
}

/// Asserts that the partner tells this event at that place.
fn assert_event(rt: &impl Abort, partner: &MemoryPartner, place: usize, event: Event) {
    assert!(rt; place < partner.log_len());
    assert_eq!(rt; partner.log_event(place), event);
}

/// A ring of one entry takes one read a turn.
#[test]
fn one_read_a_turn(rt: HostRuntime) {
    let alloc = rt.alloc();
    let mut engine = engine_of(&rt, alloc, 1);
    let mut partner = MemoryPartner::new(alloc);
    let mut tasks = Executor::new(alloc);
    run_three(&rt, alloc, &mut engine, &mut partner, &mut tasks);
}

fn run_three(
    rt: &impl Abort,
    alloc: Global,
    engine: &mut Engine<IoUring>,
    partner: &mut MemoryPartner,
    tasks: &mut Executor<ReadAt>,
) {
    put_bytes(rt, alloc, partner, b"hello");
    spawn_read(rt, alloc, tasks, 0, 0);
    spawn_read(rt, alloc, tasks, 1, 1);
    spawn_read(rt, alloc, tasks, 2, 2);
    let spent = Err(ExecFault::Spent);
    assert_eq!(rt; run(alloc, engine, partner, tasks, 2), spent);
    assert_eq!(rt; tasks.unfinished(), 1);
    assert_eq!(rt; run(alloc, engine, partner, tasks, 9), Ok(1));
    assert_read(rt, tasks.take(2));
}
