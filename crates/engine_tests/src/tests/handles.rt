use crate::tests::helpers::{assert_in_flight, engine_of, start_nop};
use rent_engine::{CancelHandle, Engine, StartFault};
use std::alloc::Global;
use std::process::Abort;
use uring_ring::IoUring;

/// Starts three operations, of numbers 0 to 2.
fn start_three(rt: &impl Abort, alloc: Global, engine: &mut Engine<IoUring>) {
    for number in 0..3 {
        start_nop(rt, alloc, engine, number);
    }
}

/// Joins numbers 0 and 2 to a new handle.
fn join_two(rt: &impl Abort, alloc: Global, engine: &mut Engine<IoUring>) -> CancelHandle {
    let handle = engine.new_handle(alloc).expect(rt, "memory");
    assert!(rt; engine.join_handle(alloc, handle, 2).is_ok());
    assert!(rt; engine.join_handle(alloc, handle, 0).is_ok());
    handle
}

/// Each call that can find no memory answers otherwise where there is memory: a cancel is started
/// for each operation that is joined to the handle.
#[test]
fn each_call_of_handles(rt: HostRuntime) {
    let alloc = rt.alloc();
    let mut engine = engine_of(&rt, alloc, 8);
    start_three(&rt, alloc, &mut engine);
    with_room(&rt, alloc, &mut engine);
}

fn with_room(rt: &impl Abort, alloc: Global, engine: &mut Engine<IoUring>) {
    let handle = join_two(rt, alloc, engine);
    assert!(rt; matches!(engine.cancel_handle(alloc, handle), Ok(2)));
    assert!(rt; engine.is_canceled(handle));
    assert_in_flight(rt, engine, 5);
    assert_eq!(rt; engine.fresh(), 5);
}

/// Where the ring has room for one of two, nothing is canceled.
#[test]
fn too_little_room(rt: HostRuntime) {
    let alloc = rt.alloc();
    let mut engine = engine_of(&rt, alloc, 4);
    start_three(&rt, alloc, &mut engine);
    with_room_for_one(&rt, alloc, &mut engine);
}

fn has_no_room(canceled: Result<u32, StartFault>) -> bool {
    matches!(canceled, Err(StartFault::RingFull(None)))
}

fn with_room_for_one(rt: &impl Abort, alloc: Global, engine: &mut Engine<IoUring>) {
    let handle = join_two(rt, alloc, engine);
    assert!(rt; has_no_room(engine.cancel_handle(alloc, handle)));
    assert!(rt; !engine.is_canceled(handle));
    assert_in_flight(rt, engine, 3);
}
