use rent_table::{CancelHandle, OpDone, Operations};
use std::process::Abort;

/// Each call that can find no memory answers otherwise where there is memory.
#[test]
fn each_call(rt: HostRuntime) {
    let mut operations = Operations::new(rt.alloc());
    assert!(rt; operations.reserve(3).is_ok());
    assert!(rt; operations.reserve_step().is_ok());
    joins_twice(&rt, &mut operations);
}

/// An operation is joined to two handles, and what is joined to the second is listed.
fn joins_twice(rt: &impl Abort, operations: &mut Operations) {
    let (first, second) = two_handles(rt, operations);
    start(rt, operations, 9);
    join(rt, operations, first, 9);
    join(rt, operations, second, 9);
    assert_joined(rt, operations, second, &[9]);
}

fn two_handles(rt: &impl Abort, operations: &mut Operations) -> (CancelHandle, CancelHandle) {
    let first = operations.new_handle().expect(rt, "memory");
    let second = operations.new_handle().expect(rt, "memory");
    (first, second)
}

fn start(rt: &impl Abort, operations: &mut Operations, number: u64) {
    assert!(rt; operations.reserve(1).is_ok());
    if !operations.knows(number) {
        operations.start(number, false);
    }
}

fn join(rt: &impl Abort, operations: &mut Operations, handle: CancelHandle, number: u64) {
    assert!(rt; operations.join(handle, number).is_ok());
}

/// Asserts that exactly these numbers are joined to the handle.
fn assert_joined(rt: &impl Abort, operations: &Operations, handle: CancelHandle, numbers: &[u64]) {
    let joined = operations.joined(handle).expect(rt, "memory");
    assert_eq!(rt; joined.as_slice(), numbers);
}

/// The joins of an operation end with it, and no others. Of the operations 9, 2 and 5 the first is
/// joined to both handles, and the last to the first handle.
#[test]
fn joins_end(rt: HostRuntime) {
    let mut operations = Operations::new(rt.alloc());
    let (first, second) = two_handles(&rt, &mut operations);
    start_three(&rt, &mut operations);
    join_three(&rt, &mut operations, first, second);
    resolve(&mut operations, 9);
    assert_joined(&rt, &operations, first, &[5]);
    assert_joined(&rt, &operations, second, &[]);
}

fn start_three(rt: &impl Abort, operations: &mut Operations) {
    for number in [9, 2, 5] {
        start(rt, operations, number);
    }
}

fn join_three(
    rt: &impl Abort,
    operations: &mut Operations,
    first: CancelHandle,
    second: CancelHandle,
) {
    join(rt, operations, first, 9);
    join(rt, operations, second, 9);
    join(rt, operations, first, 5);
    assert_joined(rt, operations, first, &[5, 9]);
    assert_joined(rt, operations, second, &[9]);
}

fn resolve(operations: &mut Operations, number: u64) {
    if let Some(flight) = operations.flight(number) {
        let outcome = OpDone {
            result: 0,
            flags: 0,
            buf: None,
            quiet: false,
        };
        operations.resolve(number, flight, outcome);
    }
}
