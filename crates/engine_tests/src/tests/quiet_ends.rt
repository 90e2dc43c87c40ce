ghost use Rattle.std.specs.Prelude.{◌≢◌};

use crate::tests::helpers::{
    assert_completes, assert_ended, assert_in_flight, assert_resolved, completion, engine_of,
    nop_under, start_nop,
};
use rent_engine::{Engine, OpKey, StartFault};
use std::alloc::Global;
use std::process::Abort;
use uring_base::squeue::Flags;
use uring_ops_file::Nop;
use uring_ring::IoUring;

pub fn quiet_under(
    alloc: Global,
    engine: &mut Engine<IoUring>,
    number: u64,
    next: u64,
) -> Result<OpKey, StartFault>
    requires { next ≢ number }
{
    let entry = Nop::new().build().flags(Flags::IO_LINK);
    engine.start_quiet(alloc, number, entry, next)
}

/// Takes a final completion of this number, with result 7.
fn complete_last(rt: &impl Abort, engine: &mut Engine<IoUring>, number: u64) {
    assert_completes(rt, engine, completion(number, 0, None), Ok(None));
}

/// Asserts that the operation was started and is resolved quietly, with result 0.
fn assert_quiet(rt: &impl Abort, engine: &mut Engine<IoUring>, started: Result<OpKey, StartFault>) {
    assert_ended(rt, engine, started, (0, true));
}

/// A quiet operation is resolved with its next number.
#[test]
fn with_the_next(rt: HostRuntime) {
    let alloc = rt.alloc();
    let mut engine = engine_of(&rt, alloc, 2);
    quiet_then_plain(&rt, alloc, &mut engine);
}

fn quiet_then_plain(rt: &impl Abort, alloc: Global, engine: &mut Engine<IoUring>) {
    let first = quiet_under(alloc, engine, 0, 1);
    let second = nop_under(alloc, engine, 1);
    assert_in_flight(rt, engine, 2);
    complete_last(rt, engine, 1);
    assert_in_flight(rt, engine, 0);
    assert_quiet(rt, engine, first);
    assert_resolved(rt, engine, second, 7);
}

/// A chain of three, two of which are quiet.
#[test]
fn chain_of_three(rt: HostRuntime) {
    let alloc = rt.alloc();
    let mut engine = engine_of(&rt, alloc, 4);
    two_quiet_then_plain(&rt, alloc, &mut engine);
}

fn two_quiet_then_plain(rt: &impl Abort, alloc: Global, engine: &mut Engine<IoUring>) {
    let first = quiet_under(alloc, engine, 0, 1);
    let second = quiet_under(alloc, engine, 1, 2);
    let third = nop_under(alloc, engine, 2);
    complete_last(rt, engine, 2);
    assert_quiet(rt, engine, first);
    assert_quiet(rt, engine, second);
    assert_resolved(rt, engine, third, 7);
}

/// A chain goes on through an operation that was forgotten, whose number is free then.
#[test]
fn forgotten_in_the_middle(rt: HostRuntime) {
    let alloc = rt.alloc();
    let mut engine = engine_of(&rt, alloc, 4);
    quiet_forgotten_plain(&rt, alloc, &mut engine);
}

fn quiet_forgotten_plain(rt: &impl Abort, alloc: Global, engine: &mut Engine<IoUring>) {
    let first = quiet_under(alloc, engine, 0, 1);
    let second = quiet_under(alloc, engine, 1, 2).expect(rt, "not started");
    engine.forget(second);
    start_nop(rt, alloc, engine, 2);
    complete_last(rt, engine, 2);
    assert_in_flight(rt, engine, 0);
    assert_eq!(rt; engine.fresh(), 1);
    assert_quiet(rt, engine, first);
}

/// A quiet operation that fails is resolved by its own completion, and the next one stays.
#[test]
fn by_its_own_completion(rt: HostRuntime) {
    let alloc = rt.alloc();
    let mut engine = engine_of(&rt, alloc, 2);
    quiet_that_fails(&rt, alloc, &mut engine);
}

fn quiet_that_fails(rt: &impl Abort, alloc: Global, engine: &mut Engine<IoUring>) {
    let first = quiet_under(alloc, engine, 0, 1);
    start_nop(rt, alloc, engine, 1);
    complete_last(rt, engine, 0);
    assert_in_flight(rt, engine, 1);
    assert_resolved(rt, engine, first, 7);
}

/// A circle of next numbers ends.
#[test]
fn circle_of_two(rt: HostRuntime) {
    let alloc = rt.alloc();
    let mut engine = engine_of(&rt, alloc, 2);
    quiet_in_a_circle(&rt, alloc, &mut engine);
}

fn quiet_in_a_circle(rt: &impl Abort, alloc: Global, engine: &mut Engine<IoUring>) {
    let first = quiet_under(alloc, engine, 0, 1);
    let second = quiet_under(alloc, engine, 1, 0);
    complete_last(rt, engine, 0);
    assert_in_flight(rt, engine, 0);
    assert_resolved(rt, engine, first, 7);
    assert_quiet(rt, engine, second);
}
