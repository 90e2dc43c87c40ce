//! What several of these tests do. The tests make their values, and lend them to functions that own
//! neither an engine nor a partner.

use partner_traits::Partner;
use rent_engine::{Engine, EngineFault, OpKey, OpPoll, StartFault, Step, TurnReport};
use std::alloc::Global;
use std::process::Abort;
use uring_base::{Completion, Loan};
use uring_ops_file::Nop;
use uring_ring::IoUring;

pub fn engine_of(rt: &impl Abort, alloc: Global, entries: u32) -> Engine<IoUring> {
    let ring = IoUring::new(alloc, entries).expect(rt, "no ring");
    let params = *ring.params();
    Engine::new(alloc, ring, params)
}

pub fn nop_under(
    alloc: Global,
    engine: &mut Engine<IoUring>,
    number: u64,
) -> Result<OpKey, StartFault> {
    engine.start(alloc, number, Nop::new().build(), 0, None)
}

/// Starts a nop, and drops its key.
pub fn start_nop(rt: &impl Abort, alloc: Global, engine: &mut Engine<IoUring>, number: u64) {
    assert!(rt; nop_under(alloc, engine, number).is_ok());
}

/// Starts a cancel under a number of its own.
pub fn cancel_under(
    alloc: Global,
    engine: &mut Engine<IoUring>,
    target: u64,
    number: u64,
) -> Result<OpKey, StartFault> {
    engine.cancel(alloc, target, number)
}

pub fn is_key_in_use(started: Result<OpKey, StartFault>) -> bool {
    matches!(started, Err(StartFault::KeyInUse(None)))
}

pub fn is_ring_full(started: Result<OpKey, StartFault>) -> bool {
    matches!(started, Err(StartFault::RingFull(None)))
}

/// Asserts that a turn goes well, and gives its report.
pub fn turn<P: Partner>(
    rt: &impl Abort,
    alloc: Global,
    engine: &mut Engine<IoUring>,
    partner: &mut P,
) -> TurnReport {
    engine.turn(alloc, partner).expect(rt, "no turn")
}

/// The report of a turn that took so many entries, each of which is over.
pub fn all_over(taken: u32) -> TurnReport {
    TurnReport {
        taken,
        finals: taken,
    }
}

/// A completion with result 7.
pub fn completion(number: u64, flags: u32, loan: Option<Loan>) -> Completion {
    Completion {
        user_data: number,
        result: 7,
        flags,
        big: [0; 2],
        large: false,
        loan,
    }
}

/// Asserts that the engine answers so to a completion.
pub fn assert_completes(
    rt: &impl Abort,
    engine: &mut Engine<IoUring>,
    posted: Completion,
    answer: Result<Option<Step>, EngineFault>,
) {
    assert_eq!(rt; engine.complete(posted), answer);
}

/// Asserts that so many operations are in flight.
pub fn assert_in_flight(rt: &impl Abort, engine: &Engine<IoUring>, count: usize) {
    assert_eq!(rt; engine.in_flight(), count);
}

/// The result of an operation that is resolved, and whether it is so quietly.
fn end_of(polled: OpPoll) -> Option<(i32, bool)> {
    match polled {
        OpPoll::Ready(done) => Some((done.result, done.quiet)),
        OpPoll::Pending(_key) | OpPoll::Lost(_key) => None,
    }
}

/// Asserts that the operation was started and is resolved, with this result and so.
pub fn assert_ended(
    rt: &impl Abort,
    engine: &mut Engine<IoUring>,
    started: Result<OpKey, StartFault>,
    end: (i32, bool),
) {
    let key = started.expect(rt, "not started");
    assert_eq!(rt; end_of(engine.poll(key)), Some(end));
}

/// Asserts that the operation was started and is resolved with this result, by its own completion.
pub fn assert_resolved(
    rt: &impl Abort,
    engine: &mut Engine<IoUring>,
    started: Result<OpKey, StartFault>,
    outcome: i32,
) {
    assert_ended(rt, engine, started, (outcome, false));
}
