use crate::tests::helpers::{
    assert_in_flight, assert_resolved, engine_of, nop_under, start_nop, turn,
};
use bitflags::Flags as _;
use rent_engine::{Engine, Step};
use std::alloc::Global;
use std::process::Abort;
use uring_base::cqueue;
use uring_partner::{HostilePartner, LoanPlan, Scripted};
use uring_ring::IoUring;

/// A partner that posts for number 5 in three turns: results 1 and 2, and with the last one 3.
fn three_posts(rt: &impl Abort, alloc: Global) -> HostilePartner {
    let more = cqueue::Flags::MORE.bits();
    let last = cqueue::Flags::empty().bits();
    let mut script = Vec::new(alloc);
    for (outcome, flags) in [(1, more), (2, more), (3, last)] {
        push_post(rt, &mut script, outcome, flags);
    }
    HostilePartner::new(alloc, script)
}

/// Adds a turn with one post.
fn push_post(rt: &impl Abort, script: &mut Vec<Scripted>, outcome: i32, flags: u32) {
    let post = Scripted::Post {
        user_data: 5,
        result: outcome,
        flags,
        loan: LoanPlan::Nothing,
    };
    assert!(rt; script.push(post).is_ok());
    assert!(rt; script.push(Scripted::Turn).is_ok());
}

/// Starts number 5, and forgets it.
fn start_forgotten(rt: &impl Abort, alloc: Global, engine: &mut Engine<IoUring>) {
    let key = nop_under(alloc, engine, 5).expect(rt, "not started");
    engine.forget(key);
}

/// The step of number 5 with this result.
fn step_with(outcome: i32) -> Step {
    Step {
        number: 5,
        result: outcome,
        flags: cqueue::Flags::MORE.bits(),
    }
}

/// Two starts on a ring of two, with room for both.
#[test]
fn reserved_starts(rt: HostRuntime) {
    let alloc = rt.alloc();
    let mut engine = engine_of(&rt, alloc, 2);
    start_reserved(&rt, alloc, &mut engine);
}

fn start_reserved(rt: &impl Abort, alloc: Global, engine: &mut Engine<IoUring>) {
    assert!(rt; engine.reserve(alloc, 2).is_ok());
    start_nop(rt, alloc, engine, 0);
    start_nop(rt, alloc, engine, 1);
}

/// An operation that was forgotten is in flight until its last completion, and keeps no step.
#[test]
fn forgotten_until_the_last(rt: HostRuntime) {
    let alloc = rt.alloc();
    let mut partner = three_posts(&rt, alloc);
    let mut engine = engine_of(&rt, alloc, 2);
    start_forgotten(&rt, alloc, &mut engine);
    turns_without_steps(&rt, alloc, &mut engine, &mut partner);
    start_nop(&rt, alloc, &mut engine, 5);
}

fn turns_without_steps(
    rt: &impl Abort,
    alloc: Global,
    engine: &mut Engine<IoUring>,
    partner: &mut HostilePartner,
) {
    for in_flight in [1, 1, 0] {
        turn(rt, alloc, engine, partner);
        assert_in_flight(rt, engine, in_flight);
        assert_eq!(rt; engine.next_step(5), None);
    }
}

/// The steps of an operation come out in order, and then its result.
#[test]
fn steps_then_the_result(rt: HostRuntime) {
    let alloc = rt.alloc();
    let mut partner = three_posts(&rt, alloc);
    let mut engine = engine_of(&rt, alloc, 2);
    steps_in_order(&rt, alloc, &mut engine, &mut partner);
}

fn steps_in_order(
    rt: &impl Abort,
    alloc: Global,
    engine: &mut Engine<IoUring>,
    partner: &mut HostilePartner,
) {
    let started = nop_under(alloc, engine, 5);
    for _ in 0..3 {
        turn(rt, alloc, engine, partner);
    }
    assert_eq!(rt; engine.next_step(5), Some(step_with(1)));
    assert_eq!(rt; engine.next_step(5), Some(step_with(2)));
    assert_eq!(rt; engine.next_step(5), None);
    assert_resolved(rt, engine, started, 3);
}
