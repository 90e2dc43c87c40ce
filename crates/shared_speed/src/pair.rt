//! Items through a pair of rings.

use crate::{BOUND, Passed, answer, entry};
use std::alloc::Global;
use std::sync::Wait;
use std::thread::Threads;
use std::{hint, io, thread};
use uring_shared::{EngineEnds, PartnerEnds, PartnerSide, SharedPair, UserEnds};

/// Below how many answers at once a side waits before it looks again.
const FEW: u64 = 64;

/// How often a side tells the processor that it waits, before it looks again.
const MOMENT: u32 = 50;

/// How many looks in a row may find nothing before the thread lets others run.
const LOOKS: u32 = 4;

/// Waits a moment, and longer where nothing has come for some time.
fn wait(idle: u32) {
    if idle > LOOKS {
        thread::yield_now();
        return;
    }
    for _ in 0..MOMENT {
        hint::spin_loop();
    }
}

/// Offers the entries from this number on, as far as they fit, and tells how many are offered then.
fn offer_all(ends: &mut EngineEnds<'_>, offered: u64, items: u64) -> u64 {
    let mut number = offered;
    for _ in 0..ends.free() {
        if number == items || ends.offer(entry(number), None).is_err() {
            return number;
        }
        number = number.wrapping_add(1);
    }
    number
}

/// Reaps what has come.
fn reap_all(ends: &mut EngineEnds<'_>, mut passed: Passed) -> Passed {
    for _ in 0..BOUND {
        match ends.reap() {
            Some(completion) => passed = passed.and(completion.user_data),
            None => return passed,
        }
    }
    passed
}

/// The engine's thread: it offers so many entries, and reaps their answers.
fn engine_side<R: Wait>(rt: &R, mut ends: EngineEnds<'_>, items: u64) -> Passed {
    let mut offered = 0;
    let mut passed = Passed::nothing();
    let mut idle: u32 = 0;
    for _ in rt.forever() {
        offered = offer_all(&mut ends, offered, items);
        ends.publish();
        if passed.count >= items {
            return passed;
        }
        ends.refresh();
        let before = passed.count;
        passed = reap_all(&mut ends, passed);
        let came = passed.count.wrapping_sub(before);
        idle = if came == 0 { idle.saturating_add(1) } else { 0 };
        if came < FEW {
            wait(idle);
        }
    }
    unreachable!()
}

/// Answers the entries that are known to wait, as far as the answers fit, and tells how many.
fn answer_all(ends: &mut PartnerEnds<'_>) -> u64 {
    let mut answered: u64 = 0;
    for _ in 0..ends.published() {
        if ends.room() == 0 {
            return answered;
        }
        let Some(taken) = ends.take() else {
            return answered;
        };
        if ends.post(answer(taken)).is_err() {
            return answered;
        }
        answered = answered.wrapping_add(1);
    }
    answered
}

/// The partner's thread: it answers so many entries.
fn partner_side<R: Wait>(rt: &R, mut ends: PartnerEnds<'_>, items: u64) {
    let mut answered: u64 = 0;
    let mut idle: u32 = 0;
    for _ in rt.forever() {
        if answered >= items {
            return;
        }
        let now = answer_all(&mut ends);
        answered = answered.wrapping_add(now);
        idle = if now == 0 { idle.saturating_add(1) } else { 0 };
        if now < FEW {
            wait(idle);
        }
    }
}

/// So many items through a pair, each side of which is on a thread of its own.
#[tactic(auto, unfolding(ring_core::specs::Positions::is_ring_size))]
pub(crate) fn pass<R: Threads + Wait + Sync>(
    rt: &R,
    alloc: Global,
    items: u64,
) -> io::Result<Passed> {
    let (pair, engine, partner) = SharedPair::new(alloc, BOUND, BOUND, 0)?;
    let engine = engine.on(&pair);
    let partner = partner.on(&pair);
    let ((), passed) = thread::join(
        rt,
        move || partner_side(rt, partner, items),
        move || engine_side(rt, engine, items),
    );
    Ok(passed)
}
