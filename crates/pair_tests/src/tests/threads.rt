//! Both sides of a pair, each on a thread of its own.

ghost use Rattle.uring_shared.specs.Seats.{IsEngineOf, IsPartnerOf};
ghost use Rattle.uring_shared.specs.Sides.{engine_of, partner_of};

use std::test::Fail;
use std::thread;
use uring_base::Completion;
use uring_base::squeue::Entry;
use uring_shared::{
    EngineEnds, EngineSeats, PartnerEnds, PartnerSeats, PartnerSide, SharedPair, UserEnds,
};

/// How many entries go through.
const ALL: u64 = 1_000_000;

/// How often a side looks at the most, so that it ends also where the other side is stuck.
const LOOKS: u64 = 100_000_000;

/// Offers the entry of this number, where it fits and isn't the last one's successor, and tells the
/// number of the next.
fn offer_next(pair: &SharedPair, ends: &mut EngineEnds<'_>, number: u64) -> u64
    requires { IsEngineOf pair.now (engine_of ends.old) }
    ensures { IsEngineOf pair.now (engine_of ends.new) }
{
    if number == ALL {
        return number;
    }
    match ends.offer(Entry::blank(0).user_data(number), None) {
        Ok(()) => number.wrapping_add(1),
        Err(_) => number,
    }
}

/// Reaps a completion where one is there, and tells the number of the next: the one behind it where
/// it is the one that was to come.
fn reap_next(pair: &SharedPair, ends: &mut EngineEnds<'_>, number: u64) -> u64
    requires { IsEngineOf pair.now (engine_of ends.old) }
    ensures { IsEngineOf pair.now (engine_of ends.new) }
{
    match ends.reap() {
        Some(completion) if completion.user_data == number => number.wrapping_add(1),
        _ => number,
    }
}

/// One look of the engine: an entry is offered, and a completion reaped, where they can be.
fn engine_looks(
    pair: &SharedPair,
    ends: &mut EngineEnds<'_>,
    offered: u64,
    reaped: u64,
) -> (u64, u64)
    requires { IsEngineOf pair.now (engine_of ends.old) }
    ensures { IsEngineOf pair.now (engine_of ends.new) }
{
    let now_offered = offer_next(pair, ends, offered);
    ends.publish();
    ends.refresh();
    let now_reaped = reap_next(pair, ends, reaped);
    if now_offered == offered && now_reaped == reaped {
        thread::yield_now();
    }
    (now_offered, now_reaped)
}

/// The engine's thread. It tells how many completions came in order.
fn engine_side(pair: &SharedPair, seats: EngineSeats) -> (EngineSeats, u64)
    requires { IsEngineOf pair.now seats }
    ensures { IsEngineOf pair.now result.0 }
{
    let mut ends = seats.on(pair);
    let mut offered = 0;
    let mut reaped = 0;
    for _look in 0..LOOKS {
        if reaped == ALL {
            break;
        }
        (offered, reaped) = engine_looks(pair, &mut ends, offered, reaped);
    }
    (ends.into_seats(), reaped)
}

/// The answer to an entry: a completion of the same number.
fn post_answer(pair: &SharedPair, ends: &mut PartnerEnds<'_>, number: u64) -> bool
    requires { IsPartnerOf pair.now (partner_of ends.old) }
    ensures { IsPartnerOf pair.now (partner_of ends.new) }
{
    let completion = Completion {
        user_data: number,
        result: 0,
        flags: 0,
        big: [0; 2],
        large: false,
        loan: None,
    };
    ends.post(completion).is_ok()
}

/// One look of the partner: it answers an entry, where one waits and its answer fits.
fn partner_looks(pair: &SharedPair, ends: &mut PartnerEnds<'_>) -> bool
    requires { IsPartnerOf pair.now (partner_of ends.old) }
    ensures { IsPartnerOf pair.now (partner_of ends.new) }
{
    if ends.room() == 0 {
        return false;
    }
    match ends.take() {
        Some(taken) => post_answer(pair, ends, taken.entry.get_user_data()),
        None => false,
    }
}

/// The partner's thread. It tells how many entries it answered.
fn partner_side(pair: &SharedPair, seats: PartnerSeats) -> (PartnerSeats, u64)
    requires { IsPartnerOf pair.now seats }
    ensures { IsPartnerOf pair.now result.0 }
{
    let mut ends = seats.on(pair);
    let mut answered: u64 = 0;
    for _look in 0..LOOKS {
        if answered == ALL {
            break;
        }
        if partner_looks(pair, &mut ends) {
            answered = answered.wrapping_add(1);
        } else {
            thread::yield_now();
        }
    }
    (ends.into_seats(), answered)
}

/// All entries go through a pair of 8 to another thread and are answered there, and their answers
/// come back, each once and in order. The positions wrap in between.
#[test]
#[tactic(auto, unfolding(ring_core::specs::Positions::is_ring_size))]
fn two_threads(rt: HostRuntime) -> Result<(), Fail> {
    let (pair, engine, partner) = SharedPair::new(rt.alloc(), 8, 8, 4294967290)?;
    let shared = &pair;
    let ((engine, reaped), (partner, answered)) = thread::join(
        &rt,
        move || engine_side(shared, engine),
        move || partner_side(shared, partner),
    );
    assert_eq!(rt; (reaped, answered), (ALL, ALL));
    let (entries, completions) = pair.meet(engine, partner);
    assert_eq!(rt; (entries.left, completions.left), (0, 0));
    Ok(())
}
