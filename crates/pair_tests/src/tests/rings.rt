//! Both kinds of rings on one thread.

use std::process::Abort;
use std::test::Fail;
use uring_base::Completion;
use uring_base::squeue::Entry;
use uring_shared::{Met, PartnerSide, SharedPair, SharedRing, SharedRings, UserEnds};

/// Each call that can find no memory answers otherwise where there is memory.
#[test]
#[tactic(auto, unfolding(ring_core::specs::Positions::is_ring_size))]
fn each_call(rt: HostRuntime) -> Result<(), Fail> {
    let rings = SharedRings::new(rt.alloc(), 4, 8, 9)?;
    assert_eq!(rt; (rings.capacity(), rings.completion_capacity()), (4, 8));
    assert_eq!(rt;
        (rings.places(), rings.free(), rings.sq_flags()),
        ((9, 9), 4, 0)
    );
    let (pair, engine, _partner) = SharedPair::new(rt.alloc(), 8, 4, 7)?;
    let ends = engine.on(&pair);
    assert_eq!(rt; (ends.capacity(), ends.completion_capacity()), (8, 4));
    assert_eq!(rt; (ends.places(), ends.free()), ((7, 7), 8));
    Ok(())
}

fn nop(number: u64) -> Entry {
    Entry::blank(0).user_data(number)
}

fn answer(number: u64) -> Completion {
    Completion {
        user_data: number,
        result: 0,
        flags: 0,
        big: [5; 2],
        large: true,
        loan: None,
    }
}

/// Asserts that a completion of this number came, of which the ring kept no further numbers.
fn assert_reaped(rt: &impl Abort, completion: Option<Completion>, number: u64) {
    match completion {
        Some(completion) => {
            assert_eq!(rt; completion.user_data, number);
            assert_eq!(rt; completion.big, [0; 2]);
        }
        None => assert!(rt; false, "nothing to reap"),
    }
}

/// One thread with both sides, from a start at which the positions wrap.
#[test]
#[tactic(auto, unfolding(ring_core::specs::Positions::is_ring_size))]
fn one_thread_with_both_sides(rt: HostRuntime) -> Result<(), Fail> {
    let mut rings = SharedRings::new(rt.alloc(), 2, 4, 4294967295)?;
    assert!(rt; rings.offer(nop(1), None).is_ok());
    assert!(rt; rings.offer(nop(2), None).is_ok());
    assert!(rt; rings.offer(nop(3), None).is_err());
    assert_eq!(rt; rings.published(), 0);
    rings.publish();
    assert_eq!(rt; rings.published(), 2);
    assert_eq!(rt;
        rings.take().map(|taken| taken.entry.get_user_data()),
        Some(1)
    );
    assert!(rt; rings.post(answer(1)).is_ok());
    assert!(rt; rings.offer(nop(3), None).is_err());
    assert!(rt; rings.reap().is_none());
    rings.refresh();
    assert!(rt; rings.offer(nop(3), None).is_ok());
    assert_reaped(&rt, rings.reap(), 1);
    assert_eq!(rt; rings.places(), (2, 0));
    Ok(())
}

/// A pair whose sides are used one after the other.
#[test]
#[tactic(auto, unfolding(ring_core::specs::Positions::is_ring_size))]
fn sides_that_meet(rt: HostRuntime) -> Result<(), Fail> {
    let (pair, engine, partner) = SharedPair::new(rt.alloc(), 2, 4, 0)?;
    let mut engine = engine.on(&pair);
    let mut partner = partner.on(&pair);
    assert!(rt; engine.offer(nop(7), None).is_ok());
    assert_eq!(rt; partner.published(), 0);
    engine.publish();
    assert_eq!(rt; partner.published(), 1);
    assert_eq!(rt;
        partner.take().map(|taken| taken.entry.get_user_data()),
        Some(7)
    );
    assert!(rt; partner.take().is_none());
    assert!(rt; partner.post(answer(7)).is_ok());
    assert_eq!(rt; partner.room(), 3);
    let (entries, completions) = pair.meet(engine.into_seats(), partner.into_seats());
    assert_eq!(rt; (entries.left, completions.left), (0, 1));
    Ok(())
}

/// A ring of numbers, from a start at which the positions wrap.
#[test]
#[tactic(auto, unfolding(ring_core::specs::Positions::is_ring_size))]
fn a_ring_of_numbers(rt: HostRuntime) -> Result<(), Fail> {
    let (ring, mut send, mut take) = SharedRing::new(rt.alloc(), 2, 4294967295)?;
    assert_eq!(rt; send.put(&ring, 1u64), Ok(()));
    assert_eq!(rt; send.put(&ring, 2), Ok(()));
    assert_eq!(rt; send.put(&ring, 3), Err(3));
    send.publish(&ring);
    assert_eq!(rt; take.take(&ring), None);
    take.refresh(&ring);
    assert_eq!(rt; take.take(&ring), Some(1));
    take.publish(&ring);
    assert_eq!(rt; send.put(&ring, 3), Err(3));
    send.refresh(&ring);
    assert_eq!(rt; send.put(&ring, 3), Ok(()));
    send.publish(&ring);
    take.publish(&ring);
    let Met { left } = ring.meet(send, take);
    assert_eq!(rt; left, 2);
    Ok(())
}
