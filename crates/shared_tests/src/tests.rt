ghost use Rattle.std.specs.Prelude.{◌≡◌};
ghost use Rattle.ring_shared.specs.Ends.{IsSeatOf};

use ring_shared::{LocalRing, SendEnd, SharedError, SharedRing, TakeEnd};
use std::sync::Wait;
use std::test::Fail;
use std::thread;
use std::thread::Threads;

/// Each call that can find no memory answers otherwise where there is memory.
#[test]
#[tactic(auto, unfolding(ring_core::specs::Positions::is_ring_size))]
fn each_call(rt: HostRuntime) -> Result<(), Fail> {
    let alloc = rt.alloc();
    let (ring, send, take): (SharedRing<u64>, SendEnd<u64>, TakeEnd<u64>) = SharedRing::new(
        alloc, 4, 9,
    )?;
    assert_eq!(rt; (send.capacity(), send.spare(), send.place()), (4, 4, 9));
    assert_eq!(rt; (take.capacity(), take.waiting(), take.place()), (4, 0, 9));
    assert_eq!(rt; ring.meet(send, take).left, 0);
    let local: LocalRing<u64> = LocalRing::new(alloc, 1, 7)?;
    assert_eq!(rt; (local.capacity(), local.places()), (1, (7, 7)));
    Ok(())
}

/// Two items fit, the positions wrap between them, and each end goes by what it last loaded.
#[test]
#[tactic(auto, unfolding(ring_core::specs::Positions::is_ring_size))]
fn positions_wrap(rt: HostRuntime) -> Result<(), Fail> {
    let (ring, mut send, mut take) = SharedRing::new(rt.alloc(), 2, 4294967295)?;
    assert_eq!(rt; send.put(&ring, 1u64), Ok(()));
    assert_eq!(rt; send.put(&ring, 2), Ok(()));
    assert_eq!(rt; send.put(&ring, 3), Err(3));
    take.refresh(&ring);
    assert_eq!(rt; take.take(&ring), None);
    send.publish(&ring);
    assert_eq!(rt; take.take(&ring), None);
    take.refresh(&ring);
    assert_eq!(rt; take.take(&ring), Some(1));
    take.publish(&ring);
    assert_eq!(rt; send.put(&ring, 3), Err(3));
    send.refresh(&ring);
    assert_eq!(rt; send.put(&ring, 3), Ok(()));
    assert_eq!(rt; (send.place(), take.place()), (2, 0));
    send.publish(&ring);
    take.publish(&ring);
    assert_eq!(rt; ring.meet(send, take).left, 2);
    Ok(())
}

/// The same ring with both its ends in one thread.
#[test]
#[tactic(auto, unfolding(ring_core::specs::Positions::is_ring_size))]
fn local_positions_wrap(rt: HostRuntime) -> Result<(), Fail> {
    let mut ring = LocalRing::new(rt.alloc(), 2, 4294967295)?;
    assert_eq!(rt; ring.spare(), 2);
    ring.put(1u64);
    ring.put(2);
    assert_eq!(rt; ring.spare(), 0);
    ring.publish_tail();
    assert_eq!(rt; ring.take(), None);
    ring.see_tail();
    assert_eq!(rt; ring.take(), Some(1));
    ring.publish_head();
    assert_eq!(rt; ring.spare(), 0);
    ring.see_head();
    assert_eq!(rt; ring.spare(), 1);
    ring.put(3);
    ring.publish_tail();
    ring.see_tail();
    assert_eq!(rt; ring.waiting(), 2);
    assert_eq!(rt; ring.take(), Some(2));
    assert_eq!(rt; ring.take(), Some(3));
    assert_eq!(rt; ring.places(), (2, 2));
    Ok(())
}

#[test]
fn text_of_a_shared_error(rt: HostRuntime) -> Result<(), Fail> {
    let text = format!(in rt.alloc(); "{}", SharedError::NoMemory)?;
    assert_eq!(rt; text.as_str(), "no memory");
    Ok(())
}

// How often an end looks before it yields.
const TRIES: u32 = 64;

/// Puts an item, if there is room soon.
fn put_soon(ring: &SharedRing<u64>, send: &mut SendEnd<u64>, item: u64) -> bool
    requires { IsSeatOf ring.now send.old.seat }
    ensures { IsSeatOf ring.now send.new.seat }
{
    for _try in 0..TRIES {
        if send.put(ring, item).is_ok() {
            return true;
        }
        send.publish(ring);
        send.refresh(ring);
    }
    false
}

/// Takes an item, if there is one soon.
fn take_soon(ring: &SharedRing<u64>, take: &mut TakeEnd<u64>) -> Option<u64>
    requires { IsSeatOf ring.now take.old.seat }
    ensures { IsSeatOf ring.now take.new.seat }
{
    for _try in 0..TRIES {
        if let Some(item) = take.take(ring) {
            return Some(item);
        }
        take.publish(ring);
        take.refresh(ring);
    }
    None
}

/// Puts an item, and waits for room where there is none.
fn put_waiting(rt: &impl Wait, ring: &SharedRing<u64>, send: &mut SendEnd<u64>, item: u64)
    requires { IsSeatOf ring.now send.old.seat }
    ensures { IsSeatOf ring.now send.new.seat }
{
    for _ in rt.forever() {
        if put_soon(ring, send, item) {
            return;
        }
        thread::yield_now();
    }
    unreachable!()
}

/// Takes an item, and waits for one where there is none.
fn take_waiting(rt: &impl Wait, ring: &SharedRing<u64>, take: &mut TakeEnd<u64>) -> u64
    requires { IsSeatOf ring.now take.old.seat }
    ensures { IsSeatOf ring.now take.new.seat }
{
    for _ in rt.forever() {
        if let Some(item) = take_soon(ring, take) {
            return item;
        }
        thread::yield_now();
    }
    unreachable!()
}

const MANY: u64 = 1_000_000;

fn send_all(rt: &impl Wait, ring: &SharedRing<u64>, send: SendEnd<u64>) -> SendEnd<u64>
    requires { IsSeatOf ring.now send.seat }
    ensures { IsSeatOf ring.now result.seat }
{
    let mut send = send;
    for item in 0..MANY {
        put_waiting(rt, ring, &mut send, item);
    }
    send.publish(ring);
    send
}

// How many items came that weren't the next one.
fn take_all(rt: &impl Wait, ring: &SharedRing<u64>, take: TakeEnd<u64>) -> (TakeEnd<u64>, u64)
    requires { IsSeatOf ring.now take.seat }
    ensures { IsSeatOf ring.now result.0.seat }
{
    let mut take = take;
    let mut strange = 0;
    for item in 0..MANY {
        if take_waiting(rt, ring, &mut take) != item && strange < MANY {
            strange += 1;
        }
    }
    (take, strange)
}

/// Sends all items on one thread and takes them on another.
fn across<R: Threads + Wait + Sync>(
    rt: &R,
    ring: &SharedRing<u64>,
    send: SendEnd<u64>,
    take: TakeEnd<u64>,
) -> (SendEnd<u64>, (TakeEnd<u64>, u64))
    requires send { IsSeatOf ring.now send.seat }
    requires take { IsSeatOf ring.now take.seat }
    ensures send { IsSeatOf ring.now result.0.seat }
    ensures take { IsSeatOf ring.now result.1.0.seat }
{
    thread::join(
        rt,
        || -> SendEnd<u64>
            requires { IsSeatOf ring.now send.seat }
            ensures { IsSeatOf ring.entry.now result.seat }
        { send_all(rt, ring, send) },
        || -> (TakeEnd<u64>, u64)
            requires { IsSeatOf ring.now take.seat }
            ensures { IsSeatOf ring.entry.now result.0.seat }
        { take_all(rt, ring, take) },
    )
}

/// Two threads: all items come, in order.
#[test]
#[tactic(auto, unfolding(ring_core::specs::Positions::is_ring_size))]
fn two_threads(rt: HostRuntime) -> Result<(), Fail> {
    let (ring, send, take) = SharedRing::new(rt.alloc(), 8, 4294967290)?;
    let (send, (take, strange)) = across(&rt, &ring, send, take);
    assert_eq!(rt; strange, 0);
    assert_eq!(rt; (send.place(), take.place()), (999_994, 999_994));
    assert_eq!(rt; ring.meet(send, take).left, 0);
    Ok(())
}
