//! What several of these tests do. The tests make their values, and lend them to functions that own
//! neither an engine nor a partner.

use partner_traits::{Partner, Seedable};
use rent_engine::{Engine, OpState, Poll};
use rent_fs::FsError;
use std::alloc::Global;
use std::fmt::Debug;
use std::process::Abort;
use uring_base::Buf;
use uring_partner::{HostilePartner, LoanPlan, MemoryPartner, Scripted};
use uring_ring::IoUring;

pub fn engine_of(rt: &impl Abort, alloc: Global, entries: u32) -> Engine<IoUring> {
    let ring = IoUring::new(alloc, entries).expect(rt, "no ring");
    let params = *ring.params();
    Engine::new(alloc, ring, params)
}

/// Makes file 3 of these bytes.
pub fn put_bytes(rt: &impl Abort, alloc: Global, partner: &mut MemoryPartner, bytes: &[u8]) {
    let contents = Buf::from_slice(alloc, bytes).expect(rt, "memory");
    assert!(rt; partner.put_file(alloc, 3, contents).is_ok());
}

/// A partner that posts these results, one in each turn, each under number 0 and with its loan.
pub fn posting(rt: &impl Abort, alloc: Global, results: &[i32]) -> HostilePartner {
    let mut script = Vec::new(alloc);
    for result in results {
        push_post(rt, &mut script, *result);
    }
    HostilePartner::new(alloc, script)
}

/// Adds a turn with one post.
fn push_post(rt: &impl Abort, script: &mut Vec<Scripted>, outcome: i32) {
    let post = Scripted::Post {
        user_data: 0,
        result: outcome,
        flags: 0,
        loan: LoanPlan::Lent,
    };
    assert!(rt; script.push(post).is_ok());
    assert!(rt; script.push(Scripted::Turn).is_ok());
}

/// Asserts that a turn goes well.
pub fn turn<P: Partner>(
    rt: &impl Abort,
    alloc: Global,
    engine: &mut Engine<IoUring>,
    partner: &mut P,
) {
    assert!(rt; engine.turn(alloc, partner).is_ok());
}

/// Asserts that so many operations are in flight.
pub fn assert_in_flight(rt: &impl Abort, engine: &Engine<IoUring>, count: usize) {
    assert_eq!(rt; engine.in_flight(), count);
}

/// Asserts that the state waits.
pub fn assert_waits<T: OpState>(
    rt: &impl Abort,
    alloc: Global,
    engine: &mut Engine<IoUring>,
    task: &mut T,
)
where
    T::Output: Drop,
{
    assert!(rt; !task.is_done());
    assert!(rt; task.poll(alloc, engine).is_pending());
}

/// Asserts that the state waits, and that a turn goes well.
pub fn wait_a_turn<T: OpState, P: Partner>(
    rt: &impl Abort,
    alloc: Global,
    engine: &mut Engine<IoUring>,
    partner: &mut P,
    task: &mut T,
)
where
    T::Output: Drop,
{
    assert_waits(rt, alloc, engine, task);
    turn(rt, alloc, engine, partner);
}

/// Asserts that the state is done at its next poll, with this answer and these bytes.
pub fn assert_moves<O: PartialEq + Debug + Drop, T: OpState<Output = (Result<O, FsError>, Buf)>>(
    rt: &impl Abort,
    alloc: Global,
    engine: &mut Engine<IoUring>,
    task: &mut T,
    answer: Result<O, FsError>,
    bytes: &[u8],
) {
    assert!(rt; !task.is_done());
    assert_gives(rt, task.poll(alloc, engine), answer, bytes);
    assert!(rt; task.is_done());
}

/// Asserts that a state is done now, with this answer and these bytes.
fn assert_gives<O: PartialEq + Debug + Drop>(
    rt: &impl Abort,
    polled: Poll<(Result<O, FsError>, Buf)>,
    answer: Result<O, FsError>,
    bytes: &[u8],
) {
    match polled {
        Poll::Ready((given, buf)) => {
            assert_eq!(rt; given, answer);
            assert_eq!(rt; buf.as_slice(), bytes);
        }
        Poll::Pending => assert!(rt; false, "pending"),
    }
}
