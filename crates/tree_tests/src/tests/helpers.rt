//! What several of these tests do. The tests make their values, and lend them to functions that own
//! neither an engine nor a partner.

use rent_engine::{Engine, OpState, Poll};
use rent_fs::FsError;
use std::alloc::Global;
use std::fmt::Debug;
use std::process::Abort;
use uring_base::Buf;
use uring_partner::MemoryPartner;
use uring_ring::IoUring;

pub fn engine_of(rt: &impl Abort, alloc: Global) -> Engine<IoUring> {
    let ring = IoUring::new(alloc, 1).expect(rt, "no ring");
    let params = *ring.params();
    Engine::new(alloc, ring, params)
}

pub fn path(rt: &impl Abort, alloc: Global, text: &str) -> Buf {
    Buf::from_slice(alloc, text.as_bytes()).expect(rt, "memory")
}

pub fn os<T>(errno: i32) -> Result<T, FsError> {
    Err(FsError::Os(errno.unsigned_abs()))
}

/// Polls a state, with so many turns between, each of one operation.
pub fn poll_through<T: OpState>(
    rt: &impl Abort,
    alloc: Global,
    engine: &mut Engine<IoUring>,
    partner: &mut MemoryPartner,
    task: &mut T,
    turns: u32,
) -> Poll<T::Output>
where
    T::Output: Drop,
{
    for _ in 0..turns {
        assert!(rt; !task.is_done());
        assert!(rt; task.poll(alloc, engine).is_pending());
        assert!(rt; engine.turn(alloc, partner).is_ok());
    }
    assert!(rt; !task.is_done());
    task.poll(alloc, engine)
}

/// Asserts that a state gives this output after so many turns.
pub fn assert_gives<T: OpState>(
    rt: &impl Abort,
    alloc: Global,
    engine: &mut Engine<IoUring>,
    partner: &mut MemoryPartner,
    task: &mut T,
    turns: u32,
    output: T::Output,
)
where
    T::Output: PartialEq + Debug + Drop,
{
    match poll_through(rt, alloc, engine, partner, task, turns) {
        Poll::Ready(given) => assert_eq!(rt; given, output),
        Poll::Pending => assert!(rt; false, "pending"),
    }
    assert!(rt; task.is_done());
}
