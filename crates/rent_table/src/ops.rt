//! Operations, and what comes of them.

use crate::handles::Joins;
use uring_base::Buf;

/// An operation that was started and isn't resolved.
#[derive(Clone, Copy, PartialEq, Eq, Debug)]
pub struct Flight {
    /// A buffer was lent with it.
    pub lent: bool,
    /// Nobody is going to ask for its result.
    pub forgotten: bool,
    /// The number that it is resolved with. It is quiet where it has one: nothing is posted for it
    /// if it succeeds.
    pub next: Option<u64>,
}

/// What a table has under a number.
#[derive(Drop)]
pub(crate) enum Lifecycle {
    InFlight(Flight, Joins),
    Done(OpDone),
}

/// A resolved operation.
#[derive(Drop)]
pub struct OpDone {
    pub result: i32,
    pub flags: u32,
    /// The buffer that was lent, as it came back.
    pub buf: Option<Buf>,
    /// Nothing was posted for it: it was resolved with its next number.
    pub quiet: bool,
}

/// A completion that left its operation in flight.
#[derive(Clone, Copy, PartialEq, Eq, Debug)]
pub struct Step {
    pub number: u64,
    pub result: i32,
    pub flags: u32,
}
