//! What each end of a run passes before each of its rounds.

/// An end of a run.
#[derive(Clone, Copy, PartialEq, Eq, Debug)]
pub enum End {
    Engine,
    Partner,
}

/// What each end passes before each of its rounds. It may let the end wait, and changes nothing of
/// what the end does.
pub trait Gate {
    /// Passed by an end, with the number of its earlier rounds, which stays at 2^64 - 1 once there.
    fn pass(&self, end: End, round: u64);
}

/// A gate that returns at once.
#[derive(Clone, Copy, PartialEq, Eq, Debug)]
pub struct NoGate;

impl Gate for NoGate {
    fn pass(&self, _end: End, _round: u64) {}
}
