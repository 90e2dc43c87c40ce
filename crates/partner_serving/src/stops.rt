//! How both ends of a run tell each other that they stop.

use std::sync::atomic::{AtomicBool, Ordering};

/// Two flags: the partner's end is asked to stop, and it has stopped. Another thread may set either
/// at any time, so no clause speaks of what they hold.
#[derive(Drop)]
pub struct StopFlags {
    asked: AtomicBool,
    stopped: AtomicBool,
}

impl StopFlags {
    /// Neither is set.
    pub fn new() -> StopFlags {
        StopFlags {
            asked: AtomicBool::new(false),
            stopped: AtomicBool::new(false),
        }
    }

    /// Asks the partner's end to stop.
    pub fn ask(&self) {
        self.asked.store(true, Ordering::SeqCst);
    }

    /// Whether the partner's end is asked to stop.
    pub fn is_asked(&self) -> bool {
        self.asked.load(Ordering::SeqCst)
    }

    /// Tells that the partner's end has stopped.
    pub(crate) fn set_stopped(&self) {
        self.stopped.store(true, Ordering::SeqCst);
    }

    /// Whether the partner's end has stopped.
    pub fn has_stopped(&self) -> bool {
        self.stopped.load(Ordering::SeqCst)
    }
}

impl Default for StopFlags {
    fn default() -> StopFlags {
        StopFlags::new()
    }
}
