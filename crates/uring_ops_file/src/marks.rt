//! Bits of the Linux io_uring header that a builder puts into a word by itself.

/// `IORING_POLL_ADD_MULTI`, of the length word: the poll waits again after each answer.
pub const POLL_ADD_MULTI: u32 = 1;

/// `IORING_TIMEOUT_UPDATE`, of the operation's flags: a timeout gets another time, and isn't
/// removed.
pub const TIMEOUT_UPDATE: u32 = 2;
