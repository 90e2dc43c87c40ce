//! The greatest sizes of operations and of rings.

/// How many bytes a buffer of an operation may have: a result tells a count in 31 bits.
pub const MAX_BUFFER: usize = 2147483647;
/// How far into a file an operation may reach: a position has 63 bits.
pub const MAX_POSITION: u64 = 9223372036854775807;
/// How many entries a submission ring may have (`IORING_MAX_ENTRIES`).
pub const MAX_ENTRIES: u32 = 32768;
/// How many completions a completion ring may have (`IORING_MAX_CQ_ENTRIES`).
pub const MAX_COMPLETIONS: u32 = 65536;
