//! The flags of a cancel of the Linux io_uring header (`IORING_ASYNC_CANCEL_..`).

/// All operations that fit, and not the first alone.
pub const ALL: u32 = 1;
/// The operations on a descriptor or a registered file.
pub const FD: u32 = 2;
/// Any operation.
pub const ANY: u32 = 4;
/// What `FD` means is the index of a registered file.
pub const FD_FIXED: u32 = 8;
