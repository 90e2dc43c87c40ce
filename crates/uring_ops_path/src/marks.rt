//! Numbers of the Linux headers that a builder puts into a word by itself.

/// `SPLICE_F_FD_IN_FIXED` of `linux/io_uring.h`, of the operation's flags: the source is the index
/// of a registered file.
pub const FD_IN_FIXED: u32 = 0x8000_0000;

/// `OPEN_HOW_SIZE_VER0` of `linux/openat2.h`, the bytes of an `open_how`: three numbers of 64 bits.
pub const OPEN_HOW_SIZE: u32 = 24;
