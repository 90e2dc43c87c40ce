//! The codes of registrations (`IORING_REGISTER_..`, `IORING_UNREGISTER_..` of the Linux io_uring
//! header), and the numbers that stand in them.

pub const REGISTER_BUFFERS: u32 = 0;

pub const UNREGISTER_BUFFERS: u32 = 1;

pub const REGISTER_FILES: u32 = 2;

pub const UNREGISTER_FILES: u32 = 3;

pub const REGISTER_EVENTFD: u32 = 4;

pub const UNREGISTER_EVENTFD: u32 = 5;

pub const REGISTER_FILES_UPDATE: u32 = 6;

pub const REGISTER_EVENTFD_ASYNC: u32 = 7;

pub const REGISTER_PROBE: u32 = 8;

pub const REGISTER_PERSONALITY: u32 = 9;

pub const UNREGISTER_PERSONALITY: u32 = 10;

pub const REGISTER_RESTRICTIONS: u32 = 11;

pub const REGISTER_ENABLE_RINGS: u32 = 12;

pub const REGISTER_FILES2: u32 = 13;

pub const REGISTER_BUFFERS2: u32 = 15;

pub const REGISTER_BUFFERS_UPDATE: u32 = 16;

pub const REGISTER_IOWQ_MAX_WORKERS: u32 = 19;

pub const REGISTER_RING_FDS: u32 = 20;

pub const UNREGISTER_RING_FDS: u32 = 21;

pub const REGISTER_PBUF_RING: u32 = 22;

pub const UNREGISTER_PBUF_RING: u32 = 23;

pub const REGISTER_SYNC_CANCEL: u32 = 24;

pub const REGISTER_NAPI: u32 = 27;

pub const UNREGISTER_NAPI: u32 = 28;

pub const REGISTER_CLONE_BUFFERS: u32 = 30;

/// Added to a code where the ring is named by its registered index
/// (`IORING_REGISTER_USE_REGISTERED_RING`).
pub const USE_REGISTERED_RING: u32 = 1 << 31;

/// The flag of a registration of places alone (`IORING_RSRC_REGISTER_SPARSE`).
pub const RSRC_REGISTER_SPARSE: u64 = 1;

/// The flag of an operation that is served, in a probe (`IO_URING_OP_SUPPORTED`).
pub const OP_SUPPORTED: u64 = 1;
