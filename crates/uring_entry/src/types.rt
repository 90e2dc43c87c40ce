//! Small types that entries are built from, or that a partner reads or fills.

pub use uring_base::types::{Fd, Fixed, FsyncFlags, Target, UseTarget};
pub use uring_types::{
    ANY_SLOT, BufRingEntry, CancelBuilder, CloneBuffersFlags, DestinationSlot, FutexWaitV,
    IORING_ZCRX_AREA_MASK, IORING_ZCRX_AREA_SHIFT, MAX_SLOT, MESSAGE_HEADER_LEN, MSG_CTRUNC,
    MSG_TRUNC, Napi, NapiTracking, OpenHow, RecvMsgOut, RwFlags, SubmitArgs, TRACKING_DYNAMIC,
    TRACKING_INACTIVE, TRACKING_STATIC, TimeoutFlags, Timespec, cancel_flags,
};
