//! Small types that the entries of some operations are built from, or that a partner reads or
//! fills.
#![tactic(auto)]

mod buf_ring;
mod cancel;
pub mod cancel_flags;
mod clone_flags;
mod futex;
mod messages;
mod napi;
mod open_how;
pub mod register_codes;
mod slots;
mod submit_args;
mod time;
mod timeout_flags;

pub use buf_ring::BufRingEntry;
pub use cancel::CancelBuilder;
pub use clone_flags::CloneBuffersFlags;
pub use futex::FutexWaitV;
pub use messages::{MESSAGE_HEADER_LEN, MSG_CTRUNC, MSG_TRUNC, RecvMsgOut};
pub use napi::{Napi, NapiTracking, TRACKING_DYNAMIC, TRACKING_INACTIVE, TRACKING_STATIC};
pub use open_how::OpenHow;
pub use slots::{ANY_SLOT, DestinationSlot, MAX_SLOT};
pub use submit_args::SubmitArgs;
pub use time::Timespec;
pub use timeout_flags::TimeoutFlags;
pub use uring_base::types::{Fd, Fixed, FsyncFlags, Target, UseTarget};

/// The flags of a read or write, under the bits of `preadv2` (`RWF_HIPRI` and others). They
/// stand in an entry's word for the operation's flags.
pub type RwFlags = u32;

/// A completion of a receive without copying tells in one number of 64 bits which memory area the
/// data are in and where. The area's number begins at this bit, counted from 0.
pub const IORING_ZCRX_AREA_SHIFT: u32 = 48;

/// The bits of that number that hold the area's.
pub const IORING_ZCRX_AREA_MASK: u64 = 0xffff_0000_0000_0000;
