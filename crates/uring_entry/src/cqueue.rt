//! Completion entries of both sizes, and what their flags say.

pub use uring_base::cqueue::{
    BUFFER_SHIFT, Entry, Flags, buffer_more, buffer_select, more, notif, sock_nonempty,
};
pub use uring_large::cqueue::{Entry32, EntryMarker, MixedCompletion, SETUP_CQE32};
