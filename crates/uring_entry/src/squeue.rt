//! Submission entries of both sizes.

pub use uring_base::squeue::{Entry, Flags};
pub use uring_large::squeue::{Entry128, EntryMarker, MixedEntry, SETUP_SQE128};
