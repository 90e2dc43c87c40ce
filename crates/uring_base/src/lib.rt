//! Owned buffers and their loans, submission and completion entries as their words, and the
//! events of a journal.
#![tactic(auto)]

mod buffer;
mod completion_bytes;
mod completion_flags;
pub mod cqueue;
mod entry_bytes;
pub mod errno;
mod events;
pub mod fcntl;
mod flags;
mod fsync_flags;
pub mod limits;
mod lists;
pub mod opcodes;
pub mod squeue;
pub mod stat;
pub mod types;
pub mod words;

pub use buffer::{Buf, Loan};
pub use events::{Completion, Event, LogEvent, Taken};
pub use lists::Nums;
