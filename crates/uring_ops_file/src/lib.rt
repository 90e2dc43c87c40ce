//! Builders of the entries of file operations, under the names of io-uring's `opcode` types.
//!
//! Each has `CODE`, its operation's code in the Linux io_uring header; `new`, with what the
//! operation needs; a setter for each thing that it may have; and `build`, which gives the entry.
//! A setter that isn't called leaves 0, and the last call of one wins.
#![tactic(auto)]

mod cancels;
mod marks;
mod nop;
mod opens;
mod polls;
mod reads;
mod sizes;
mod stats;
mod syncs;
mod tables;
mod timeouts;
mod writes;

pub use cancels::AsyncCancel;
pub use nop::Nop;
pub use opens::{Close, OpenAt};
pub use polls::{PollAdd, PollRemove};
pub use reads::{Read, ReadFixed, Readv};
pub use sizes::{Fallocate, Ftruncate};
pub use stats::Statx;
pub use syncs::{Fsync, SyncFileRange};
pub use tables::FilesUpdate;
pub use timeouts::{LinkTimeout, Timeout, TimeoutRemove, TimeoutUpdate};
pub use writes::{Write, WriteFixed, Writev};
