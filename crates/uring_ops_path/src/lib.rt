//! Builders of the entries of operations on paths, pipes, groups of buffers, memory and children,
//! under the names of io-uring's `opcode` types. Those of the first file operations stand in
//! `uring_ops_file`.
//!
//! Each has `CODE`, its operation's code in the Linux io_uring header; `new`, with what the
//! operation needs; a setter for each thing that it may have; and `build`, which gives the entry.
//! A setter that isn't called leaves 0, and the last call of one wins.
#![tactic(auto)]

mod advice;
mod attributes;
mod cancels;
mod groups;
mod installs;
mod marks;
mod names;
mod opens;
mod pipes;
mod reads;
mod waits;
mod writes;

pub use advice::{Fadvise, Madvise};
pub use attributes::{FGetXattr, FSetXattr, GetXattr, SetXattr};
pub use cancels::AsyncCancel2;
pub use groups::{ProvideBuffers, RemoveBuffers};
pub use installs::FixedFdInstall;
pub use names::{LinkAt, MkDirAt, RenameAt, SymlinkAt, UnlinkAt};
pub use opens::OpenAt2;
pub use pipes::{Pipe, Splice, Tee};
pub use reads::{ReadMulti, ReadvFixed};
pub use waits::{FutexWait, FutexWaitV, FutexWake, WaitId};
pub use writes::WritevFixed;
