//! Waits until files are ready.

ghost use Rattle.std.specs.Prelude.{◌≡◌};

use crate::marks::POLL_ADD_MULTI;
use uring_base::opcodes;
use uring_base::squeue::Entry;
use uring_base::types::{Target, UseTarget};

/// Waits until a file is ready, as `poll` does for one. Its result is the bits of what it is ready
/// for, or an errno below 0. Each field is what `new` was given, or what the setter of its name
/// was.
#[derive(Drop)]
pub struct PollAdd {
    pub fd: Target,
    pub flags: u32,
    pub multi: bool,
}

impl PollAdd {
    ghost use Rattle.uring_ops_file.specs.Rows.{new_poll_add, poll_add_words};

    /// `IORING_OP_POLL_ADD` of `linux/io_uring.h`.
    pub const CODE: u8 = opcodes::POLL_ADD;

    /// A wait until `fd` is ready for one of `flags`, which are `POLL` bits of `poll.h`.
    pub fn new<T: UseTarget>(fd: T, flags: u32) -> PollAdd
        ensures { result ≡ new_poll_add (T.target_of fd) flags }
    {
        PollAdd {
            fd: fd.target(),
            flags,
            multi: false,
        }
    }

    /// Whether it waits again after each answer, by `IORING_POLL_ADD_MULTI`: all its completions
    /// but the last have `MORE`.
    pub fn multi(self, multi: bool) -> PollAdd
        ensures { result ≡ record self { multi = multi } }
    {
        PollAdd { multi, ..self }
    }

    /// The entry. A registered file sets the flag `FIXED_FILE` in it.
    pub fn build(self) -> Entry
        ensures { result ≡ poll_add_words self }
    {
        Entry {
            len: if self.multi { POLL_ADD_MULTI } else { 0 },
            op: self.flags,
            ..Entry::blank(PollAdd::CODE)
        }
        .on(self.fd)
    }
}

/// Removes a poll that waits. Its result is 0, or an errno below 0: `ENOENT` where there is none.
/// The field is what `new` was given.
#[derive(Drop)]
pub struct PollRemove {
    pub user_data: u64,
}

impl PollRemove {
    ghost use Rattle.uring_ops_file.specs.Rows.{new_poll_remove, poll_remove_words};

    /// `IORING_OP_POLL_REMOVE` of `linux/io_uring.h`.
    pub const CODE: u8 = opcodes::POLL_REMOVE;

    /// A removal of the poll whose entry has this `user_data`.
    pub fn new(user_data: u64) -> PollRemove
        ensures { result ≡ new_poll_remove user_data }
    {
        PollRemove { user_data }
    }

    /// The entry, on no descriptor.
    pub fn build(self) -> Entry
        ensures { result ≡ poll_remove_words self }
    {
        Entry {
            fd: -1,
            addr: self.user_data,
            ..Entry::blank(PollRemove::CODE)
        }
    }
}
