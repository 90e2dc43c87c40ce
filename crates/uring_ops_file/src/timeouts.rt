//! Waits for a time.

ghost use Rattle.std.specs.Prelude.{◌≡◌};

use crate::marks::TIMEOUT_UPDATE;
use bitflags::Flags as _;
use uring_base::opcodes;
use uring_base::squeue::Entry;
use uring_types::TimeoutFlags;

/// Waits for a time, or for a count of other completions, whichever comes first. Its result is an
/// errno below 0, `ETIME` where the time came first, or 0. Each field is what `new` was given, or
/// what the setter of its name was.
#[derive(Drop)]
pub struct Timeout {
    pub timespec: u64,
    pub count: u32,
    pub flags: TimeoutFlags,
}

impl Timeout {
    ghost use Rattle.uring_ops_file.specs.Rows.{new_timeout, timeout_words};

    /// `IORING_OP_TIMEOUT` of `linux/io_uring.h`.
    pub const CODE: u8 = opcodes::TIMEOUT;

    /// A wait for the time that the number `timespec` names.
    pub fn new(timespec: u64) -> Timeout
        ensures { result ≡ new_timeout timespec }
    {
        Timeout {
            timespec,
            count: 0,
            flags: TimeoutFlags::empty(),
        }
    }

    /// How many completions end the wait, or with `MULTISHOT` how many times it fires; 0 is no such
    /// bound.
    pub fn count(self, count: u32) -> Timeout
        ensures { result ≡ record self { count = count } }
    {
        Timeout { count, ..self }
    }

    /// How the time is read and what follows, `IORING_TIMEOUT_` bits of `linux/io_uring.h`.
    pub fn flags(self, flags: TimeoutFlags) -> Timeout
        ensures { result ≡ record self { flags = flags } }
    {
        Timeout { flags, ..self }
    }

    /// The entry, on no descriptor.
    pub fn build(self) -> Entry
        ensures { result ≡ timeout_words self }
    {
        Entry {
            fd: -1,
            off: u64::from(self.count),
            addr: self.timespec,
            len: 1,
            op: self.flags.bits(),
            ..Entry::blank(Timeout::CODE)
        }
    }
}

/// Removes a timeout that waits. Its result is 0, or an errno below 0: `ENOENT` where there is
/// none. The field is what `new` was given.
#[derive(Drop)]
pub struct TimeoutRemove {
    pub user_data: u64,
}

impl TimeoutRemove {
    ghost use Rattle.uring_ops_file.specs.Rows.{new_timeout_remove, timeout_remove_words};

    /// `IORING_OP_TIMEOUT_REMOVE` of `linux/io_uring.h`.
    pub const CODE: u8 = opcodes::TIMEOUT_REMOVE;

    /// A removal of the timeout whose entry has this `user_data`.
    pub fn new(user_data: u64) -> TimeoutRemove
        ensures { result ≡ new_timeout_remove user_data }
    {
        TimeoutRemove { user_data }
    }

    /// The entry, on no descriptor.
    pub fn build(self) -> Entry
        ensures { result ≡ timeout_remove_words self }
    {
        Entry {
            fd: -1,
            addr: self.user_data,
            ..Entry::blank(TimeoutRemove::CODE)
        }
    }
}

/// Gives a timeout that waits another time. Its result is 0, or an errno below 0: `ENOENT` where
/// there is none. Each field is what `new` was given, or what the setter of its name was.
#[derive(Drop)]
pub struct TimeoutUpdate {
    pub user_data: u64,
    pub timespec: u64,
    pub flags: TimeoutFlags,
}

impl TimeoutUpdate {
    ghost use Rattle.uring_ops_file.specs.Rows.{new_timeout_update, timeout_update_words};

    /// `IORING_OP_TIMEOUT_REMOVE` of `linux/io_uring.h`.
    pub const CODE: u8 = opcodes::TIMEOUT_REMOVE;

    /// An update of the timeout whose entry has this `user_data`, to the time that the number
    /// `timespec` names.
    pub fn new(user_data: u64, timespec: u64) -> TimeoutUpdate
        ensures { result ≡ new_timeout_update user_data timespec }
    {
        TimeoutUpdate {
            user_data,
            timespec,
            flags: TimeoutFlags::empty(),
        }
    }

    /// How the time is read and what follows, `IORING_TIMEOUT_` bits of `linux/io_uring.h`.
    pub fn flags(self, flags: TimeoutFlags) -> TimeoutUpdate
        ensures { result ≡ record self { flags = flags } }
    {
        TimeoutUpdate { flags, ..self }
    }

    /// The entry, on no descriptor. `IORING_TIMEOUT_UPDATE` tells it from that of a
    /// `TimeoutRemove`.
    pub fn build(self) -> Entry
        ensures { result ≡ timeout_update_words self }
    {
        Entry {
            fd: -1,
            off: self.timespec,
            addr: self.user_data,
            op: self.flags.bits() | TIMEOUT_UPDATE,
            ..Entry::blank(TimeoutUpdate::CODE)
        }
    }
}

/// Bounds the time of the operation that is linked before it, which is canceled once the time is
/// over. Its result is an errno below 0: `ETIME` where the time came first. Each field is what
/// `new` was given, or what the setter of its name was.
#[derive(Drop)]
pub struct LinkTimeout {
    pub timespec: u64,
    pub flags: TimeoutFlags,
}

impl LinkTimeout {
    ghost use Rattle.uring_ops_file.specs.Rows.{new_link_timeout, link_timeout_words};

    /// `IORING_OP_LINK_TIMEOUT` of `linux/io_uring.h`.
    pub const CODE: u8 = opcodes::LINK_TIMEOUT;

    /// A bound of the time that the number `timespec` names.
    pub fn new(timespec: u64) -> LinkTimeout
        ensures { result ≡ new_link_timeout timespec }
    {
        LinkTimeout {
            timespec,
            flags: TimeoutFlags::empty(),
        }
    }

    /// How the time is read and what follows, `IORING_TIMEOUT_` bits of `linux/io_uring.h`.
    pub fn flags(self, flags: TimeoutFlags) -> LinkTimeout
        ensures { result ≡ record self { flags = flags } }
    {
        LinkTimeout { flags, ..self }
    }

    /// The entry, on no descriptor.
    pub fn build(self) -> Entry
        ensures { result ≡ link_timeout_words self }
    {
        Entry {
            fd: -1,
            addr: self.timespec,
            len: 1,
            op: self.flags.bits(),
            ..Entry::blank(LinkTimeout::CODE)
        }
    }
}
