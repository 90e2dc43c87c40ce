//! Accepts of connections.

ghost use Rattle.std.specs.Prelude.{◌≡◌};

use crate::marks::ACCEPT_MULTISHOT;
use crate::slots::slot_word;
use uring_base::opcodes;
use uring_base::squeue::Entry;
use uring_base::types::{Target, UseTarget};
use uring_types::DestinationSlot;

/// Accepts a connection, as `accept4` does. Its result is the new socket's number, 0 where it went
/// into a slot, or an errno below 0. Each field is what `new` was given, or what the setter of its
/// name was.
#[derive(Drop)]
pub struct Accept {
    pub fd: Target,
    pub addr: u64,
    pub addrlen: u64,
    pub file_index: Option<DestinationSlot>,
    pub flags: i32,
}

impl Accept {
    ghost use Rattle.uring_ops_net.specs.Rows.{new_accept, accept_words};

    /// `IORING_OP_ACCEPT` of `linux/io_uring.h`.
    pub const CODE: u8 = opcodes::ACCEPT;

    /// An Accept on the listener `fd`. The peer's address goes to `addr` and its length to
    /// `addrlen`, where 0 is nowhere.
    pub fn new<T: UseTarget>(fd: T, addr: u64, addrlen: u64) -> Accept
        ensures { result ≡ new_accept (T.target_of fd) addr addrlen }
    {
        Accept {
            fd: fd.target(),
            addr,
            addrlen,
            file_index: None,
            flags: 0,
        }
    }

    /// The slot of a registered file that the new socket goes into. None gives it a descriptor.
    pub fn file_index(self, file_index: Option<DestinationSlot>) -> Accept
        ensures { result ≡ record self { file_index = file_index } }
    {
        Accept { file_index, ..self }
    }

    /// The flags of `accept4`, `SOCK_` of `linux/net.h`.
    pub fn flags(self, flags: i32) -> Accept
        ensures { result ≡ record self { flags = flags } }
    {
        Accept { flags, ..self }
    }

    /// The entry, as `linux/io_uring.h` lays it out. A registered file sets the flag `FIXED_FILE`
    /// in it.
    pub fn build(self) -> Entry
        ensures { result ≡ accept_words self }
    {
        Entry {
            off: self.addrlen,
            addr: self.addr,
            op: self.flags.cast_unsigned(),
            idx: slot_word(self.file_index),
            ..Entry::blank(Accept::CODE)
        }
        .on(self.fd)
    }
}

/// Accepts connections again and again, until a completion comes that is final. Each result is a
/// new socket's number, or an errno below 0. Each field is what `new` was given, or what the setter
/// of its name was.
#[derive(Drop)]
pub struct AcceptMulti {
    pub fd: Target,
    pub allocate_file_index: bool,
    pub flags: i32,
}

impl AcceptMulti {
    ghost use Rattle.uring_ops_net.specs.Rows.{new_accept_multi, accept_multi_words};

    /// `IORING_OP_ACCEPT` of `linux/io_uring.h`.
    pub const CODE: u8 = opcodes::ACCEPT;

    /// An AcceptMulti on the listener `fd`.
    pub fn new<T: UseTarget>(fd: T) -> AcceptMulti
        ensures { result ≡ new_accept_multi (T.target_of fd) }
    {
        AcceptMulti {
            fd: fd.target(),
            allocate_file_index: false,
            flags: 0,
        }
    }

    /// Whether each new socket goes into a slot that the partner chooses. Else it gets a
    /// descriptor.
    pub fn allocate_file_index(self, allocate_file_index: bool) -> AcceptMulti
        ensures { result ≡ record self { allocate_file_index = allocate_file_index } }
    {
        AcceptMulti {
            allocate_file_index,
            ..self
        }
    }

    /// The flags of `accept4`, `SOCK_` of `linux/net.h`.
    pub fn flags(self, flags: i32) -> AcceptMulti
        ensures { result ≡ record self { flags = flags } }
    {
        AcceptMulti { flags, ..self }
    }

    /// The entry, as `linux/io_uring.h` lays it out. A registered file sets the flag `FIXED_FILE`
    /// in it.
    pub fn build(self) -> Entry
        ensures { result ≡ accept_multi_words self }
    {
        let slot = self.allocate_file_index.then(DestinationSlot::auto_target);
        Entry {
            prio: ACCEPT_MULTISHOT,
            op: self.flags.cast_unsigned(),
            idx: slot_word(slot),
            ..Entry::blank(AcceptMulti::CODE)
        }
        .on(self.fd)
    }
}
