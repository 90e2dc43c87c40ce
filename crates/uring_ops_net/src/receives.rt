//! Receives on sockets.

ghost use Rattle.std.specs.Prelude.{◌≡◌};

use crate::marks::{BUNDLE, RECV_MULTISHOT};
use uring_base::opcodes;
use uring_base::squeue::{Entry, Flags};
use uring_base::types::{Target, UseTarget};

/// Receives into one buffer, as `recv` does. Its result is a count of bytes, or an errno below 0.
/// Each field is what `new` was given, or what the setter of its name was.
#[derive(Drop)]
pub struct Recv {
    pub fd: Target,
    pub buf: u64,
    pub len: u32,
    pub ioprio: u16,
    pub flags: i32,
    pub buf_group: u16,
}

impl Recv {
    ghost use Rattle.uring_ops_net.specs.Rows.{new_recv, recv_words};

    /// `IORING_OP_RECV` of `linux/io_uring.h`.
    pub const CODE: u8 = opcodes::RECV;

    /// A Recv on the socket `fd` into the loan with the number `buf`, of `len` bytes at most.
    pub fn new<T: UseTarget>(fd: T, buf: u64, len: u32) -> Recv
        ensures { result ≡ new_recv (T.target_of fd) buf len }
    {
        Recv {
            fd: fd.target(),
            buf,
            len,
            ioprio: 0,
            flags: 0,
            buf_group: 0,
        }
    }

    /// Flags of the io_uring header, `IORING_RECVSEND_`.
    pub fn ioprio(self, ioprio: u16) -> Recv
        ensures { result ≡ record self { ioprio = ioprio } }
    {
        Recv { ioprio, ..self }
    }

    /// The flags of `recv`, `MSG_` of `linux/socket.h`.
    pub fn flags(self, flags: i32) -> Recv
        ensures { result ≡ record self { flags = flags } }
    {
        Recv { flags, ..self }
    }

    /// The group that a buffer is taken from, where the entry's flags have `BUFFER_SELECT`.
    pub fn buf_group(self, buf_group: u16) -> Recv
        ensures { result ≡ record self { buf_group = buf_group } }
    {
        Recv { buf_group, ..self }
    }

    /// The entry, as `linux/io_uring.h` lays it out. A registered file sets the flag `FIXED_FILE`
    /// in it.
    pub fn build(self) -> Entry
        ensures { result ≡ recv_words self }
    {
        Entry {
            prio: self.ioprio,
            addr: self.buf,
            len: self.len,
            op: self.flags.cast_unsigned(),
            buf: self.buf_group,
            ..Entry::blank(Recv::CODE)
        }
        .on(self.fd)
    }
}

/// Receives again and again, each time into a buffer of a group, until a completion comes that is
/// final. Each result is a count of bytes, or an errno below 0. Each field is what `new` was given,
/// or what the setter of its name was.
#[derive(Drop)]
pub struct RecvMulti {
    pub fd: Target,
    pub buf_group: u16,
    pub flags: i32,
    pub len: u32,
}

impl RecvMulti {
    ghost use Rattle.uring_ops_net.specs.Rows.{new_recv_multi, recv_multi_words};

    /// `IORING_OP_RECV` of `linux/io_uring.h`.
    pub const CODE: u8 = opcodes::RECV;

    /// A RecvMulti on the socket `fd` into buffers of the group `buf_group`.
    pub fn new<T: UseTarget>(fd: T, buf_group: u16) -> RecvMulti
        ensures { result ≡ new_recv_multi (T.target_of fd) buf_group }
    {
        RecvMulti {
            fd: fd.target(),
            buf_group,
            flags: 0,
            len: 0,
        }
    }

    /// The flags of `recv`, `MSG_` of `linux/socket.h`, without `MSG_WAITALL`.
    pub fn flags(self, flags: i32) -> RecvMulti
        ensures { result ≡ record self { flags = flags } }
    {
        RecvMulti { flags, ..self }
    }

    /// How many bytes to receive each time at most. 0 is a whole buffer.
    pub fn len(self, len: u32) -> RecvMulti
        ensures { result ≡ record self { len = len } }
    {
        RecvMulti { len, ..self }
    }

    /// The entry, as `linux/io_uring.h` lays it out, with the flag `BUFFER_SELECT`, and
    /// `FIXED_FILE` for a registered file.
    pub fn build(self) -> Entry
        ensures { result ≡ recv_multi_words self }
    {
        Entry {
            prio: RECV_MULTISHOT,
            len: self.len,
            op: self.flags.cast_unsigned(),
            buf: self.buf_group,
            ..Entry::blank(RecvMulti::CODE)
        }
        .flags(Flags::BUFFER_SELECT)
        .on(self.fd)
    }
}

/// Receives once, into as many buffers of a group as the bytes need. Its result is a count of
/// bytes, or an errno below 0. Each field is what `new` was given, or what the setter of its name
/// was.
#[derive(Drop)]
pub struct RecvBundle {
    pub fd: Target,
    pub buf_group: u16,
    pub flags: i32,
}

impl RecvBundle {
    ghost use Rattle.uring_ops_net.specs.Rows.{new_recv_bundle, recv_bundle_words};

    /// `IORING_OP_RECV` of `linux/io_uring.h`.
    pub const CODE: u8 = opcodes::RECV;

    /// A RecvBundle on the socket `fd` into buffers of the group `buf_group`.
    pub fn new<T: UseTarget>(fd: T, buf_group: u16) -> RecvBundle
        ensures { result ≡ new_recv_bundle (T.target_of fd) buf_group }
    {
        RecvBundle {
            fd: fd.target(),
            buf_group,
            flags: 0,
        }
    }

    /// The flags of `recv`, `MSG_` of `linux/socket.h`.
    pub fn flags(self, flags: i32) -> RecvBundle
        ensures { result ≡ record self { flags = flags } }
    {
        RecvBundle { flags, ..self }
    }

    /// The entry, as `linux/io_uring.h` lays it out, with the flag `BUFFER_SELECT`, and
    /// `FIXED_FILE` for a registered file.
    pub fn build(self) -> Entry
        ensures { result ≡ recv_bundle_words self }
    {
        Entry {
            prio: BUNDLE,
            op: self.flags.cast_unsigned(),
            buf: self.buf_group,
            ..Entry::blank(RecvBundle::CODE)
        }
        .flags(Flags::BUFFER_SELECT)
        .on(self.fd)
    }
}

/// Receives again and again, each time into as many buffers of a group as the bytes need, until a
/// completion comes that is final. Each result is a count of bytes, or an errno below 0. Each field
/// is what `new` was given, or what the setter of its name was.
#[derive(Drop)]
pub struct RecvMultiBundle {
    pub fd: Target,
    pub buf_group: u16,
    pub flags: i32,
}

impl RecvMultiBundle {
    ghost use Rattle.uring_ops_net.specs.Rows.{new_recv_multi_bundle, recv_multi_bundle_words};

    /// `IORING_OP_RECV` of `linux/io_uring.h`.
    pub const CODE: u8 = opcodes::RECV;

    /// A RecvMultiBundle on the socket `fd` into buffers of the group `buf_group`.
    pub fn new<T: UseTarget>(fd: T, buf_group: u16) -> RecvMultiBundle
        ensures { result ≡ new_recv_multi_bundle (T.target_of fd) buf_group }
    {
        RecvMultiBundle {
            fd: fd.target(),
            buf_group,
            flags: 0,
        }
    }

    /// The flags of `recv`, `MSG_` of `linux/socket.h`, without `MSG_WAITALL`.
    pub fn flags(self, flags: i32) -> RecvMultiBundle
        ensures { result ≡ record self { flags = flags } }
    {
        RecvMultiBundle { flags, ..self }
    }

    /// The entry, as `linux/io_uring.h` lays it out, with the flag `BUFFER_SELECT`, and
    /// `FIXED_FILE` for a registered file.
    pub fn build(self) -> Entry
        ensures { result ≡ recv_multi_bundle_words self }
    {
        Entry {
            prio: RECV_MULTISHOT | BUNDLE,
            op: self.flags.cast_unsigned(),
            buf: self.buf_group,
            ..Entry::blank(RecvMultiBundle::CODE)
        }
        .flags(Flags::BUFFER_SELECT)
        .on(self.fd)
    }
}

/// Receives again and again without a copy, from a registered queue of a network device, until a
/// completion comes that is final. Each result is a count of bytes, or an errno below 0. Each field
/// is what `new` was given, or what the setter of its name was.
#[derive(Drop)]
pub struct RecvZc {
    pub fd: Target,
    pub len: u32,
    pub ifq: u32,
    pub ioprio: u16,
}

impl RecvZc {
    ghost use Rattle.uring_ops_net.specs.Rows.{new_recv_zc, recv_zc_words};

    /// `IORING_OP_RECV_ZC` of `linux/io_uring.h`.
    pub const CODE: u8 = opcodes::RECV_ZC;

    /// A RecvZc on the socket `fd` of `len` bytes in all at most, where 0 is no limit.
    pub fn new<T: UseTarget>(fd: T, len: u32) -> RecvZc
        ensures { result ≡ new_recv_zc (T.target_of fd) len }
    {
        RecvZc {
            fd: fd.target(),
            len,
            ifq: 0,
            ioprio: 0,
        }
    }

    /// The number of the registered queue.
    pub fn ifq(self, ifq: u32) -> RecvZc
        ensures { result ≡ record self { ifq = ifq } }
    {
        RecvZc { ifq, ..self }
    }

    /// Flags of the io_uring header, `IORING_RECVSEND_`, to which `build` adds
    /// `IORING_RECV_MULTISHOT`.
    pub fn ioprio(self, ioprio: u16) -> RecvZc
        ensures { result ≡ record self { ioprio = ioprio } }
    {
        RecvZc { ioprio, ..self }
    }

    /// The entry, as `linux/io_uring.h` lays it out. A registered file sets the flag `FIXED_FILE`
    /// in it.
    pub fn build(self) -> Entry
        ensures { result ≡ recv_zc_words self }
    {
        Entry {
            prio: self.ioprio | RECV_MULTISHOT,
            len: self.len,
            idx: self.ifq,
            ..Entry::blank(RecvZc::CODE)
        }
        .on(self.fd)
    }
}
