//! Sends on sockets.

ghost use Rattle.std.specs.Prelude.{◌≡◌, ◌≤◌};

use crate::marks::{BUNDLE, FIXED_BUF};
use uring_base::opcodes;
use uring_base::squeue::{Entry, Flags};
use uring_base::types::{Target, UseTarget};

/// Sends from one buffer, as `send` does, or as `sendto` where an address is set. Its result is a
/// count of bytes, or an errno below 0. Each field is what `new` was given, or what the setter of
/// its name was. `dest_addr_len` has the 16 bits of its word.
#[derive(Drop)]
pub struct Send {
    pub fd: Target,
    pub buf: u64,
    pub len: u32,
    pub ioprio: u16,
    pub flags: i32,
    pub dest_addr: u64,
    pub dest_addr_len: u16,
}

impl Send {
    ghost use Rattle.uring_ops_net.specs.Rows.{new_send, send_words};

    /// `IORING_OP_SEND` of `linux/io_uring.h`.
    pub const CODE: u8 = opcodes::SEND;

    /// A Send on the socket `fd` from the loan with the number `buf`, of `len` bytes at most.
    pub fn new<T: UseTarget>(fd: T, buf: u64, len: u32) -> Send
        ensures { result ≡ new_send (T.target_of fd) buf len }
    {
        Send {
            fd: fd.target(),
            buf,
            len,
            ioprio: 0,
            flags: 0,
            dest_addr: 0,
            dest_addr_len: 0,
        }
    }

    /// Flags of the io_uring header, `IORING_RECVSEND_`.
    pub fn ioprio(self, ioprio: u16) -> Send
        ensures { result ≡ record self { ioprio = ioprio } }
    {
        Send { ioprio, ..self }
    }

    /// The flags of `send`, `MSG_` of `linux/socket.h`.
    pub fn flags(self, flags: i32) -> Send
        ensures { result ≡ record self { flags = flags } }
    {
        Send { flags, ..self }
    }

    /// Where the address of the receiver is, for a socket without a peer. 0 is none.
    pub fn dest_addr(self, dest_addr: u64) -> Send
        ensures { result ≡ record self { dest_addr = dest_addr } }
    {
        Send { dest_addr, ..self }
    }

    /// The length of that address in bytes, which must fit 16 bits.
    pub fn dest_addr_len(self, dest_addr_len: u32) -> Send
        requires { dest_addr_len ≤ u16.MAX }
        ensures { result ≡ record self { dest_addr_len = dest_addr_len } }
    {
        Send {
            dest_addr_len: dest_addr_len as u16,
            ..self
        }
    }

    /// The entry, as `linux/io_uring.h` lays it out. A registered file sets the flag `FIXED_FILE`
    /// in it.
    pub fn build(self) -> Entry
        ensures { result ≡ send_words self }
    {
        Entry {
            prio: self.ioprio,
            off: self.dest_addr,
            addr: self.buf,
            len: self.len,
            op: self.flags.cast_unsigned(),
            idx: u32::from(self.dest_addr_len),
            ..Entry::blank(Send::CODE)
        }
        .on(self.fd)
    }
}

/// Sends from the buffers of a group, one after the other, in one request. Its result is a count of
/// bytes, or an errno below 0. Each field is what `new` was given, or what the setter of its name
/// was.
#[derive(Drop)]
pub struct SendBundle {
    pub fd: Target,
    pub buf_group: u16,
    pub flags: i32,
    pub len: u32,
}

impl SendBundle {
    ghost use Rattle.uring_ops_net.specs.Rows.{new_send_bundle, send_bundle_words};

    /// `IORING_OP_SEND` of `linux/io_uring.h`.
    pub const CODE: u8 = opcodes::SEND;

    /// A SendBundle on the socket `fd` from the buffers of the group `buf_group`.
    pub fn new<T: UseTarget>(fd: T, buf_group: u16) -> SendBundle
        ensures { result ≡ new_send_bundle (T.target_of fd) buf_group }
    {
        SendBundle {
            fd: fd.target(),
            buf_group,
            flags: 0,
            len: 0,
        }
    }

    /// The flags of `send`, `MSG_` of `linux/socket.h`.
    pub fn flags(self, flags: i32) -> SendBundle
        ensures { result ≡ record self { flags = flags } }
    {
        SendBundle { flags, ..self }
    }

    /// How many bytes to send at most. 0 is all that the group has.
    pub fn len(self, len: u32) -> SendBundle
        ensures { result ≡ record self { len = len } }
    {
        SendBundle { len, ..self }
    }

    /// The entry, as `linux/io_uring.h` lays it out, with the flag `BUFFER_SELECT`, and
    /// `FIXED_FILE` for a registered file.
    pub fn build(self) -> Entry
        ensures { result ≡ send_bundle_words self }
    {
        Entry {
            prio: BUNDLE,
            len: self.len,
            op: self.flags.cast_unsigned(),
            buf: self.buf_group,
            ..Entry::blank(SendBundle::CODE)
        }
        .flags(Flags::BUFFER_SELECT)
        .on(self.fd)
    }
}

/// Sends from one buffer without a copy, as `send` does, or as `sendto` where an address is set. It
/// may post twice: its result, which is a count of bytes or an errno below 0, and a notice that the
/// buffer is free. Each field is what `new` was given, or what the setter of its name was.
/// `dest_addr_len` has the 16 bits of its word.
#[derive(Drop)]
pub struct SendZc {
    pub fd: Target,
    pub buf: u64,
    pub len: u32,
    pub buf_index: Option<u16>,
    pub dest_addr: u64,
    pub dest_addr_len: u16,
    pub flags: i32,
    pub zc_flags: u16,
}

impl SendZc {
    ghost use Rattle.uring_ops_net.specs.Rows.{new_send_zc, send_zc_words};

    /// `IORING_OP_SEND_ZC` of `linux/io_uring.h`.
    pub const CODE: u8 = opcodes::SEND_ZC;

    /// A SendZc on the socket `fd` from the loan with the number `buf`, of `len` bytes at most.
    pub fn new<T: UseTarget>(fd: T, buf: u64, len: u32) -> SendZc
        ensures { result ≡ new_send_zc (T.target_of fd) buf len }
    {
        SendZc {
            fd: fd.target(),
            buf,
            len,
            buf_index: None,
            dest_addr: 0,
            dest_addr_len: 0,
            flags: 0,
            zc_flags: 0,
        }
    }

    /// The registered buffer that the bytes lie in. Where it is given, `build` adds
    /// `IORING_RECVSEND_FIXED_BUF`.
    pub fn buf_index(self, buf_index: Option<u16>) -> SendZc
        ensures { result ≡ record self { buf_index = buf_index } }
    {
        SendZc { buf_index, ..self }
    }

    /// Where the address of the receiver is, for a socket without a peer. 0 is none.
    pub fn dest_addr(self, dest_addr: u64) -> SendZc
        ensures { result ≡ record self { dest_addr = dest_addr } }
    {
        SendZc { dest_addr, ..self }
    }

    /// The length of that address in bytes, which must fit 16 bits.
    pub fn dest_addr_len(self, dest_addr_len: u32) -> SendZc
        requires { dest_addr_len ≤ u16.MAX }
        ensures { result ≡ record self { dest_addr_len = dest_addr_len } }
    {
        SendZc {
            dest_addr_len: dest_addr_len as u16,
            ..self
        }
    }

    /// The flags of `send`, `MSG_` of `linux/socket.h`.
    pub fn flags(self, flags: i32) -> SendZc
        ensures { result ≡ record self { flags = flags } }
    {
        SendZc { flags, ..self }
    }

    /// Flags of the io_uring header, `IORING_RECVSEND_` and `IORING_SEND_ZC_`.
    pub fn zc_flags(self, zc_flags: u16) -> SendZc
        ensures { result ≡ record self { zc_flags = zc_flags } }
    {
        SendZc { zc_flags, ..self }
    }

    /// The entry, as `linux/io_uring.h` lays it out. A registered file sets the flag `FIXED_FILE`
    /// in it.
    pub fn build(self) -> Entry
        ensures { result ≡ send_zc_words self }
    {
        let fixed = if self.buf_index.is_some() {
            FIXED_BUF
        } else {
            0
        };
        Entry {
            prio: self.zc_flags | fixed,
            off: self.dest_addr,
            addr: self.buf,
            len: self.len,
            op: self.flags.cast_unsigned(),
            buf: self.buf_index.unwrap_or(0),
            idx: u32::from(self.dest_addr_len),
            ..Entry::blank(SendZc::CODE)
        }
        .on(self.fd)
    }
}
