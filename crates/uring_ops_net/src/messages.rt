//! Messages on sockets, which may carry an address.

ghost use Rattle.std.specs.Prelude.{◌≡◌};

use crate::marks::RECV_MULTISHOT;
use uring_base::opcodes;
use uring_base::squeue::{Entry, Flags};
use uring_base::types::{Target, UseTarget};

/// Sends a message, as `sendmsg` does. Its result is a count of bytes, or an errno below 0. Each
/// field is what `new` was given, or what the setter of its name was.
#[derive(Drop)]
pub struct SendMsg {
    pub fd: Target,
    pub msg: u64,
    pub ioprio: u16,
    pub flags: u32,
}

impl SendMsg {
    ghost use Rattle.uring_ops_net.specs.Rows.{new_send_msg, send_msg_words};

    /// `IORING_OP_SENDMSG` of `linux/io_uring.h`.
    pub const CODE: u8 = opcodes::SENDMSG;

    /// A SendMsg on the socket `fd` of the message in the loan with the number `msg`.
    pub fn new<T: UseTarget>(fd: T, msg: u64) -> SendMsg
        ensures { result ≡ new_send_msg (T.target_of fd) msg }
    {
        SendMsg {
            fd: fd.target(),
            msg,
            ioprio: 0,
            flags: 0,
        }
    }

    /// Flags of the io_uring header, `IORING_RECVSEND_`.
    pub fn ioprio(self, ioprio: u16) -> SendMsg
        ensures { result ≡ record self { ioprio = ioprio } }
    {
        SendMsg { ioprio, ..self }
    }

    /// The flags of `sendmsg`, `MSG_` of `linux/socket.h`.
    pub fn flags(self, flags: u32) -> SendMsg
        ensures { result ≡ record self { flags = flags } }
    {
        SendMsg { flags, ..self }
    }

    /// The entry, as `linux/io_uring.h` lays it out. A registered file sets the flag `FIXED_FILE`
    /// in it.
    pub fn build(self) -> Entry
        ensures { result ≡ send_msg_words self }
    {
        Entry {
            prio: self.ioprio,
            addr: self.msg,
            len: 1,
            op: self.flags,
            ..Entry::blank(SendMsg::CODE)
        }
        .on(self.fd)
    }
}

/// Receives a message, as `recvmsg` does. Its result is a count of bytes, or an errno below 0. Each
/// field is what `new` was given, or what the setter of its name was.
#[derive(Drop)]
pub struct RecvMsg {
    pub fd: Target,
    pub msg: u64,
    pub ioprio: u16,
    pub flags: u32,
    pub buf_group: u16,
}

impl RecvMsg {
    ghost use Rattle.uring_ops_net.specs.Rows.{new_recv_msg, recv_msg_words};

    /// `IORING_OP_RECVMSG` of `linux/io_uring.h`.
    pub const CODE: u8 = opcodes::RECVMSG;

    /// A RecvMsg on the socket `fd` into the loan with the number `msg`.
    pub fn new<T: UseTarget>(fd: T, msg: u64) -> RecvMsg
        ensures { result ≡ new_recv_msg (T.target_of fd) msg }
    {
        RecvMsg {
            fd: fd.target(),
            msg,
            ioprio: 0,
            flags: 0,
            buf_group: 0,
        }
    }

    /// Flags of the io_uring header, `IORING_RECVSEND_`.
    pub fn ioprio(self, ioprio: u16) -> RecvMsg
        ensures { result ≡ record self { ioprio = ioprio } }
    {
        RecvMsg { ioprio, ..self }
    }

    /// The flags of `recvmsg`, `MSG_` of `linux/socket.h`.
    pub fn flags(self, flags: u32) -> RecvMsg
        ensures { result ≡ record self { flags = flags } }
    {
        RecvMsg { flags, ..self }
    }

    /// The group that a buffer is taken from, where the entry's flags have `BUFFER_SELECT`.
    pub fn buf_group(self, buf_group: u16) -> RecvMsg
        ensures { result ≡ record self { buf_group = buf_group } }
    {
        RecvMsg { buf_group, ..self }
    }

    /// The entry, as `linux/io_uring.h` lays it out. A registered file sets the flag `FIXED_FILE`
    /// in it.
    pub fn build(self) -> Entry
        ensures { result ≡ recv_msg_words self }
    {
        Entry {
            prio: self.ioprio,
            addr: self.msg,
            len: 1,
            op: self.flags,
            buf: self.buf_group,
            ..Entry::blank(RecvMsg::CODE)
        }
        .on(self.fd)
    }
}

/// Receives messages again and again, each into a buffer of a group, until a completion comes that
/// is final. Each result is a count of bytes, or an errno below 0. Each field is what `new` was
/// given, or what the setter of its name was.
#[derive(Drop)]
pub struct RecvMsgMulti {
    pub fd: Target,
    pub msg: u64,
    pub buf_group: u16,
    pub ioprio: u16,
    pub flags: u32,
}

impl RecvMsgMulti {
    ghost use Rattle.uring_ops_net.specs.Rows.{new_recv_msg_multi, recv_msg_multi_words};

    /// `IORING_OP_RECVMSG` of `linux/io_uring.h`.
    pub const CODE: u8 = opcodes::RECVMSG;

    /// A RecvMsgMulti on the socket `fd` into buffers of the group `buf_group`, under the header in
    /// the loan with the number `msg`.
    pub fn new<T: UseTarget>(fd: T, msg: u64, buf_group: u16) -> RecvMsgMulti
        ensures { result ≡ new_recv_msg_multi (T.target_of fd) msg buf_group }
    {
        RecvMsgMulti {
            fd: fd.target(),
            msg,
            buf_group,
            ioprio: 0,
            flags: 0,
        }
    }

    /// Flags of the io_uring header, `IORING_RECVSEND_`, to which `build` adds
    /// `IORING_RECV_MULTISHOT`.
    pub fn ioprio(self, ioprio: u16) -> RecvMsgMulti
        ensures { result ≡ record self { ioprio = ioprio } }
    {
        RecvMsgMulti { ioprio, ..self }
    }

    /// The flags of `recvmsg`, `MSG_` of `linux/socket.h`, without `MSG_WAITALL`.
    pub fn flags(self, flags: u32) -> RecvMsgMulti
        ensures { result ≡ record self { flags = flags } }
    {
        RecvMsgMulti { flags, ..self }
    }

    /// The entry, as `linux/io_uring.h` lays it out, with the flag `BUFFER_SELECT`, and
    /// `FIXED_FILE` for a registered file.
    pub fn build(self) -> Entry
        ensures { result ≡ recv_msg_multi_words self }
    {
        Entry {
            prio: self.ioprio | RECV_MULTISHOT,
            addr: self.msg,
            len: 1,
            op: self.flags,
            buf: self.buf_group,
            ..Entry::blank(RecvMsgMulti::CODE)
        }
        .flags(Flags::BUFFER_SELECT)
        .on(self.fd)
    }
}

/// Sends a message without a copy, as `sendmsg` does. It may post twice: its result, which is a
/// count of bytes or an errno below 0, and a notice that the message is free. Each field is what
/// `new` was given, or what the setter of its name was.
#[derive(Drop)]
pub struct SendMsgZc {
    pub fd: Target,
    pub msg: u64,
    pub ioprio: u16,
    pub flags: u32,
}

impl SendMsgZc {
    ghost use Rattle.uring_ops_net.specs.Rows.{new_send_msg_zc, send_msg_zc_words};

    /// `IORING_OP_SENDMSG_ZC` of `linux/io_uring.h`.
    pub const CODE: u8 = opcodes::SENDMSG_ZC;

    /// A SendMsgZc on the socket `fd` of the message in the loan with the number `msg`.
    pub fn new<T: UseTarget>(fd: T, msg: u64) -> SendMsgZc
        ensures { result ≡ new_send_msg_zc (T.target_of fd) msg }
    {
        SendMsgZc {
            fd: fd.target(),
            msg,
            ioprio: 0,
            flags: 0,
        }
    }

    /// Flags of the io_uring header, `IORING_RECVSEND_`.
    pub fn ioprio(self, ioprio: u16) -> SendMsgZc
        ensures { result ≡ record self { ioprio = ioprio } }
    {
        SendMsgZc { ioprio, ..self }
    }

    /// The flags of `sendmsg`, `MSG_` of `linux/socket.h`.
    pub fn flags(self, flags: u32) -> SendMsgZc
        ensures { result ≡ record self { flags = flags } }
    {
        SendMsgZc { flags, ..self }
    }

    /// The entry, as `linux/io_uring.h` lays it out. A registered file sets the flag `FIXED_FILE`
    /// in it.
    pub fn build(self) -> Entry
        ensures { result ≡ send_msg_zc_words self }
    {
        Entry {
            prio: self.ioprio,
            addr: self.msg,
            len: 1,
            op: self.flags,
            ..Entry::blank(SendMsgZc::CODE)
        }
        .on(self.fd)
    }
}
