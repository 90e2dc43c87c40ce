//! Messages from one ring to another.

ghost use Rattle.std.specs.Prelude.{◌≡◌};

use crate::marks::{FLAGS_PASS, SEND_FD};
use uring_base::opcodes;
use uring_base::squeue::Entry;
use uring_base::types::{Fd, Fixed};
use uring_types::DestinationSlot;

/// Posts a completion in another ring. Its own result is 0, or an errno below 0. Each field is what
/// `new` was given, or what the setter of its name was.
#[derive(Drop)]
pub struct MsgRingData {
    pub ring_fd: Fd,
    pub res: i32,
    pub user_data: u64,
    pub user_flags: Option<u32>,
    pub opcode_flags: u32,
}

impl MsgRingData {
    ghost use Rattle.uring_ops_net.specs.Rows.{new_msg_ring_data, msg_ring_data_words};

    /// `IORING_OP_MSG_RING` of `linux/io_uring.h`.
    pub const CODE: u8 = opcodes::MSG_RING;

    /// A MsgRingData to the ring `ring_fd`, whose completion gets the result `res`, this
    /// `user_data` and, where they are given, these flags.
    pub fn new(ring_fd: Fd, res: i32, user_data: u64, user_flags: Option<u32>) -> MsgRingData
        ensures { result ≡ new_msg_ring_data ring_fd res user_data user_flags }
    {
        MsgRingData {
            ring_fd,
            res,
            user_data,
            user_flags,
            opcode_flags: 0,
        }
    }

    /// Flags of the io_uring header, `IORING_MSG_RING_`. Where `user_flags` are given, `build` adds
    /// `IORING_MSG_RING_FLAGS_PASS`.
    pub fn opcode_flags(self, opcode_flags: u32) -> MsgRingData
        ensures { result ≡ record self { opcode_flags = opcode_flags } }
    {
        MsgRingData {
            opcode_flags,
            ..self
        }
    }

    /// The entry, as `linux/io_uring.h` lays it out. Its address word is `IORING_MSG_DATA`, which
    /// is 0.
    pub fn build(self) -> Entry
        ensures { result ≡ msg_ring_data_words self }
    {
        let pass = if self.user_flags.is_some() {
            FLAGS_PASS
        } else {
            0
        };
        Entry {
            fd: self.ring_fd.0,
            off: self.user_data,
            len: self.res.cast_unsigned(),
            op: self.opcode_flags | pass,
            idx: self.user_flags.unwrap_or(0),
            ..Entry::blank(MsgRingData::CODE)
        }
    }
}

/// Puts a registered file of this ring into a slot of another ring, and posts a completion there.
/// Its own result is 0 or a slot, or an errno below 0. Each field is what `new` was given, or what
/// the setter of its name was.
#[derive(Drop)]
pub struct MsgRingSendFd {
    pub ring_fd: Fd,
    pub fixed_slot_src: Fixed,
    pub dest_slot_index: DestinationSlot,
    pub user_data: u64,
    pub opcode_flags: u32,
}

impl MsgRingSendFd {
    ghost use Rattle.uring_ops_net.specs.Rows.{new_msg_ring_send_fd, msg_ring_send_fd_words};

    /// `IORING_OP_MSG_RING` of `linux/io_uring.h`.
    pub const CODE: u8 = opcodes::MSG_RING;

    /// A MsgRingSendFd of the file `fixed_slot_src` to a slot of the ring `ring_fd`, whose
    /// completion gets this `user_data`.
    pub fn new(
        ring_fd: Fd,
        fixed_slot_src: Fixed,
        dest_slot_index: DestinationSlot,
        user_data: u64,
    ) -> MsgRingSendFd
        ensures { result ≡ new_msg_ring_send_fd ring_fd fixed_slot_src dest_slot_index user_data }
    {
        MsgRingSendFd {
            ring_fd,
            fixed_slot_src,
            dest_slot_index,
            user_data,
            opcode_flags: 0,
        }
    }

    /// Flags of the io_uring header, `IORING_MSG_RING_`.
    pub fn opcode_flags(self, opcode_flags: u32) -> MsgRingSendFd
        ensures { result ≡ record self { opcode_flags = opcode_flags } }
    {
        MsgRingSendFd {
            opcode_flags,
            ..self
        }
    }

    /// The entry, as `linux/io_uring.h` lays it out.
    pub fn build(self) -> Entry
        ensures { result ≡ msg_ring_send_fd_words self }
    {
        Entry {
            fd: self.ring_fd.0,
            off: self.user_data,
            addr: SEND_FD,
            op: self.opcode_flags,
            idx: self.dest_slot_index.kernel_index_arg(),
            third: u64::from(self.fixed_slot_src.0),
            ..Entry::blank(MsgRingSendFd::CODE)
        }
    }
}
