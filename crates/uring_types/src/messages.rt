//! A received message with its header.

ghost use Rattle.std.specs.Prelude.{◌≡◌, ◌+◌, ◌<◌, ◌↔◌, length, IfOk, IsErr, IsTrue};
ghost use Rattle.uring_base.specs.FlagBits.{has_bits};

use uring_base::words::word_from;

/// The flag of a message whose control data were cut, of `sys/socket.h`.
pub const MSG_CTRUNC: u32 = 8;

/// The flag of a message whose payload was cut, of `sys/socket.h`.
pub const MSG_TRUNC: u32 = 32;

/// How many bytes the header of a message has.
pub const MESSAGE_HEADER_LEN: usize = 16;

/// A message as it lies in a buffer that an operation received into: a header of four numbers of
/// 32 bits, a field for the sender's name, a field for control data, and the payload. The lengths
/// in the header are those of the message as it came, and may exceed what was kept.
#[derive(Clone, Copy)]
pub struct RecvMsgOut<'a> {
    name: &'a [u8],
    control: &'a [u8],
    payload: &'a [u8],
    name_room: u32,
    name_len: u32,
    control_len: u32,
    payload_len: u32,
    flags: u32,
}

impl<'a> RecvMsgOut<'a> {
    ghost use Rattle.uring_types.specs.Messages.{AreInOrder, IsMessage};

    /// The message in a buffer whose fields for the name and for control data have these lengths.
    /// It is refused where the buffer ends before the payload's place.
    pub fn parse(buffer: &'a [u8], name_len: u32, control_len: usize) -> Result<RecvMsgOut<'a>, ()>
        ensures refused { IsErr result ↔ (length buffer.now < MESSAGE_HEADER_LEN + name_len + control_len) }
        ensures parts { IfOk result (λ message. IsMessage buffer.now name_len control_len message) }
        ensures places { IfOk result (λ _. AreInOrder buffer.now name_len control_len) }
    {
        let control_start = MESSAGE_HEADER_LEN + name_len as usize;
        if buffer.len() < control_start || buffer.len() - control_start < control_len {
            return Err(());
        }
        let payload_start = control_start + control_len;
        let name_word = word_from(buffer, 0);
        let control_word = word_from(buffer, 4);
        let payload_word = word_from(buffer, 8);
        let name_end = MESSAGE_HEADER_LEN + name_word.min(name_len) as usize;
        let control_end = control_start + (control_word as usize).min(control_len);
        let payload_end = payload_start + (payload_word as usize).min(buffer.len() - payload_start);
        Ok(RecvMsgOut {
            name: &buffer[MESSAGE_HEADER_LEN..name_end],
            control: &buffer[control_start..control_end],
            payload: &buffer[payload_start..payload_end],
            name_room: name_len,
            name_len: name_word,
            control_len: control_word,
            payload_len: payload_word,
            flags: word_from(buffer, 12),
        })
    }

    /// The length of the sender's name as it came.
    pub fn incoming_name_len(&self) -> u32
        ensures { result ≡ self.now.name_len }
    {
        self.name_len
    }

    /// The length of the control data as they came.
    pub fn incoming_control_len(&self) -> u32
        ensures { result ≡ self.now.control_len }
    {
        self.control_len
    }

    /// The length of the payload as it came.
    pub fn incoming_payload_len(&self) -> u32
        ensures { result ≡ self.now.payload_len }
    {
        self.payload_len
    }

    /// The message's flags, as `recvmsg` tells them.
    pub fn flags(&self) -> u32
        ensures { result ≡ self.now.flags }
    {
        self.flags
    }

    /// The sender's name, as much of it as was kept.
    pub fn name_data(&self) -> &[u8]
        ensures { result.now ≡ self.now.name.now }
    {
        self.name
    }

    /// The control data, as much of them as were kept.
    pub fn control_data(&self) -> &[u8]
        ensures { result.now ≡ self.now.control.now }
    {
        self.control
    }

    /// The payload, as much of it as was kept.
    pub fn payload_data(&self) -> &[u8]
        ensures { result.now ≡ self.now.payload.now }
    {
        self.payload
    }

    /// Whether the name was longer than its field.
    pub fn is_name_data_truncated(&self) -> bool
        ensures { IsTrue result ↔ (self.now.name_room < self.now.name_len) }
    {
        self.name_len > self.name_room
    }

    /// Whether control data were cut, as the message's flags say (`MSG_CTRUNC`).
    pub fn is_control_data_truncated(&self) -> bool
        ensures { result ≡ has_bits self.now.flags MSG_CTRUNC }
    {
        self.flags & MSG_CTRUNC == MSG_CTRUNC
    }

    /// Whether the payload was cut, as the message's flags say (`MSG_TRUNC`).
    pub fn is_payload_truncated(&self) -> bool
        ensures { result ≡ has_bits self.now.flags MSG_TRUNC }
    {
        self.flags & MSG_TRUNC == MSG_TRUNC
    }
}
