//! Commands to files and devices.

ghost use Rattle.std.specs.Prelude.{◌≡◌};
ghost use Rattle.uring_base.specs.Words.{where_some};

use crate::marks::CMD_FIXED;
use uring_base::opcodes;
use uring_base::squeue::Entry;
use uring_base::types::{Target, UseTarget};
use uring_base::words::long_from;
use uring_large::squeue::Entry128;

/// A command of 16 bytes to a file or device, much as `ioctl`. Its result is that of the command,
/// or an errno below 0. Each field is what `new` was given, or what the setter of its name was.
#[derive(Drop)]
pub struct UringCmd16 {
    pub fd: Target,
    pub cmd_op: u32,
    pub buf_index: Option<u16>,
    pub cmd: [u8; 16],
    pub addr: Option<u64>,
}

impl UringCmd16 {
    ghost use Rattle.uring_ops_net.specs.Rows.{new_uring_cmd16, uring_cmd16_words};

    /// `IORING_OP_URING_CMD` of `linux/io_uring.h`.
    pub const CODE: u8 = opcodes::URING_CMD;

    /// A UringCmd16 to the file `fd`, with the code `cmd_op`.
    pub fn new<T: UseTarget>(fd: T, cmd_op: u32) -> UringCmd16
        ensures { result ≡ new_uring_cmd16 (T.target_of fd) cmd_op }
    {
        UringCmd16 {
            fd: fd.target(),
            cmd_op,
            buf_index: None,
            cmd: [0; 16],
            addr: None,
        }
    }

    /// The registered buffer that the command works on. Where it is given, `build` adds
    /// `IORING_URING_CMD_FIXED`.
    pub fn buf_index(self, buf_index: Option<u16>) -> UringCmd16
        ensures { result ≡ record self { buf_index = buf_index } }
    {
        UringCmd16 { buf_index, ..self }
    }

    /// The bytes of the command, whose meaning is that of the file or device.
    pub fn cmd(self, cmd: [u8; 16]) -> UringCmd16
        ensures { result ≡ record self { cmd = cmd } }
    {
        UringCmd16 { cmd, ..self }
    }

    /// An address, where the command takes one. None is 0.
    pub fn addr(self, addr: Option<u64>) -> UringCmd16
        ensures { result ≡ record self { addr = addr } }
    {
        UringCmd16 { addr, ..self }
    }

    /// The entry, as `linux/io_uring.h` lays it out. Its bytes 48 to 63 are the command. A
    /// registered file sets the flag `FIXED_FILE` in it.
    pub fn build(self) -> Entry
        ensures { result ≡ uring_cmd16_words self }
    {
        Entry {
            off: u64::from(self.cmd_op),
            addr: self.addr.unwrap_or(0),
            op: fixed_mark(self.buf_index),
            buf: self.buf_index.unwrap_or(0),
            third: long_from(&self.cmd, 0),
            fourth: long_from(&self.cmd, 8),
            ..Entry::blank(UringCmd16::CODE)
        }
        .on(self.fd)
    }
}

/// A command of 80 bytes to a file or device, much as `ioctl`, for a ring of large entries. Its
/// result is that of the command, or an errno below 0. Each field is what `new` was given, or what
/// the setter of its name was.
#[derive(Drop)]
pub struct UringCmd80 {
    pub fd: Target,
    pub cmd_op: u32,
    pub buf_index: Option<u16>,
    pub cmd: [u8; 80],
    pub addr: Option<u64>,
}

impl UringCmd80 {
    ghost use Rattle.uring_ops_net.specs.Rows.{new_uring_cmd80, uring_cmd80_words};

    /// `IORING_OP_URING_CMD` of `linux/io_uring.h`.
    pub const CODE: u8 = opcodes::URING_CMD;

    /// A UringCmd80 to the file `fd`, with the code `cmd_op`.
    pub fn new<T: UseTarget>(fd: T, cmd_op: u32) -> UringCmd80
        ensures { result ≡ new_uring_cmd80 (T.target_of fd) cmd_op }
    {
        UringCmd80 {
            fd: fd.target(),
            cmd_op,
            buf_index: None,
            cmd: [0; 80],
            addr: None,
        }
    }

    /// The registered buffer that the command works on. Where it is given, `build` adds
    /// `IORING_URING_CMD_FIXED`.
    pub fn buf_index(self, buf_index: Option<u16>) -> UringCmd80
        ensures { result ≡ record self { buf_index = buf_index } }
    {
        UringCmd80 { buf_index, ..self }
    }

    /// The bytes of the command, whose meaning is that of the file or device.
    pub fn cmd(self, cmd: [u8; 80]) -> UringCmd80
        ensures { result ≡ record self { cmd = cmd } }
    {
        UringCmd80 { cmd, ..self }
    }

    /// An address, where the command takes one. None is 0.
    pub fn addr(self, addr: Option<u64>) -> UringCmd80
        ensures { result ≡ record self { addr = addr } }
    {
        UringCmd80 { addr, ..self }
    }

    /// The large entry, as `linux/io_uring.h` lays it out. Its bytes 48 to 127 are the command. A
    /// registered file sets the flag `FIXED_FILE` in it.
    pub fn build(self) -> Entry128
        ensures { result ≡ uring_cmd80_words self }
    {
        let first: &[u8; 16] = self.cmd.first_chunk().unwrap();
        let rest: &[u8; 64] = self.cmd.last_chunk().unwrap();
        let small = UringCmd16 {
            fd: self.fd,
            cmd_op: self.cmd_op,
            buf_index: self.buf_index,
            cmd: *first,
            addr: self.addr,
        };
        Entry128 {
            entry: small.build(),
            big: *rest,
        }
    }
}

// The mark of a command that works on a registered buffer.
fn fixed_mark(buf_index: Option<u16>) -> u32
    ensures { result ≡ where_some buf_index CMD_FIXED }
{
    if buf_index.is_some() { CMD_FIXED } else { 0 }
}
