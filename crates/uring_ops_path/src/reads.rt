//! Reads again and again, and into parts of a registered buffer.

ghost use Rattle.std.specs.Prelude.{◌≡◌};

use uring_base::opcodes;
use uring_base::squeue::{Entry, Flags};
use uring_base::types::{Target, UseTarget};

/// Reads again each time that there is something to read, into a buffer of a group each time. The
/// result of each completion is a count of bytes, or an errno below 0; all but the last have
/// `MORE`. Each field is what `new` was given, or what the setter of its name was.
#[derive(Drop)]
pub struct ReadMulti {
    pub fd: Target,
    pub len: u32,
    pub buf_group: u16,
    pub offset: u64,
}

impl ReadMulti {
    ghost use Rattle.uring_ops_path.specs.Rows.{new_read_multi, read_multi_words};

    /// `IORING_OP_READ_MULTISHOT` of `linux/io_uring.h`.
    pub const CODE: u8 = opcodes::READ_MULTISHOT;

    /// Reads from `fd` into buffers of the group `buf_group`, of `len` bytes at most each; 0 is the
    /// length of the buffer.
    pub fn new<T: UseTarget>(fd: T, len: u32, buf_group: u16) -> ReadMulti
        ensures { result ≡ new_read_multi (T.target_of fd) len buf_group }
    {
        ReadMulti {
            fd: fd.target(),
            len,
            buf_group,
            offset: 0,
        }
    }

    /// Where in the file to begin, in bytes. 2^64 - 1 is the file's current position for Linux.
    pub fn offset(self, offset: u64) -> ReadMulti
        ensures { result ≡ record self { offset = offset } }
    {
        ReadMulti { offset, ..self }
    }

    /// The entry. `BUFFER_SELECT` is its only flag: the mark of a registered file is lost, as in
    /// io-uring, so its index is taken for a descriptor.
    pub fn build(self) -> Entry
        ensures { result ≡ read_multi_words self }
    {
        Entry {
            off: self.offset,
            len: self.len,
            buf: self.buf_group,
            ..Entry::blank(ReadMulti::CODE)
        }
        .on(self.fd)
        .clear_flags()
        .flags(Flags::BUFFER_SELECT)
    }
}

/// Reads into several parts of a registered buffer, one filled after the other, as `preadv2` does.
/// Its result is a count of bytes, or an errno below 0. Each field is what `new` was given, or what
/// the setter of its name was.
#[derive(Drop)]
pub struct ReadvFixed {
    pub fd: Target,
    pub iovec: u64,
    pub len: u32,
    pub buf_index: u16,
    pub ioprio: u16,
    pub offset: u64,
    pub rw_flags: i32,
}

impl ReadvFixed {
    ghost use Rattle.uring_ops_path.specs.Rows.{new_readv_fixed, readv_fixed_words};

    /// `IORING_OP_READV_FIXED` of `linux/io_uring.h`.
    pub const CODE: u8 = opcodes::READV_FIXED;

    /// A ReadvFixed from the start of `fd` into the `len` parts that the list with the number
    /// `iovec` names, all within the registered buffer of the index `buf_index`.
    pub fn new<T: UseTarget>(fd: T, iovec: u64, len: u32, buf_index: u16) -> ReadvFixed
        ensures { result ≡ new_readv_fixed (T.target_of fd) iovec len buf_index }
    {
        ReadvFixed {
            fd: fd.target(),
            iovec,
            len,
            buf_index,
            ioprio: 0,
            offset: 0,
            rw_flags: 0,
        }
    }

    /// The priority, as `ioprio_set` takes it.
    pub fn ioprio(self, ioprio: u16) -> ReadvFixed
        ensures { result ≡ record self { ioprio = ioprio } }
    {
        ReadvFixed { ioprio, ..self }
    }

    /// Where in the file to begin, in bytes. 2^64 - 1 is the file's current position for Linux.
    pub fn offset(self, offset: u64) -> ReadvFixed
        ensures { result ≡ record self { offset = offset } }
    {
        ReadvFixed { offset, ..self }
    }

    /// The flags of this one read, `RWF_` for `preadv2`.
    pub fn rw_flags(self, rw_flags: i32) -> ReadvFixed
        ensures { result ≡ record self { rw_flags = rw_flags } }
    {
        ReadvFixed { rw_flags, ..self }
    }

    /// The entry. A registered file sets the flag `FIXED_FILE` in it.
    pub fn build(self) -> Entry
        ensures { result ≡ readv_fixed_words self }
    {
        Entry {
            prio: self.ioprio,
            off: self.offset,
            addr: self.iovec,
            len: self.len,
            op: self.rw_flags.cast_unsigned(),
            buf: self.buf_index,
            ..Entry::blank(ReadvFixed::CODE)
        }
        .on(self.fd)
    }
}
