//! Writes from parts of a registered buffer.

ghost use Rattle.std.specs.Prelude.{◌≡◌};

use uring_base::opcodes;
use uring_base::squeue::Entry;
use uring_base::types::{Target, UseTarget};

/// Writes from several parts of a registered buffer, one after the other, as `pwritev2` does. Its
/// result is a count of bytes, or an errno below 0. Each field is what `new` was given, or what the
/// setter of its name was.
#[derive(Drop)]
pub struct WritevFixed {
    pub fd: Target,
    pub iovec: u64,
    pub len: u32,
    pub buf_index: u16,
    pub ioprio: u16,
    pub offset: u64,
    pub rw_flags: i32,
    pub write_stream: u8,
}

impl WritevFixed {
    ghost use Rattle.uring_ops_path.specs.Rows.{new_writev_fixed, writev_fixed_words};

    /// `IORING_OP_WRITEV_FIXED` of `linux/io_uring.h`.
    pub const CODE: u8 = opcodes::WRITEV_FIXED;

    /// A WritevFixed to the start of `fd` from the `len` parts that the list with the number
    /// `iovec` names, all within the registered buffer of the index `buf_index`.
    pub fn new<T: UseTarget>(fd: T, iovec: u64, len: u32, buf_index: u16) -> WritevFixed
        ensures { result ≡ new_writev_fixed (T.target_of fd) iovec len buf_index }
    {
        WritevFixed {
            fd: fd.target(),
            iovec,
            len,
            buf_index,
            ioprio: 0,
            offset: 0,
            rw_flags: 0,
            write_stream: 0,
        }
    }

    /// The priority, as `ioprio_set` takes it.
    pub fn ioprio(self, ioprio: u16) -> WritevFixed
        ensures { result ≡ record self { ioprio = ioprio } }
    {
        WritevFixed { ioprio, ..self }
    }

    /// Where in the file to begin, in bytes. 2^64 - 1 is the file's current position for Linux.
    pub fn offset(self, offset: u64) -> WritevFixed
        ensures { result ≡ record self { offset = offset } }
    {
        WritevFixed { offset, ..self }
    }

    /// The flags of this one write, `RWF_` for `pwritev2`.
    pub fn rw_flags(self, rw_flags: i32) -> WritevFixed
        ensures { result ≡ record self { rw_flags = rw_flags } }
    {
        WritevFixed { rw_flags, ..self }
    }

    /// The stream that a device sorts the write into; 0 is none.
    pub fn write_stream(self, write_stream: u8) -> WritevFixed
        ensures { result ≡ record self { write_stream = write_stream } }
    {
        WritevFixed {
            write_stream,
            ..self
        }
    }

    /// The entry. A registered file sets the flag `FIXED_FILE` in it.
    pub fn build(self) -> Entry
        ensures { result ≡ writev_fixed_words self }
    {
        Entry {
            prio: self.ioprio,
            off: self.offset,
            addr: self.iovec,
            len: self.len,
            op: self.rw_flags.cast_unsigned(),
            buf: self.buf_index,
            idx: u32::from(self.write_stream),
            ..Entry::blank(WritevFixed::CODE)
        }
        .on(self.fd)
    }
}
