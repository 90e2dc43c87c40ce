//! Writes to files.

ghost use Rattle.std.specs.Prelude.{◌≡◌};

use uring_base::opcodes;
use uring_base::squeue::Entry;
use uring_base::types::{Target, UseTarget};

/// Writes from several buffers, one after the other, as `pwritev2` does. Its result is a count of
/// bytes, or an errno below 0. Each field is what `new` was given, or what the setter of its name
/// was.
#[derive(Drop)]
pub struct Writev {
    pub fd: Target,
    pub iovec: u64,
    pub len: u32,
    pub ioprio: u16,
    pub offset: u64,
    pub rw_flags: i32,
    pub write_stream: u8,
}

impl Writev {
    ghost use Rattle.uring_ops_file.specs.Rows.{new_writev, writev_words};

    /// `IORING_OP_WRITEV` of `linux/io_uring.h`.
    pub const CODE: u8 = opcodes::WRITEV;

    /// A Writev to the start of `fd` from the `len` buffers that the list with the number `iovec`
    /// names.
    pub fn new<T: UseTarget>(fd: T, iovec: u64, len: u32) -> Writev
        ensures { result ≡ new_writev (T.target_of fd) iovec len }
    {
        Writev {
            fd: fd.target(),
            iovec,
            len,
            ioprio: 0,
            offset: 0,
            rw_flags: 0,
            write_stream: 0,
        }
    }

    /// The priority, as `ioprio_set` takes it.
    pub fn ioprio(self, ioprio: u16) -> Writev
        ensures { result ≡ record self { ioprio = ioprio } }
    {
        Writev { ioprio, ..self }
    }

    /// Where in the file to begin, in bytes. 2^64 - 1 is the file's current position for Linux.
    pub fn offset(self, offset: u64) -> Writev
        ensures { result ≡ record self { offset = offset } }
    {
        Writev { offset, ..self }
    }

    /// The flags of this one write, `RWF_` for `pwritev2`.
    pub fn rw_flags(self, rw_flags: i32) -> Writev
        ensures { result ≡ record self { rw_flags = rw_flags } }
    {
        Writev { rw_flags, ..self }
    }

    /// The stream that a device sorts the write into; 0 is none.
    pub fn write_stream(self, write_stream: u8) -> Writev
        ensures { result ≡ record self { write_stream = write_stream } }
    {
        Writev {
            write_stream,
            ..self
        }
    }

    /// The entry. A registered file sets the flag `FIXED_FILE` in it.
    pub fn build(self) -> Entry
        ensures { result ≡ writev_words self }
    {
        Entry {
            prio: self.ioprio,
            off: self.offset,
            addr: self.iovec,
            len: self.len,
            op: self.rw_flags.cast_unsigned(),
            idx: u32::from(self.write_stream),
            ..Entry::blank(Writev::CODE)
        }
        .on(self.fd)
    }
}

/// Writes from a registered buffer, as `pwritev2` does from one. Its result is a count of bytes, or
/// an errno below 0. Each field is what `new` was given, or what the setter of its name was.
#[derive(Drop)]
pub struct WriteFixed {
    pub fd: Target,
    pub buf: u64,
    pub len: u32,
    pub buf_index: u16,
    pub ioprio: u16,
    pub offset: u64,
    pub rw_flags: i32,
    pub write_stream: u8,
}

impl WriteFixed {
    ghost use Rattle.uring_ops_file.specs.Rows.{new_write_fixed, write_fixed_words};

    /// `IORING_OP_WRITE_FIXED` of `linux/io_uring.h`.
    pub const CODE: u8 = opcodes::WRITE_FIXED;

    /// A WriteFixed to the start of `fd` of `len` bytes at most, from the address `buf` within the
    /// registered buffer of the index `buf_index`.
    pub fn new<T: UseTarget>(fd: T, buf: u64, len: u32, buf_index: u16) -> WriteFixed
        ensures { result ≡ new_write_fixed (T.target_of fd) buf len buf_index }
    {
        WriteFixed {
            fd: fd.target(),
            buf,
            len,
            buf_index,
            ioprio: 0,
            offset: 0,
            rw_flags: 0,
            write_stream: 0,
        }
    }

    /// The priority, as `ioprio_set` takes it.
    pub fn ioprio(self, ioprio: u16) -> WriteFixed
        ensures { result ≡ record self { ioprio = ioprio } }
    {
        WriteFixed { ioprio, ..self }
    }

    /// Where in the file to begin, in bytes. 2^64 - 1 is the file's current position for Linux.
    pub fn offset(self, offset: u64) -> WriteFixed
        ensures { result ≡ record self { offset = offset } }
    {
        WriteFixed { offset, ..self }
    }

    /// The flags of this one write, `RWF_` for `pwritev2`.
    pub fn rw_flags(self, rw_flags: i32) -> WriteFixed
        ensures { result ≡ record self { rw_flags = rw_flags } }
    {
        WriteFixed { rw_flags, ..self }
    }

    /// The stream that a device sorts the write into; 0 is none.
    pub fn write_stream(self, write_stream: u8) -> WriteFixed
        ensures { result ≡ record self { write_stream = write_stream } }
    {
        WriteFixed {
            write_stream,
            ..self
        }
    }

    /// The entry. A registered file sets the flag `FIXED_FILE` in it.
    pub fn build(self) -> Entry
        ensures { result ≡ write_fixed_words self }
    {
        Entry {
            prio: self.ioprio,
            off: self.offset,
            addr: self.buf,
            len: self.len,
            op: self.rw_flags.cast_unsigned(),
            buf: self.buf_index,
            idx: u32::from(self.write_stream),
            ..Entry::blank(WriteFixed::CODE)
        }
        .on(self.fd)
    }
}

/// Writes from one buffer, as `pwrite` does. Its result is a count of bytes, or an errno below 0.
/// Each field is what `new` was given, or what the setter of its name was.
#[derive(Drop)]
pub struct Write {
    pub fd: Target,
    pub buf: u64,
    pub len: u32,
    pub offset: u64,
    pub ioprio: u16,
    pub rw_flags: i32,
    pub write_stream: u8,
}

impl Write {
    ghost use Rattle.uring_ops_file.specs.Rows.{new_write, write_words};

    /// `IORING_OP_WRITE` of `linux/io_uring.h`.
    pub const CODE: u8 = opcodes::WRITE;

    /// A Write to the start of `fd` from the loan with the number `buf`, of `len` bytes at most.
    pub fn new<T: UseTarget>(fd: T, buf: u64, len: u32) -> Write
        ensures { result ≡ new_write (T.target_of fd) buf len }
    {
        Write {
            fd: fd.target(),
            buf,
            len,
            offset: 0,
            ioprio: 0,
            rw_flags: 0,
            write_stream: 0,
        }
    }

    /// Where in the file to begin, in bytes. 2^64 - 1 is the file's current position for Linux.
    pub fn offset(self, offset: u64) -> Write
        ensures { result ≡ record self { offset = offset } }
    {
        Write { offset, ..self }
    }

    /// The priority, as `ioprio_set` takes it.
    pub fn ioprio(self, ioprio: u16) -> Write
        ensures { result ≡ record self { ioprio = ioprio } }
    {
        Write { ioprio, ..self }
    }

    /// The flags of this one write, `RWF_` for `pwritev2`.
    pub fn rw_flags(self, rw_flags: i32) -> Write
        ensures { result ≡ record self { rw_flags = rw_flags } }
    {
        Write { rw_flags, ..self }
    }

    /// The stream that a device sorts the write into; 0 is none.
    pub fn write_stream(self, write_stream: u8) -> Write
        ensures { result ≡ record self { write_stream = write_stream } }
    {
        Write {
            write_stream,
            ..self
        }
    }

    /// The entry. A registered file sets the flag `FIXED_FILE` in it.
    pub fn build(self) -> Entry
        ensures { result ≡ write_words self }
    {
        Entry {
            prio: self.ioprio,
            off: self.offset,
            addr: self.buf,
            len: self.len,
            op: self.rw_flags.cast_unsigned(),
            idx: u32::from(self.write_stream),
            ..Entry::blank(Write::CODE)
        }
        .on(self.fd)
    }
}
