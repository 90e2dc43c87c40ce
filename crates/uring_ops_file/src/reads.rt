//! Reads of files.

ghost use Rattle.std.specs.Prelude.{◌≡◌};

use uring_base::opcodes;
use uring_base::squeue::Entry;
use uring_base::types::{Target, UseTarget};

/// Reads into several buffers, one filled after the other, as `preadv2` does. Its result is a count
/// of bytes, or an errno below 0. Each field is what `new` was given, or what the setter of its
/// name was.
#[derive(Drop)]
pub struct Readv {
    pub fd: Target,
    pub iovec: u64,
    pub len: u32,
    pub ioprio: u16,
    pub offset: u64,
    pub rw_flags: i32,
    pub buf_group: u16,
}

impl Readv {
    ghost use Rattle.uring_ops_file.specs.Rows.{new_readv, readv_words};

    /// `IORING_OP_READV` of `linux/io_uring.h`.
    pub const CODE: u8 = opcodes::READV;

    /// A Readv from the start of `fd` into the `len` buffers that the list with the number `iovec`
    /// names.
    pub fn new<T: UseTarget>(fd: T, iovec: u64, len: u32) -> Readv
        ensures { result ≡ new_readv (T.target_of fd) iovec len }
    {
        Readv {
            fd: fd.target(),
            iovec,
            len,
            ioprio: 0,
            offset: 0,
            rw_flags: 0,
            buf_group: 0,
        }
    }

    /// The priority, as `ioprio_set` takes it.
    pub fn ioprio(self, ioprio: u16) -> Readv
        ensures { result ≡ record self { ioprio = ioprio } }
    {
        Readv { ioprio, ..self }
    }

    /// Where in the file to begin, in bytes. 2^64 - 1 is the file's current position for Linux.
    pub fn offset(self, offset: u64) -> Readv
        ensures { result ≡ record self { offset = offset } }
    {
        Readv { offset, ..self }
    }

    /// The flags of this one read, `RWF_` for `preadv2`.
    pub fn rw_flags(self, rw_flags: i32) -> Readv
        ensures { result ≡ record self { rw_flags = rw_flags } }
    {
        Readv { rw_flags, ..self }
    }

    /// The group that a buffer is taken from, where the entry's flags have `BUFFER_SELECT`.
    pub fn buf_group(self, buf_group: u16) -> Readv
        ensures { result ≡ record self { buf_group = buf_group } }
    {
        Readv { buf_group, ..self }
    }

    /// The entry. A registered file sets the flag `FIXED_FILE` in it.
    pub fn build(self) -> Entry
        ensures { result ≡ readv_words self }
    {
        Entry {
            prio: self.ioprio,
            off: self.offset,
            addr: self.iovec,
            len: self.len,
            op: self.rw_flags.cast_unsigned(),
            buf: self.buf_group,
            ..Entry::blank(Readv::CODE)
        }
        .on(self.fd)
    }
}

/// Reads into a registered buffer, as `preadv2` does into one. Its result is a count of bytes, or
/// an errno below 0. Each field is what `new` was given, or what the setter of its name was.
#[derive(Drop)]
pub struct ReadFixed {
    pub fd: Target,
    pub buf: u64,
    pub len: u32,
    pub buf_index: u16,
    pub ioprio: u16,
    pub offset: u64,
    pub rw_flags: i32,
}

impl ReadFixed {
    ghost use Rattle.uring_ops_file.specs.Rows.{new_read_fixed, read_fixed_words};

    /// `IORING_OP_READ_FIXED` of `linux/io_uring.h`.
    pub const CODE: u8 = opcodes::READ_FIXED;

    /// A ReadFixed from the start of `fd` of `len` bytes at most, to the address `buf` within the
    /// registered buffer of the index `buf_index`.
    pub fn new<T: UseTarget>(fd: T, buf: u64, len: u32, buf_index: u16) -> ReadFixed
        ensures { result ≡ new_read_fixed (T.target_of fd) buf len buf_index }
    {
        ReadFixed {
            fd: fd.target(),
            buf,
            len,
            buf_index,
            ioprio: 0,
            offset: 0,
            rw_flags: 0,
        }
    }

    /// The priority, as `ioprio_set` takes it.
    pub fn ioprio(self, ioprio: u16) -> ReadFixed
        ensures { result ≡ record self { ioprio = ioprio } }
    {
        ReadFixed { ioprio, ..self }
    }

    /// Where in the file to begin, in bytes. 2^64 - 1 is the file's current position for Linux.
    pub fn offset(self, offset: u64) -> ReadFixed
        ensures { result ≡ record self { offset = offset } }
    {
        ReadFixed { offset, ..self }
    }

    /// The flags of this one read, `RWF_` for `preadv2`.
    pub fn rw_flags(self, rw_flags: i32) -> ReadFixed
        ensures { result ≡ record self { rw_flags = rw_flags } }
    {
        ReadFixed { rw_flags, ..self }
    }

    /// The entry. A registered file sets the flag `FIXED_FILE` in it.
    pub fn build(self) -> Entry
        ensures { result ≡ read_fixed_words self }
    {
        Entry {
            prio: self.ioprio,
            off: self.offset,
            addr: self.buf,
            len: self.len,
            op: self.rw_flags.cast_unsigned(),
            buf: self.buf_index,
            ..Entry::blank(ReadFixed::CODE)
        }
        .on(self.fd)
    }
}

/// Reads into one buffer, as `pread` does. Its result is a count of bytes, or an errno below 0.
/// Each field is what `new` was given, or what the setter of its name was.
#[derive(Drop)]
pub struct Read {
    pub fd: Target,
    pub buf: u64,
    pub len: u32,
    pub offset: u64,
    pub ioprio: u16,
    pub rw_flags: i32,
    pub buf_group: u16,
}

impl Read {
    ghost use Rattle.uring_ops_file.specs.Rows.{new_read, read_words};

    /// `IORING_OP_READ` of `linux/io_uring.h`.
    pub const CODE: u8 = opcodes::READ;

    /// A Read from the start of `fd` into the loan with the number `buf`, of `len` bytes at most.
    pub fn new<T: UseTarget>(fd: T, buf: u64, len: u32) -> Read
        ensures { result ≡ new_read (T.target_of fd) buf len }
    {
        Read {
            fd: fd.target(),
            buf,
            len,
            offset: 0,
            ioprio: 0,
            rw_flags: 0,
            buf_group: 0,
        }
    }

    /// Where in the file to begin, in bytes. 2^64 - 1 is the file's current position for Linux.
    pub fn offset(self, offset: u64) -> Read
        ensures { result ≡ record self { offset = offset } }
    {
        Read { offset, ..self }
    }

    /// The priority, as `ioprio_set` takes it.
    pub fn ioprio(self, ioprio: u16) -> Read
        ensures { result ≡ record self { ioprio = ioprio } }
    {
        Read { ioprio, ..self }
    }

    /// The flags of this one read, `RWF_` for `preadv2`.
    pub fn rw_flags(self, rw_flags: i32) -> Read
        ensures { result ≡ record self { rw_flags = rw_flags } }
    {
        Read { rw_flags, ..self }
    }

    /// The group that a buffer is taken from, where the entry's flags have `BUFFER_SELECT`.
    pub fn buf_group(self, buf_group: u16) -> Read
        ensures { result ≡ record self { buf_group = buf_group } }
    {
        Read { buf_group, ..self }
    }

    /// The entry. A registered file sets the flag `FIXED_FILE` in it.
    pub fn build(self) -> Entry
        ensures { result ≡ read_words self }
    {
        Entry {
            prio: self.ioprio,
            off: self.offset,
            addr: self.buf,
            len: self.len,
            op: self.rw_flags.cast_unsigned(),
            buf: self.buf_group,
            ..Entry::blank(Read::CODE)
        }
        .on(self.fd)
    }
}
