//! The room of files.

ghost use Rattle.std.specs.Prelude.{◌≡◌};

use uring_base::opcodes;
use uring_base::squeue::Entry;
use uring_base::types::{Target, UseTarget};

/// Reserves room for a file, or gives it back, as `fallocate` does. Its result is 0, or an errno
/// below 0. Each field is what `new` was given, or what the setter of its name was.
#[derive(Drop)]
pub struct Fallocate {
    pub fd: Target,
    pub len: u64,
    pub offset: u64,
    pub mode: i32,
}

impl Fallocate {
    ghost use Rattle.uring_ops_file.specs.Rows.{new_fallocate, fallocate_words};

    /// `IORING_OP_FALLOCATE` of `linux/io_uring.h`.
    pub const CODE: u8 = opcodes::FALLOCATE;

    /// A reservation of the first `len` bytes of `fd`.
    pub fn new<T: UseTarget>(fd: T, len: u64) -> Fallocate
        ensures { result ≡ new_fallocate (T.target_of fd) len }
    {
        Fallocate {
            fd: fd.target(),
            len,
            offset: 0,
            mode: 0,
        }
    }

    /// Where the range begins, in bytes.
    pub fn offset(self, offset: u64) -> Fallocate
        ensures { result ≡ record self { offset = offset } }
    {
        Fallocate { offset, ..self }
    }

    /// What is done with the range, `FALLOC_FL_` bits of `linux/falloc.h`.
    pub fn mode(self, mode: i32) -> Fallocate
        ensures { result ≡ record self { mode = mode } }
    {
        Fallocate { mode, ..self }
    }

    /// The entry. A registered file sets the flag `FIXED_FILE` in it.
    pub fn build(self) -> Entry
        ensures { result ≡ fallocate_words self }
    {
        Entry {
            off: self.offset,
            addr: self.len,
            len: self.mode.cast_unsigned(),
            ..Entry::blank(Fallocate::CODE)
        }
        .on(self.fd)
    }
}

/// Gives a file another length, as `ftruncate` does: it is cut, or filled up with zeros. Its result
/// is 0, or an errno below 0. Each field is what `new` was given.
#[derive(Drop)]
pub struct Ftruncate {
    pub fd: Target,
    pub len: u64,
}

impl Ftruncate {
    ghost use Rattle.uring_ops_file.specs.Rows.{new_ftruncate, ftruncate_words};

    /// `IORING_OP_FTRUNCATE` of `linux/io_uring.h`.
    pub const CODE: u8 = opcodes::FTRUNCATE;

    /// `fd` gets a length of `len` bytes.
    pub fn new<T: UseTarget>(fd: T, len: u64) -> Ftruncate
        ensures { result ≡ new_ftruncate (T.target_of fd) len }
    {
        Ftruncate {
            fd: fd.target(),
            len,
        }
    }

    /// The entry. A registered file sets the flag `FIXED_FILE` in it.
    pub fn build(self) -> Entry
        ensures { result ≡ ftruncate_words self }
    {
        Entry {
            off: self.len,
            ..Entry::blank(Ftruncate::CODE)
        }
        .on(self.fd)
    }
}
