//! Advice on how files and memory are going to be used.

ghost use Rattle.std.specs.Prelude.{◌≡◌, ◌≤ℤ◌, pos};

use uring_base::opcodes;
use uring_base::squeue::Entry;
use uring_base::types::{Target, UseTarget};

/// Tells how a range of a file is going to be used, as `posix_fadvise` does. Its result is 0, or an
/// errno below 0. Each field is what `new` was given, or what the setter of its name was.
#[derive(Drop)]
pub struct Fadvise {
    pub fd: Target,
    pub len: u32,
    pub advice: i32,
    pub offset: u64,
}

impl Fadvise {
    ghost use Rattle.uring_ops_path.specs.Rows.{new_fadvise, fadvise_words};

    /// `IORING_OP_FADVISE` of `linux/io_uring.h`.
    pub const CODE: u8 = opcodes::FADVISE;

    /// An advice on the first `len` bytes of `fd`, `POSIX_FADV_` of `fcntl.h`. The word for the
    /// length has 32 bits; 0 is up to the end of the file.
    pub fn new<T: UseTarget>(fd: T, len: i64, advice: i32) -> Fadvise
        requires not_negative { pos 0 ≤ℤ len }
        requires fits_word { len ≤ℤ pos u32.MAX }
        ensures { result ≡ new_fadvise (T.target_of fd) len advice }
    {
        Fadvise {
            fd: fd.target(),
            len: len as u32,
            advice,
            offset: 0,
        }
    }

    /// Where the range begins, in bytes.
    pub fn offset(self, offset: u64) -> Fadvise
        ensures { result ≡ record self { offset = offset } }
    {
        Fadvise { offset, ..self }
    }

    /// The entry. A registered file sets the flag `FIXED_FILE` in it.
    pub fn build(self) -> Entry
        ensures { result ≡ fadvise_words self }
    {
        Entry {
            off: self.offset,
            len: self.len,
            op: self.advice.cast_unsigned(),
            ..Entry::blank(Fadvise::CODE)
        }
        .on(self.fd)
    }
}

/// Tells how a range of memory is going to be used, as `madvise` does. Its result is 0, or an errno
/// below 0. Each field is what `new` was given.
#[derive(Drop)]
pub struct Madvise {
    pub addr: u64,
    pub len: u32,
    pub advice: i32,
}

impl Madvise {
    ghost use Rattle.uring_ops_path.specs.Rows.{new_madvise, madvise_words};

    /// `IORING_OP_MADVISE` of `linux/io_uring.h`.
    pub const CODE: u8 = opcodes::MADVISE;

    /// An advice on the `len` bytes from the address `addr` on, `MADV_` of `sys/mman.h`. The word
    /// for the length has 32 bits.
    pub fn new(addr: u64, len: i64, advice: i32) -> Madvise
        requires not_negative { pos 0 ≤ℤ len }
        requires fits_word { len ≤ℤ pos u32.MAX }
        ensures { result ≡ new_madvise addr len advice }
    {
        Madvise {
            addr,
            len: len as u32,
            advice,
        }
    }

    /// The entry, on no descriptor.
    pub fn build(self) -> Entry
        ensures { result ≡ madvise_words self }
    {
        Entry {
            fd: -1,
            addr: self.addr,
            len: self.len,
            op: self.advice.cast_unsigned(),
            ..Entry::blank(Madvise::CODE)
        }
    }
}
