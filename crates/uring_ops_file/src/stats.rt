//! What files are.

ghost use Rattle.std.specs.Prelude.{◌≡◌};

use uring_base::opcodes;
use uring_base::squeue::Entry;
use uring_base::types::Fd;

/// Tells what a file is, as `statx` does. Its result is 0, or an errno below 0. Each field is what
/// `new` was given, or what the setter of its name was.
#[derive(Drop)]
pub struct Statx {
    pub dirfd: Fd,
    pub pathname: u64,
    pub statxbuf: u64,
    pub flags: i32,
    pub mask: u32,
}

impl Statx {
    ghost use Rattle.uring_ops_file.specs.Rows.{new_statx, statx_words};

    /// `IORING_OP_STATX` of `linux/io_uring.h`.
    pub const CODE: u8 = opcodes::STATX;

    /// A question about the file that the number `pathname` names, seen from the directory `dirfd`.
    /// The answer is written to the record with the number `statxbuf`.
    pub fn new(dirfd: Fd, pathname: u64, statxbuf: u64) -> Statx
        ensures { result ≡ new_statx dirfd pathname statxbuf }
    {
        Statx {
            dirfd,
            pathname,
            statxbuf,
            flags: 0,
            mask: 0,
        }
    }

    /// How the path is followed, `AT_` bits of `fcntl.h`.
    pub fn flags(self, flags: i32) -> Statx
        ensures { result ≡ record self { flags = flags } }
    {
        Statx { flags, ..self }
    }

    /// What is asked for, `STATX_` bits of `linux/stat.h`.
    pub fn mask(self, mask: u32) -> Statx
        ensures { result ≡ record self { mask = mask } }
    {
        Statx { mask, ..self }
    }

    /// The entry, on the directory.
    pub fn build(self) -> Entry
        ensures { result ≡ statx_words self }
    {
        Entry {
            fd: self.dirfd.0,
            off: self.statxbuf,
            addr: self.pathname,
            len: self.mask,
            op: self.flags.cast_unsigned(),
            ..Entry::blank(Statx::CODE)
        }
    }
}
