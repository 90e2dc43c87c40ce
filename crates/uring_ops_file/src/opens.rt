//! Openings and closings of files.

ghost use Rattle.std.specs.Prelude.{◌≡◌, ◌+◌};

use uring_base::opcodes;
use uring_base::squeue::Entry;
use uring_base::types::{Fd, Target, UseTarget};
use uring_types::DestinationSlot;

/// Opens a file, as `openat` does. Its result is a descriptor, 0 for a slot that was given, the
/// index of one that the partner chose, or an errno below 0. Each field is what `new` was given, or
/// what the setter of its name was.
#[derive(Drop)]
pub struct OpenAt {
    pub dirfd: Fd,
    pub pathname: u64,
    pub file_index: Option<DestinationSlot>,
    pub flags: i32,
    pub mode: u32,
}

impl OpenAt {
    ghost use Rattle.uring_ops_file.specs.Rows.{new_open_at, open_at_words};

    /// `IORING_OP_OPENAT` of `linux/io_uring.h`.
    pub const CODE: u8 = opcodes::OPENAT;

    /// An opening for reading of the file that the number `pathname` names, seen from the directory
    /// `dirfd`.
    pub fn new(dirfd: Fd, pathname: u64) -> OpenAt
        ensures { result ≡ new_open_at dirfd pathname }
    {
        OpenAt {
            dirfd,
            pathname,
            file_index: None,
            flags: 0,
            mode: 0,
        }
    }

    /// Where in the table of registered files the new file goes; without it, it gets a descriptor.
    pub fn file_index(self, file_index: Option<DestinationSlot>) -> OpenAt
        ensures { result ≡ record self { file_index = file_index } }
    {
        OpenAt { file_index, ..self }
    }

    /// How it is opened, `O_` bits of `fcntl.h`.
    pub fn flags(self, flags: i32) -> OpenAt
        ensures { result ≡ record self { flags = flags } }
    {
        OpenAt { flags, ..self }
    }

    /// The permissions of a new file, `S_I` bits of `linux/stat.h`.
    pub fn mode(self, mode: u32) -> OpenAt
        ensures { result ≡ record self { mode = mode } }
    {
        OpenAt { mode, ..self }
    }

    /// The entry, on the directory.
    pub fn build(self) -> Entry
        ensures { result ≡ open_at_words self }
    {
        Entry {
            fd: self.dirfd.0,
            addr: self.pathname,
            len: self.mode,
            op: self.flags.cast_unsigned(),
            idx: self.file_index.map_or(0, |slot| slot.kernel_index_arg()),
            ..Entry::blank(OpenAt::CODE)
        }
    }
}

/// Closes a descriptor, as `close` does, or takes a file out of the table of registered files. Its
/// result is 0, or an errno below 0. The fields are the two words that say which.
#[derive(Drop)]
pub struct Close {
    fd: i32,
    idx: u32,
}

impl Close {
    ghost use Rattle.uring_ops_file.specs.Rows.{CanClose, new_close, close_words};

    /// `IORING_OP_CLOSE` of `linux/io_uring.h`.
    pub const CODE: u8 = opcodes::CLOSE;

    /// A closing of `fd`. The greatest index can't be closed, since a registered file stands in the
    /// entry by its index plus 1.
    pub fn new<T: UseTarget>(fd: T) -> Close
        requires { CanClose (T.target_of fd) }
        ensures { result ≡ new_close (T.target_of fd) }
    {
        match fd.target() {
            Target::Fd(fd) => Close { fd, idx: 0 },
            Target::Fixed(index) => Close {
                fd: 0,
                idx: index + 1,
            },
        }
    }

    /// The entry. `FIXED_FILE` isn't set in it.
    pub fn build(self) -> Entry
        ensures { result ≡ close_words self }
    {
        Entry {
            fd: self.fd,
            idx: self.idx,
            ..Entry::blank(Close::CODE)
        }
    }
}
