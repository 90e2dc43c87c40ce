//! Openings of files.

ghost use Rattle.std.specs.Prelude.{◌≡◌};

use crate::marks::OPEN_HOW_SIZE;
use uring_base::opcodes;
use uring_base::squeue::Entry;
use uring_base::types::Fd;
use uring_types::DestinationSlot;

/// Opens a file, as `openat2` does. Its result is a descriptor, 0 for a slot that was given, the
/// index of one that the partner chose, or an errno below 0. Each field is what `new` was given, or
/// what the setter of its name was.
#[derive(Drop)]
pub struct OpenAt2 {
    pub dirfd: Fd,
    pub pathname: u64,
    pub how: u64,
    pub file_index: Option<DestinationSlot>,
}

impl OpenAt2 {
    ghost use Rattle.uring_ops_path.specs.Rows.{new_open_at2, open_at2_words};

    /// `IORING_OP_OPENAT2` of `linux/io_uring.h`.
    pub const CODE: u8 = opcodes::OPENAT2;

    /// An opening of the file that the number `pathname` names, seen from the directory `dirfd`, in
    /// the way that the record with the number `how` says: an `open_how` of `linux/openat2.h`.
    pub fn new(dirfd: Fd, pathname: u64, how: u64) -> OpenAt2
        ensures { result ≡ new_open_at2 dirfd pathname how }
    {
        OpenAt2 {
            dirfd,
            pathname,
            how,
            file_index: None,
        }
    }

    /// Where in the table of registered files the new file goes; without it, it gets a descriptor.
    pub fn file_index(self, file_index: Option<DestinationSlot>) -> OpenAt2
        ensures { result ≡ record self { file_index = file_index } }
    {
        OpenAt2 { file_index, ..self }
    }

    /// The entry, on the directory. Its length is that of the record.
    pub fn build(self) -> Entry
        ensures { result ≡ open_at2_words self }
    {
        Entry {
            fd: self.dirfd.0,
            off: self.how,
            addr: self.pathname,
            len: OPEN_HOW_SIZE,
            idx: self.file_index.map_or(0, |slot| slot.kernel_index_arg()),
            ..Entry::blank(OpenAt2::CODE)
        }
    }
}
