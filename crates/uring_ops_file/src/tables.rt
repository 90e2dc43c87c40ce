//! The table of registered files.

ghost use Rattle.std.specs.Prelude.{◌≡◌};

use uring_base::opcodes;
use uring_base::squeue::Entry;

/// Puts other files into the table of registered files. Its result is how many it put in, or an
/// errno below 0. Each field is what `new` was given, or what the setter of its name was.
#[derive(Drop)]
pub struct FilesUpdate {
    pub fds: u64,
    pub len: u32,
    pub offset: i32,
}

impl FilesUpdate {
    ghost use Rattle.uring_ops_file.specs.Rows.{new_files_update, files_update_words};

    /// `IORING_OP_FILES_UPDATE` of `linux/io_uring.h`.
    pub const CODE: u8 = opcodes::FILES_UPDATE;

    /// An update of the first `len` places by the list of descriptors with the number `fds`.
    pub fn new(fds: u64, len: u32) -> FilesUpdate
        ensures { result ≡ new_files_update fds len }
    {
        FilesUpdate {
            fds,
            len,
            offset: 0,
        }
    }

    /// The first place to be changed, counted from 0. -1, `IORING_FILE_INDEX_ALLOC`, takes free
    /// places.
    pub fn offset(self, offset: i32) -> FilesUpdate
        ensures { result ≡ record self { offset = offset } }
    {
        FilesUpdate { offset, ..self }
    }

    /// The entry, on no descriptor.
    pub fn build(self) -> Entry
        ensures { result ≡ files_update_words self }
    {
        Entry {
            fd: -1,
            off: i64::from(self.offset).cast_unsigned(),
            addr: self.fds,
            len: self.len,
            ..Entry::blank(FilesUpdate::CODE)
        }
    }
}
