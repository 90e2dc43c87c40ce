//! Syncs of files to their device.

ghost use Rattle.std.specs.Prelude.{◌≡◌};

use bitflags::Flags as _;
use uring_base::opcodes;
use uring_base::squeue::Entry;
use uring_base::types::{FsyncFlags, Target, UseTarget};

/// Brings a file to its device, as `fsync` does. Its result is 0, or an errno below 0. Each field
/// is what `new` was given, or what the setter of its name was.
#[derive(Drop)]
pub struct Fsync {
    pub fd: Target,
    pub offset: u64,
    pub len: u32,
    pub flags: FsyncFlags,
}

impl Fsync {
    ghost use Rattle.uring_ops_file.specs.Rows.{new_fsync, fsync_words};

    /// `IORING_OP_FSYNC` of `linux/io_uring.h`.
    pub const CODE: u8 = opcodes::FSYNC;

    /// A sync of all that belongs to `fd`.
    pub fn new<T: UseTarget>(fd: T) -> Fsync
        ensures { result ≡ new_fsync (T.target_of fd) }
    {
        Fsync {
            fd: fd.target(),
            offset: 0,
            len: 0,
            flags: FsyncFlags::empty(),
        }
    }

    /// Where the range to sync begins, in bytes.
    pub fn offset(self, offset: u64) -> Fsync
        ensures { result ≡ record self { offset = offset } }
    {
        Fsync { offset, ..self }
    }

    /// The length of the range to sync, in bytes. 0 with the offset 0 is the whole file.
    pub fn len(self, len: u32) -> Fsync
        ensures { result ≡ record self { len = len } }
    {
        Fsync { len, ..self }
    }

    /// What of the file is synced, in place of what an earlier call said.
    pub fn flags(self, flags: FsyncFlags) -> Fsync
        ensures { result ≡ record self { flags = flags } }
    {
        Fsync { flags, ..self }
    }

    /// The entry. A registered file sets the flag `FIXED_FILE` in it.
    pub fn build(self) -> Entry
        ensures { result ≡ fsync_words self }
    {
        Entry {
            off: self.offset,
            len: self.len,
            op: self.flags.bits(),
            ..Entry::blank(Fsync::CODE)
        }
        .on(self.fd)
    }
}

/// Brings a range of a file's data to its device, as `sync_file_range` does. Its result is 0, or an
/// errno below 0. Each field is what `new` was given, or what the setter of its name was.
#[derive(Drop)]
pub struct SyncFileRange {
    pub fd: Target,
    pub len: u32,
    pub offset: u64,
    pub flags: u32,
}

impl SyncFileRange {
    ghost use Rattle.uring_ops_file.specs.Rows.{new_sync_file_range, sync_file_range_words};

    /// `IORING_OP_SYNC_FILE_RANGE` of `linux/io_uring.h`.
    pub const CODE: u8 = opcodes::SYNC_FILE_RANGE;

    /// A sync of the first `len` bytes of `fd`. 0 is up to the end of the file.
    pub fn new<T: UseTarget>(fd: T, len: u32) -> SyncFileRange
        ensures { result ≡ new_sync_file_range (T.target_of fd) len }
    {
        SyncFileRange {
            fd: fd.target(),
            len,
            offset: 0,
            flags: 0,
        }
    }

    /// Where the range begins, in bytes.
    pub fn offset(self, offset: u64) -> SyncFileRange
        ensures { result ≡ record self { offset = offset } }
    {
        SyncFileRange { offset, ..self }
    }

    /// Which steps to make and to wait for, `SYNC_FILE_RANGE_` bits of `linux/fs.h`.
    pub fn flags(self, flags: u32) -> SyncFileRange
        ensures { result ≡ record self { flags = flags } }
    {
        SyncFileRange { flags, ..self }
    }

    /// The entry. A registered file sets the flag `FIXED_FILE` in it.
    pub fn build(self) -> Entry
        ensures { result ≡ sync_file_range_words self }
    {
        Entry {
            off: self.offset,
            len: self.len,
            op: self.flags,
            ..Entry::blank(SyncFileRange::CODE)
        }
        .on(self.fd)
    }
}
