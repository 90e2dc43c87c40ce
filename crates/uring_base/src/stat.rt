//! The modes of files and the masks of their metadata in Linux (`stat.h`).

/// The bits of a mode that tell the kind.
pub const S_IFMT: u32 = 0o170000;
/// A socket.
pub const S_IFSOCK: u32 = 0o140000;
/// A symbolic link.
pub const S_IFLNK: u32 = 0o120000;
/// A regular file.
pub const S_IFREG: u32 = 0o100000;
/// A block device.
pub const S_IFBLK: u32 = 0o060000;
/// A directory.
pub const S_IFDIR: u32 = 0o040000;
/// A character device.
pub const S_IFCHR: u32 = 0o020000;
/// A pipe with a name.
pub const S_IFIFO: u32 = 0o010000;
/// The bits of a mode that tell who may read, write and execute.
pub const S_PERMISSIONS: u32 = 0o777;
/// Who may write: the owner, the group or others.
pub const S_WRITE: u32 = 0o222;

/// All metadata that are common, and the time of birth (`STATX_ALL`).
pub const STATX_ALL: u32 = 0xfff;
/// The time of birth is told.
pub const STATX_BTIME: u32 = 0x800;
