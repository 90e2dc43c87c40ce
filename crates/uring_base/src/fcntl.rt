//! The flags of Linux that name files and open them (`fcntl.h`).

/// Of an access mode: the file is read.
pub const O_RDONLY: u32 = 0;
/// Of an access mode: the file is written.
pub const O_WRONLY: u32 = 1;
/// Of an access mode: the file is read and written.
pub const O_RDWR: u32 = 2;
/// The bits of an access mode.
pub const O_ACCMODE: u32 = 3;
/// A file that isn't there is made.
pub const O_CREAT: u32 = 0o100;
/// With `O_CREAT`: the file must not be there.
pub const O_EXCL: u32 = 0o200;
/// A file that is there is emptied.
pub const O_TRUNC: u32 = 0o1000;
/// What is written goes behind the end.
pub const O_APPEND: u32 = 0o2000;
/// The file isn't handed on to another program.
pub const O_CLOEXEC: u32 = 0o2000000;

/// In the place of a directory: the current one.
pub const AT_FDCWD: i32 = -100;
/// A symbolic link isn't followed.
pub const AT_SYMLINK_NOFOLLOW: u32 = 0x100;
/// A directory is removed, and no file.
pub const AT_REMOVEDIR: u32 = 0x200;
/// An empty path is the file of the number that stands in the place of a directory.
pub const AT_EMPTY_PATH: u32 = 0x1000;
