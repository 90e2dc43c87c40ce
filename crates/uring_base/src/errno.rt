//! The error numbers of Linux (`errno.h`) that operations answer. A result tells one as a number
//! below 0: `-ENOENT`.

/// There is no such file, directory or operation.
pub const ENOENT: i32 = 2;
/// The call was interrupted.
pub const EINTR: i32 = 4;
/// Input or output failed.
pub const EIO: i32 = 5;
/// No file has this number.
pub const EBADF: i32 = 9;
/// The name is taken.
pub const EEXIST: i32 = 17;
/// A part of the path is no directory.
pub const ENOTDIR: i32 = 20;
/// The file is a directory.
pub const EISDIR: i32 = 21;
/// An argument makes no sense.
pub const EINVAL: i32 = 22;
/// No more files can be open.
pub const EMFILE: i32 = 24;
/// The file would become too long.
pub const EFBIG: i32 = 27;
/// The directory isn't empty.
pub const ENOTEMPTY: i32 = 39;
/// The operation isn't served.
pub const EOPNOTSUPP: i32 = 95;
/// The operation was canceled.
pub const ECANCELED: i32 = 125;
