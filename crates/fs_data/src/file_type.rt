//! Kinds of files.

ghost use Rattle.std.specs.Prelude.{◌≡◌, ◌==◌, bit_and};
ghost use Rattle.uring_base.specs.declared.stat.TheConstants.{S_IFBLK, S_IFCHR, S_IFDIR, S_IFIFO, S_IFLNK, S_IFMT, S_IFREG, S_IFSOCK};

use std::fmt::{self, Debug, Formatter, Write};
use uring_base::stat::{S_IFBLK, S_IFCHR, S_IFDIR, S_IFIFO, S_IFLNK, S_IFMT, S_IFREG, S_IFSOCK};

/// The kind of a file: those bits of its mode that `S_IFMT` of `stat.h` masks.
#[derive(Clone, Copy, PartialEq, Eq)]
pub struct FileType {
    kind: u32,
}

impl FileType {
    ghost use Rattle.fs_data.specs.Kinds.{kind_of};

    /// The kind that a mode tells.
    pub fn of_mode(mode: u32) -> FileType
        ensures { kind_of result ≡ bit_and mode S_IFMT }
    {
        FileType {
            kind: mode & S_IFMT,
        }
    }

    /// Whether it is a directory.
    pub fn is_dir(&self) -> bool
        ensures { result ≡ (kind_of self.now == S_IFDIR) }
    {
        self.kind == S_IFDIR
    }

    /// Whether it is a regular file.
    pub fn is_file(&self) -> bool
        ensures { result ≡ (kind_of self.now == S_IFREG) }
    {
        self.kind == S_IFREG
    }

    /// Whether it is a symbolic link.
    pub fn is_symlink(&self) -> bool
        ensures { result ≡ (kind_of self.now == S_IFLNK) }
    {
        self.kind == S_IFLNK
    }

    /// Whether it is a block device.
    pub fn is_block_device(&self) -> bool
        ensures { result ≡ (kind_of self.now == S_IFBLK) }
    {
        self.kind == S_IFBLK
    }

    /// Whether it is a character device.
    pub fn is_char_device(&self) -> bool
        ensures { result ≡ (kind_of self.now == S_IFCHR) }
    {
        self.kind == S_IFCHR
    }

    /// Whether it is a pipe with a name.
    pub fn is_fifo(&self) -> bool
        ensures { result ≡ (kind_of self.now == S_IFIFO) }
    {
        self.kind == S_IFIFO
    }

    /// Whether it is a socket.
    pub fn is_socket(&self) -> bool
        ensures { result ≡ (kind_of self.now == S_IFSOCK) }
    {
        self.kind == S_IFSOCK
    }
}

/// The first three kinds by their truth values, as std writes it.
impl Debug for FileType {
    fn fmt<W: Write>(&self, f: &mut Formatter<W>) -> fmt::Result {
        f.debug_struct("FileType")
            .field("is_file", &self.is_file())
            .field("is_dir", &self.is_dir())
            .field("is_symlink", &self.is_symlink())
            .finish_non_exhaustive()
    }
}
