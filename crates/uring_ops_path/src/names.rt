//! Names of files and directories.

ghost use Rattle.std.specs.Prelude.{◌≡◌};

use uring_base::opcodes;
use uring_base::squeue::Entry;
use uring_base::types::Fd;

/// Gives a file another name or place, as `renameat2` does. Its result is 0, or an errno below 0.
/// Each field is what `new` was given, or what the setter of its name was.
#[derive(Drop)]
pub struct RenameAt {
    pub olddirfd: Fd,
    pub oldpath: u64,
    pub newdirfd: Fd,
    pub newpath: u64,
    pub flags: u32,
}

impl RenameAt {
    ghost use Rattle.uring_ops_path.specs.Rows.{new_rename_at, rename_at_words};

    /// `IORING_OP_RENAMEAT` of `linux/io_uring.h`.
    pub const CODE: u8 = opcodes::RENAMEAT;

    /// The file that the number `oldpath` names, seen from `olddirfd`, gets the name with the
    /// number `newpath`, seen from `newdirfd`.
    pub fn new(olddirfd: Fd, oldpath: u64, newdirfd: Fd, newpath: u64) -> RenameAt
        ensures { result ≡ new_rename_at olddirfd oldpath newdirfd newpath }
    {
        RenameAt {
            olddirfd,
            oldpath,
            newdirfd,
            newpath,
            flags: 0,
        }
    }

    /// What happens with a file of the new name, `RENAME_` bits of `linux/fs.h`.
    pub fn flags(self, flags: u32) -> RenameAt
        ensures { result ≡ record self { flags = flags } }
    {
        RenameAt { flags, ..self }
    }

    /// The entry, on the old directory.
    pub fn build(self) -> Entry
        ensures { result ≡ rename_at_words self }
    {
        Entry {
            fd: self.olddirfd.0,
            off: self.newpath,
            addr: self.oldpath,
            len: self.newdirfd.0.cast_unsigned(),
            op: self.flags,
            ..Entry::blank(RenameAt::CODE)
        }
    }
}

/// Takes a name out of its directory, as `unlinkat` does. Its result is 0, or an errno below 0.
/// Each field is what `new` was given, or what the setter of its name was.
#[derive(Drop)]
pub struct UnlinkAt {
    pub dirfd: Fd,
    pub pathname: u64,
    pub flags: i32,
}

impl UnlinkAt {
    ghost use Rattle.uring_ops_path.specs.Rows.{new_unlink_at, unlink_at_words};

    /// `IORING_OP_UNLINKAT` of `linux/io_uring.h`.
    pub const CODE: u8 = opcodes::UNLINKAT;

    /// A removal of the name with the number `pathname`, seen from the directory `dirfd`.
    pub fn new(dirfd: Fd, pathname: u64) -> UnlinkAt
        ensures { result ≡ new_unlink_at dirfd pathname }
    {
        UnlinkAt {
            dirfd,
            pathname,
            flags: 0,
        }
    }

    /// Whether the name is that of a directory, `AT_REMOVEDIR` of `fcntl.h`.
    pub fn flags(self, flags: i32) -> UnlinkAt
        ensures { result ≡ record self { flags = flags } }
    {
        UnlinkAt { flags, ..self }
    }

    /// The entry, on the directory.
    pub fn build(self) -> Entry
        ensures { result ≡ unlink_at_words self }
    {
        Entry {
            fd: self.dirfd.0,
            addr: self.pathname,
            op: self.flags.cast_unsigned(),
            ..Entry::blank(UnlinkAt::CODE)
        }
    }
}

/// Makes a directory, as `mkdirat` does. Its result is 0, or an errno below 0. Each field is what
/// `new` was given, or what the setter of its name was.
#[derive(Drop)]
pub struct MkDirAt {
    pub dirfd: Fd,
    pub pathname: u64,
    pub mode: u32,
}

impl MkDirAt {
    ghost use Rattle.uring_ops_path.specs.Rows.{new_mk_dir_at, mk_dir_at_words};

    /// `IORING_OP_MKDIRAT` of `linux/io_uring.h`.
    pub const CODE: u8 = opcodes::MKDIRAT;

    /// A directory gets the name with the number `pathname`, seen from the directory `dirfd`.
    pub fn new(dirfd: Fd, pathname: u64) -> MkDirAt
        ensures { result ≡ new_mk_dir_at dirfd pathname }
    {
        MkDirAt {
            dirfd,
            pathname,
            mode: 0,
        }
    }

    /// The permissions of the new directory, `S_I` bits of `linux/stat.h`.
    pub fn mode(self, mode: u32) -> MkDirAt
        ensures { result ≡ record self { mode = mode } }
    {
        MkDirAt { mode, ..self }
    }

    /// The entry, on the directory.
    pub fn build(self) -> Entry
        ensures { result ≡ mk_dir_at_words self }
    {
        Entry {
            fd: self.dirfd.0,
            addr: self.pathname,
            len: self.mode,
            ..Entry::blank(MkDirAt::CODE)
        }
    }
}

/// Makes a symbolic link, as `symlinkat` does. Its result is 0, or an errno below 0. Each field is
/// what `new` was given.
#[derive(Drop)]
pub struct SymlinkAt {
    pub newdirfd: Fd,
    pub target: u64,
    pub linkpath: u64,
}

impl SymlinkAt {
    ghost use Rattle.uring_ops_path.specs.Rows.{new_symlink_at, symlink_at_words};

    /// `IORING_OP_SYMLINKAT` of `linux/io_uring.h`.
    pub const CODE: u8 = opcodes::SYMLINKAT;

    /// A link to the path with the number `target` gets the name with the number `linkpath`, seen
    /// from the directory `newdirfd`.
    pub fn new(newdirfd: Fd, target: u64, linkpath: u64) -> SymlinkAt
        ensures { result ≡ new_symlink_at newdirfd target linkpath }
    {
        SymlinkAt {
            newdirfd,
            target,
            linkpath,
        }
    }

    /// The entry, on the directory.
    pub fn build(self) -> Entry
        ensures { result ≡ symlink_at_words self }
    {
        Entry {
            fd: self.newdirfd.0,
            off: self.linkpath,
            addr: self.target,
            ..Entry::blank(SymlinkAt::CODE)
        }
    }
}

/// Gives a file one more name, as `linkat` does. Its result is 0, or an errno below 0. Each field
/// is what `new` was given, or what the setter of its name was.
#[derive(Drop)]
pub struct LinkAt {
    pub olddirfd: Fd,
    pub oldpath: u64,
    pub newdirfd: Fd,
    pub newpath: u64,
    pub flags: i32,
}

impl LinkAt {
    ghost use Rattle.uring_ops_path.specs.Rows.{new_link_at, link_at_words};

    /// `IORING_OP_LINKAT` of `linux/io_uring.h`.
    pub const CODE: u8 = opcodes::LINKAT;

    /// The file that the number `oldpath` names, seen from `olddirfd`, gets the name with the
    /// number `newpath`, seen from `newdirfd`, too.
    pub fn new(olddirfd: Fd, oldpath: u64, newdirfd: Fd, newpath: u64) -> LinkAt
        ensures { result ≡ new_link_at olddirfd oldpath newdirfd newpath }
    {
        LinkAt {
            olddirfd,
            oldpath,
            newdirfd,
            newpath,
            flags: 0,
        }
    }

    /// How the old path is followed, `AT_` bits of `fcntl.h`.
    pub fn flags(self, flags: i32) -> LinkAt
        ensures { result ≡ record self { flags = flags } }
    {
        LinkAt { flags, ..self }
    }

    /// The entry, on the old directory.
    pub fn build(self) -> Entry
        ensures { result ≡ link_at_words self }
    {
        Entry {
            fd: self.olddirfd.0,
            off: self.newpath,
            addr: self.oldpath,
            len: self.newdirfd.0.cast_unsigned(),
            op: self.flags.cast_unsigned(),
            ..Entry::blank(LinkAt::CODE)
        }
    }
}
