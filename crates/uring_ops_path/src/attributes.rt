//! Extended attributes of files.

ghost use Rattle.std.specs.Prelude.{◌≡◌};

use uring_base::opcodes;
use uring_base::squeue::Entry;
use uring_base::types::{Target, UseTarget};

/// Gives an open file an extended attribute, as `fsetxattr` does. Its result is 0, or an errno
/// below 0. Each field is what `new` was given, or what the setter of its name was.
#[derive(Drop)]
pub struct FSetXattr {
    pub fd: Target,
    pub name: u64,
    pub value: u64,
    pub len: u32,
    pub flags: i32,
}

impl FSetXattr {
    ghost use Rattle.uring_ops_path.specs.Rows.{new_f_set_xattr, f_set_xattr_words};

    /// `IORING_OP_FSETXATTR` of `linux/io_uring.h`.
    pub const CODE: u8 = opcodes::FSETXATTR;

    /// The attribute of `fd` whose name has the number `name` becomes the `len` bytes at the
    /// address `value`.
    pub fn new<T: UseTarget>(fd: T, name: u64, value: u64, len: u32) -> FSetXattr
        ensures { result ≡ new_f_set_xattr (T.target_of fd) name value len }
    {
        FSetXattr {
            fd: fd.target(),
            name,
            value,
            len,
            flags: 0,
        }
    }

    /// Whether the attribute must be new or must be there, `XATTR_` bits of `linux/xattr.h`.
    pub fn flags(self, flags: i32) -> FSetXattr
        ensures { result ≡ record self { flags = flags } }
    {
        FSetXattr { flags, ..self }
    }

    /// The entry. A registered file sets the flag `FIXED_FILE` in it.
    pub fn build(self) -> Entry
        ensures { result ≡ f_set_xattr_words self }
    {
        Entry {
            off: self.value,
            addr: self.name,
            len: self.len,
            op: self.flags.cast_unsigned(),
            ..Entry::blank(FSetXattr::CODE)
        }
        .on(self.fd)
    }
}

/// Gives the file of a path an extended attribute, as `setxattr` does. Its result is 0, or an errno
/// below 0. Each field is what `new` was given, or what the setter of its name was.
#[derive(Drop)]
pub struct SetXattr {
    pub name: u64,
    pub value: u64,
    pub path: u64,
    pub len: u32,
    pub flags: i32,
}

impl SetXattr {
    ghost use Rattle.uring_ops_path.specs.Rows.{new_set_xattr, set_xattr_words};

    /// `IORING_OP_SETXATTR` of `linux/io_uring.h`.
    pub const CODE: u8 = opcodes::SETXATTR;

    /// The attribute whose name has the number `name`, of the file that the number `path` names,
    /// becomes the `len` bytes at the address `value`.
    pub fn new(name: u64, value: u64, path: u64, len: u32) -> SetXattr
        ensures { result ≡ new_set_xattr name value path len }
    {
        SetXattr {
            name,
            value,
            path,
            len,
            flags: 0,
        }
    }

    /// Whether the attribute must be new or must be there, `XATTR_` bits of `linux/xattr.h`.
    pub fn flags(self, flags: i32) -> SetXattr
        ensures { result ≡ record self { flags = flags } }
    {
        SetXattr { flags, ..self }
    }

    /// The entry. Its descriptor word is 0 and means nothing.
    pub fn build(self) -> Entry
        ensures { result ≡ set_xattr_words self }
    {
        Entry {
            off: self.value,
            addr: self.name,
            len: self.len,
            op: self.flags.cast_unsigned(),
            third: self.path,
            ..Entry::blank(SetXattr::CODE)
        }
    }
}

/// Reads an extended attribute of an open file, as `fgetxattr` does. Its result is the length of
/// the value in bytes, or an errno below 0. Each field is what `new` was given.
#[derive(Drop)]
pub struct FGetXattr {
    pub fd: Target,
    pub name: u64,
    pub value: u64,
    pub len: u32,
}

impl FGetXattr {
    ghost use Rattle.uring_ops_path.specs.Rows.{new_f_get_xattr, f_get_xattr_words};

    /// `IORING_OP_FGETXATTR` of `linux/io_uring.h`.
    pub const CODE: u8 = opcodes::FGETXATTR;

    /// The attribute of `fd` whose name has the number `name` is told at the address `value`, where
    /// there is room for `len` bytes.
    pub fn new<T: UseTarget>(fd: T, name: u64, value: u64, len: u32) -> FGetXattr
        ensures { result ≡ new_f_get_xattr (T.target_of fd) name value len }
    {
        FGetXattr {
            fd: fd.target(),
            name,
            value,
            len,
        }
    }

    /// The entry. A registered file sets the flag `FIXED_FILE` in it.
    pub fn build(self) -> Entry
        ensures { result ≡ f_get_xattr_words self }
    {
        Entry {
            off: self.value,
            addr: self.name,
            len: self.len,
            ..Entry::blank(FGetXattr::CODE)
        }
        .on(self.fd)
    }
}

/// Reads an extended attribute of the file of a path, as `getxattr` does. Its result is the length
/// of the value in bytes, or an errno below 0. Each field is what `new` was given.
#[derive(Drop)]
pub struct GetXattr {
    pub name: u64,
    pub value: u64,
    pub path: u64,
    pub len: u32,
}

impl GetXattr {
    ghost use Rattle.uring_ops_path.specs.Rows.{new_get_xattr, get_xattr_words};

    /// `IORING_OP_GETXATTR` of `linux/io_uring.h`.
    pub const CODE: u8 = opcodes::GETXATTR;

    /// The attribute whose name has the number `name`, of the file that the number `path` names, is
    /// told at the address `value`, where there is room for `len` bytes.
    pub fn new(name: u64, value: u64, path: u64, len: u32) -> GetXattr
        ensures { result ≡ new_get_xattr name value path len }
    {
        GetXattr {
            name,
            value,
            path,
            len,
        }
    }

    /// The entry. Its descriptor word is 0 and means nothing.
    pub fn build(self) -> Entry
        ensures { result ≡ get_xattr_words self }
    {
        Entry {
            off: self.value,
            addr: self.name,
            len: self.len,
            third: self.path,
            ..Entry::blank(GetXattr::CODE)
        }
    }
}
