//! Names and attributes of files.

use crate::lines::line;
use crate::values::*;
use std::io;
use uring_ops_path::{
    FGetXattr, FSetXattr, GetXattr, LinkAt, MkDirAt, RenameAt, SetXattr, SymlinkAt, UnlinkAt,
};

/// Names in directories.
pub fn names<R: Alloc + Print>(rt: &R) -> io::Result<()> {
    let rename = RenameAt::new(DIRFD, OLDPATH, NEWDIRFD, NEWPATH);
    line(rt, "RenameAt", rename.flags(FLAGS).build())?;
    let rename = RenameAt::new(DIRFD, OLDPATH, NEWDIRFD, NEWPATH);
    line(rt, "RenameAt", rename.build())?;
    let unlink = UnlinkAt::new(DIRFD, PATHNAME).flags(SIGNED_FLAGS);
    line(rt, "UnlinkAt", unlink.build())?;
    line(rt, "UnlinkAt", UnlinkAt::new(DIRFD, PATHNAME).build())?;
    let make = MkDirAt::new(DIRFD, PATHNAME).mode(MODE);
    line(rt, "MkDirAt", make.build())?;
    line(rt, "MkDirAt", MkDirAt::new(DIRFD, PATHNAME).build())?;
    let link = SymlinkAt::new(NEWDIRFD, TARGET, LINKPATH);
    line(rt, "SymlinkAt", link.build())?;
    let link = LinkAt::new(DIRFD, OLDPATH, NEWDIRFD, NEWPATH);
    line(rt, "LinkAt", link.flags(SIGNED_FLAGS).build())?;
    let link = LinkAt::new(DIRFD, OLDPATH, NEWDIRFD, NEWPATH);
    line(rt, "LinkAt", link.build())
}

/// Extended attributes.
pub fn attributes<R: Alloc + Print>(rt: &R) -> io::Result<()> {
    let set = FSetXattr::new(FILE, NAME, VALUE, LEN).flags(SIGNED_FLAGS);
    line(rt, "FSetXattr", set.build())?;
    line(
        rt,
        "FSetXattr",
        FSetXattr::new(RAW, NAME, VALUE, LEN).build(),
    )?;
    let set = SetXattr::new(NAME, VALUE, PATH, LEN).flags(SIGNED_FLAGS);
    line(rt, "SetXattr", set.build())?;
    line(
        rt,
        "SetXattr",
        SetXattr::new(NAME, VALUE, PATH, LEN).build(),
    )?;
    line(
        rt,
        "FGetXattr",
        FGetXattr::new(FILE, NAME, VALUE, LEN).build(),
    )?;
    line(
        rt,
        "FGetXattr",
        FGetXattr::new(RAW, NAME, VALUE, LEN).build(),
    )?;
    line(
        rt,
        "GetXattr",
        GetXattr::new(NAME, VALUE, PATH, LEN).build(),
    )
}
