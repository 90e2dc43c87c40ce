//! Files and what describes them.

use crate::lines::line;
use crate::values::*;
use std::io;
use uring_ops_file::{Close, Fallocate, FilesUpdate, Ftruncate, OpenAt, Statx};
use uring_ops_path::{Fadvise, FixedFdInstall, Madvise, OpenAt2};
use uring_types::DestinationSlot;

/// Room, opening and closing.
pub fn openings<R: Alloc + Print>(rt: &R) -> io::Result<()> {
    let allocate = Fallocate::new(FILE, LONG_LEN).offset(OFFSET);
    line(rt, "Fallocate", allocate.mode(ALLOCATION_MODE).build())?;
    line(rt, "Fallocate", Fallocate::new(RAW, LONG_LEN).build())?;
    let open = OpenAt::new(DIRFD, PATHNAME).flags(SIGNED_FLAGS).mode(MODE);
    line(rt, "OpenAt", open.file_index(Some(slot())).build())?;
    line(rt, "OpenAt", OpenAt::new(DIRFD, PATHNAME).build())?;
    let any = DestinationSlot::auto_target();
    let open = OpenAt::new(DIRFD, PATHNAME).flags(SIGNED_FLAGS).mode(MODE);
    line(rt, "OpenAt", open.file_index(Some(any)).build())?;
    line(rt, "Close", Close::new(FILE).build())?;
    line(rt, "Close", Close::new(RAW).build())
}

/// The table of registered files, and what describes a file.
pub fn descriptions<R: Alloc + Print>(rt: &R) -> io::Result<()> {
    let update = FilesUpdate::new(FDS, LEN).offset(TABLE_OFFSET);
    line(rt, "FilesUpdate", update.build())?;
    line(rt, "FilesUpdate", FilesUpdate::new(FDS, LEN).build())?;
    let stat = Statx::new(DIRFD, PATHNAME, STATXBUF).flags(SIGNED_FLAGS);
    line(rt, "Statx", stat.mask(MASK).build())?;
    line(rt, "Statx", Statx::new(DIRFD, PATHNAME, STATXBUF).build())
}

/// Advice, and the other way to open.
pub fn advice<R: Alloc + Print>(rt: &R) -> io::Result<()> {
    let advise = Fadvise::new(FILE, ADVISED_LEN, ADVICE).offset(OFFSET);
    line(rt, "Fadvise", advise.build())?;
    line(
        rt,
        "Fadvise",
        Fadvise::new(RAW, ADVISED_LEN, ADVICE).build(),
    )?;
    line(
        rt,
        "Madvise",
        Madvise::new(ADDR, ADVISED_LEN, ADVICE).build(),
    )?;
    let open = OpenAt2::new(DIRFD, PATHNAME, HOW).file_index(Some(slot()));
    line(rt, "OpenAt2", open.build())?;
    line(rt, "OpenAt2", OpenAt2::new(DIRFD, PATHNAME, HOW).build())?;
    let any = DestinationSlot::auto_target();
    let open = OpenAt2::new(DIRFD, PATHNAME, HOW).file_index(Some(any));
    line(rt, "OpenAt2", open.build())
}

/// A registered file as a descriptor, and cuts.
pub fn installs_and_cuts<R: Alloc + Print>(rt: &R) -> io::Result<()> {
    let install = FixedFdInstall::new(FILE, FILE_FLAGS);
    line(rt, "FixedFdInstall", install.build())?;
    line(rt, "Ftruncate", Ftruncate::new(FILE, LONG_LEN).build())?;
    line(rt, "Ftruncate", Ftruncate::new(RAW, LONG_LEN).build())
}
