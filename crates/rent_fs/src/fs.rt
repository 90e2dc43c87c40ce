//! Work on files and directories by their paths. Each function gives a state; nothing is asked for
//! until it is polled. A path has no zero byte.

ghost use Rattle.std.specs.Prelude.{◌≡◌, true, false, None, Some};
ghost use Rattle.rent_engine.specs.declared.one_op.Stage.TheVariants.{Offers};
ghost use Rattle.uring_base.specs.declared.stat.TheConstants.{S_PERMISSIONS};
ghost use Rattle.rent_fs.specs.Entries.{remove_dir_entry, remove_file_entry, rename_entry, stat_link_entry, stat_path_entry};
ghost use Rattle.rent_fs.specs.MakeDirs.{makes_with};
ghost use Rattle.rent_fs.specs.OpenFlags.{open_bits, options_to_create, options_to_read};
ghost use Rattle.rent_fs.specs.ReadFiles.{reads_whole};
ghost use Rattle.rent_fs.specs.WholeFiles.{read_bits, write_bits};
ghost use Rattle.rent_fs.specs.WriteFiles.{writes_whole};
ghost use Rattle.rent_fs.specs.declared.path_op.PathStage.TheVariants.{Makes};
ghost use Rattle.rent_fs.specs.declared.path_op.PathLoan.TheVariants.{One, Two};

use crate::make_dir::{DirBuilder, MakeDir};
use crate::names::{self, Remove, Rename};
use crate::path_op::{PathLoan, PathOp};
use crate::read_whole::{ReadWhole, read_whole};
use crate::stats::{Stat, Stating, stat_path_entry};
use crate::write_whole::{WriteWhole, write_whole};
use uring_base::Buf;
use uring_base::fcntl::AT_SYMLINK_NOFOLLOW;

/// What a path leads to.
pub fn metadata(path: Buf) -> Stat
    ensures { result.stage ≡ Makes (record { number = None; entry = stat_path_entry; loan = One path }) }
{
    PathOp::new(stat_path_entry(0), PathLoan::One(path), Stating)
}

/// What a path names, which may be a symbolic link.
pub fn symlink_metadata(path: Buf) -> Stat
    ensures { result.stage ≡ Makes (record { number = None; entry = stat_link_entry; loan = One path }) }
{
    let entry = stat_path_entry(AT_SYMLINK_NOFOLLOW);
    PathOp::new(entry, PathLoan::One(path), Stating)
}

/// The bytes of a file, as many as its size says when it is opened. A size above `MAX_BUFFER` is
/// `EFBIG`, and nothing is read. The file is closed, also after an error.
pub fn read(path: Buf) -> ReadWhole
    ensures state { result ≡ reads_whole path }
    ensures bits { open_bits options_to_read ≡ Some read_bits }
{
    read_whole(path)
}

/// Makes or empties a file, and writes these bytes. More than `MAX_BUFFER` are `EFBIG`, and
/// nothing is written. The file is closed, also after an error.
pub fn write(path: Buf, contents: Buf) -> WriteWhole
    ensures state { result ≡ writes_whole path contents }
    ensures bits { open_bits options_to_create ≡ Some write_bits }
{
    write_whole(path, contents)
}

/// Makes a directory.
pub fn create_dir(path: Buf) -> MakeDir
    ensures { result ≡ makes_with false S_PERMISSIONS path }
{
    DirBuilder::new().create(path)
}

/// Makes a directory, and those above it that are missing.
pub fn create_dir_all(path: Buf) -> MakeDir
    ensures { result ≡ makes_with true S_PERMISSIONS path }
{
    let mut builder = DirBuilder::new();
    builder.recursive(true);
    builder.create(path)
}

/// Takes the name of a file away.
pub fn remove_file(path: Buf) -> Remove
    ensures { result.op ≡ Offers (record { number = None; entry = remove_file_entry; from = 0; buf = Some path }) }
{
    names::remove_file(path)
}

/// Removes an empty directory.
pub fn remove_dir(path: Buf) -> Remove
    ensures { result.op ≡ Offers (record { number = None; entry = remove_dir_entry; from = 0; buf = Some path }) }
{
    names::remove_dir(path)
}

/// Gives a file or directory another path.
pub fn rename(from: Buf, to: Buf) -> Rename
    ensures { result.stage ≡ Makes (record { number = None; entry = rename_entry; loan = Two from to }) }
{
    names::rename_paths(from, to)
}
