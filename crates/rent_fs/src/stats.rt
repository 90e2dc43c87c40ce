//! Asking what files are.

ghost use Rattle.std.specs.Prelude.{◌≡◌};
ghost use Rattle.rent_fs.specs.Entries.{here, stat_entry, stat_file_entry};
ghost use Rattle.rent_fs.specs.Stats.{stated};

use crate::error::FsError;
use crate::lent::lent;
use crate::metadata::Metadata;
use crate::path_op::PathOp;
use rent_engine::{OneAnswer, OpKind};
use std::alloc::Global;
use uring_base::fcntl::{AT_EMPTY_PATH, AT_FDCWD};
use uring_base::squeue::Entry;
use uring_base::stat::STATX_ALL;
use uring_base::types::Fd;
use uring_ops_file::Statx;

/// A stat. Its output is what the file is, or why that isn't known.
pub type Stat = PathOp<Stating>;

/// What a stat gives.
#[derive(Drop)]
pub struct Stating;

/// What a stat told, or why it didn't.
pub(crate) fn stated(answer: OneAnswer) -> Result<Metadata, FsError>
    ensures { result ≡ stated answer }
{
    match lent(answer) {
        Err(error) => Err(error),
        Ok((code, buf)) => {
            if code < 0 {
                Err(FsError::Os(code.unsigned_abs()))
            } else {
                Ok(Metadata::from_bytes(buf.as_slice()))
            }
        }
    }
}

impl OpKind for Stating {
    ghost use Rattle.std.specs.Prelude.{⊤};
    ghost use Rattle.rent_fs.specs.Stats.{stated};

    type Output = Result<Metadata, FsError>;

    ghost gives = { λ _. stated };

    ghost bounds = { λ _. ⊤ };

    fn output(&mut self, _alloc: Global, answer: OneAnswer) -> Result<Metadata, FsError> {
        stated(answer)
    }
}

fn stat_entry(dirfd: Fd, bits: u32) -> Entry
    ensures { result ≡ stat_entry dirfd bits }
{
    Statx::new(dirfd, 0, 0)
        .flags(bits.cast_signed())
        .mask(STATX_ALL)
        .build()
}

/// The entry of a stat of a path, with these `AT_` bits.
pub(crate) fn stat_path_entry(bits: u32) -> Entry
    ensures { result ≡ stat_entry here bits }
{
    stat_entry(Fd(AT_FDCWD), bits)
}

/// The entry of a stat of a file by its number.
pub(crate) fn stat_file_entry(file: u32) -> Entry
    ensures { result ≡ stat_file_entry file }
{
    stat_entry(Fd(file.cast_signed()), AT_EMPTY_PATH)
}
