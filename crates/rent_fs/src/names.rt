//! Removing and renaming files and directories.

ghost use Rattle.std.specs.Prelude.{◌≡◌, None, Some};
ghost use Rattle.rent_engine.specs.declared.one_op.Stage.TheVariants.{Offers};
ghost use Rattle.rent_fs.specs.Entries.{remove_dir_entry, remove_file_entry, rename_entry};
ghost use Rattle.rent_fs.specs.declared.path_op.PathStage.TheVariants.{Makes};
ghost use Rattle.rent_fs.specs.declared.path_op.PathLoan.TheVariants.{Two};

use crate::error::FsError;
use crate::lent::path_done;
use crate::path_op::{PathLoan, PathOp};
use rent_engine::{OneAnswer, OpKind, SingleOp};
use std::alloc::Global;
use uring_base::Buf;
use uring_base::fcntl::{AT_FDCWD, AT_REMOVEDIR};
use uring_base::types::Fd;
use uring_ops_path::{RenameAt, UnlinkAt};

/// A removal. Its output is that it is done, or why it isn't.
pub type Remove = SingleOp<Naming>;

/// A renaming. Its output is that it is done, or why it isn't.
pub type Rename = PathOp<Naming>;

/// What a removal and a renaming give.
#[derive(Drop)]
pub struct Naming;

impl OpKind for Naming {
    ghost use Rattle.rent_fs.specs.Lent.{path_done};
    ghost use Rattle.rent_fs.specs.Outputs.{IsSmallFault};

    type Output = Result<(), FsError>;

    ghost gives = { λ _. path_done };

    ghost bounds = { IsSmallFault };

    fn output(&mut self, _alloc: Global, answer: OneAnswer) -> Result<(), FsError> {
        path_done(answer)
    }
}

pub(crate) fn remove_file(path: Buf) -> Remove
    ensures { result.op ≡ Offers (record { number = None; entry = remove_file_entry; from = 0; buf = Some path }) }
{
    let entry = UnlinkAt::new(Fd(AT_FDCWD), 0).build();
    SingleOp::new(entry, Some(path), Naming)
}

pub(crate) fn remove_dir(path: Buf) -> Remove
    ensures { result.op ≡ Offers (record { number = None; entry = remove_dir_entry; from = 0; buf = Some path }) }
{
    let entry = UnlinkAt::new(Fd(AT_FDCWD), 0)
        .flags(AT_REMOVEDIR.cast_signed())
        .build();
    SingleOp::new(entry, Some(path), Naming)
}

pub(crate) fn rename_paths(from: Buf, to: Buf) -> Rename
    ensures { result.stage ≡ Makes (record { number = None; entry = rename_entry; loan = Two from to }) }
{
    let entry = RenameAt::new(Fd(AT_FDCWD), 0, Fd(AT_FDCWD), 0).build();
    PathOp::new(entry, PathLoan::Two(from, to), Naming)
}
