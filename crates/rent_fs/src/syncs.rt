//! Bringing a file to its device.

ghost use Rattle.std.specs.Prelude.{◌≡◌, None};
ghost use Rattle.rent_engine.specs.declared.one_op.Stage.TheVariants.{Offers};
ghost use Rattle.rent_fs.specs.Entries.{sync_all_flags, sync_entry};

use crate::error::FsError;
use crate::synced::synced;
use rent_engine::{OneAnswer, OpKind, SingleOp};
use std::alloc::Global;
use uring_base::types::{Fixed, FsyncFlags};
use uring_ops_file::Fsync;

/// A sync of a file. Its output is that it is done, or why it isn't.
pub type Sync = SingleOp<Syncing>;

/// What a sync gives.
#[derive(Drop)]
pub struct Syncing;

impl OpKind for Syncing {
    ghost use Rattle.rent_fs.specs.Outputs.{synced, IsSmallFault};

    type Output = Result<(), FsError>;

    ghost gives = { λ _. synced };

    ghost bounds = { IsSmallFault };

    fn output(&mut self, _alloc: Global, answer: OneAnswer) -> Result<(), FsError> {
        synced(answer)
    }
}

/// A sync of all that belongs to a file.
pub(crate) fn sync_all(file: u32) -> Sync
    ensures { result.op ≡ Offers (record { number = None; entry = sync_entry file sync_all_flags; from = 0; buf = None }) }
{
    SingleOp::new(Fsync::new(Fixed(file)).build(), None, Syncing)
}

/// A sync of a file's data.
pub(crate) fn sync_data(file: u32) -> Sync
    ensures { result.op ≡ Offers (record { number = None; entry = sync_entry file FsyncFlags.DATASYNC; from = 0; buf = None }) }
{
    let entry = Fsync::new(Fixed(file)).flags(FsyncFlags::DATASYNC).build();
    SingleOp::new(entry, None, Syncing)
}
