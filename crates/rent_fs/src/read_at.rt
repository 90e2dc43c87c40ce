//! Reading at a position.

ghost use Rattle.std.specs.Prelude.{◌≡◌, ◌≤◌, None, Some, length};
ghost use Rattle.uring_base.specs.declared.limits.TheConstants.{MAX_BUFFER};
ghost use Rattle.rent_engine.specs.declared.one_op.Stage.TheVariants.{Offers};
ghost use Rattle.rent_fs.specs.Entries.{read_entry};

use crate::error::FsError;
use crate::moved::moved;
use rent_engine::{OneAnswer, OpKind, SingleOp};
use std::alloc::Global;
use uring_base::Buf;
use uring_base::squeue::Entry;
use uring_base::types::Fixed;
use uring_ops_file::Read;

/// A read at a position. Its output is the count, and the buffer as it came back.
pub type ReadAt = SingleOp<Reading>;

/// What a read gives.
#[derive(Drop)]
pub struct Reading;

impl OpKind for Reading {
    ghost use Rattle.rent_fs.specs.Outputs.{moved, HasSmallCount};

    type Output = (Result<usize, FsError>, Buf);

    ghost gives = { λ _. moved };

    ghost bounds = { HasSmallCount };

    fn output(&mut self, alloc: Global, answer: OneAnswer) -> (Result<usize, FsError>, Buf) {
        moved(alloc, answer)
    }
}

/// The entry of a read of so many bytes, at a position.
pub(crate) fn read_entry(file: u32, len: u32, pos: u64) -> Entry
    ensures { result ≡ read_entry file 0 len pos }
{
    Read::new(Fixed(file), 0, len).offset(pos).build()
}

pub(crate) fn read_at(file: u32, buf: Buf, pos: u64) -> ReadAt
    requires { length buf ≤ MAX_BUFFER }
    ensures { result.op ≡ Offers (record { number = None; entry = read_entry file 0 (length buf) pos; from = 0; buf = Some buf }) }
{
    let len = buf.len() as u32;
    SingleOp::new(read_entry(file, len, pos), Some(buf), Reading)
}
