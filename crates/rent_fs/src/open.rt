//! Opening files.

ghost use Rattle.std.specs.Prelude.{◌≡◌, Option, None, Some, List};
ghost use Rattle.rent_fs.specs.Entries.{close_entry, open_entry};
ghost use Rattle.rent_fs.specs.Opens.{open_request, opened, opens_with};

use crate::error::FsError;
use crate::file::File;
use crate::lent::{closed, lent};
use rent_engine::{OneAnswer, OpKind, Plan, PlanStep, Request, Sequence, SingleOp};
use std::alloc::Global;
use uring_base::Buf;
use uring_base::errno::EINVAL;
use uring_base::fcntl::AT_FDCWD;
use uring_base::squeue::Entry;
use uring_base::types::Fd;
use uring_ops_file::{Close, OpenAt};

/// An opening of a file. Its output is the file, or why there is none.
pub type Open = Sequence<Opening, Result<File, FsError>>;

/// What an opening gives.
#[derive(Drop)]
pub struct Opening;

/// The file that an opening gives, or why there is none.
pub(crate) fn opened(answer: OneAnswer) -> Result<File, FsError>
    ensures { result ≡ opened answer }
{
    match lent(answer) {
        Err(error) => Err(error),
        Ok((code, _)) => {
            if code < 0 {
                Err(FsError::Os(code.unsigned_abs()))
            } else {
                Ok(File::of_number(code.unsigned_abs()))
            }
        }
    }
}

impl Plan for Opening {
    ghost use Rattle.rent_fs.specs.Opens.{FollowsOpening};

    type Output = Result<File, FsError>;

    ghost follows = { FollowsOpening };

    fn follow(&mut self, _alloc: Global, answer: OneAnswer) -> PlanStep<Result<File, FsError>> {
        PlanStep::Gives(opened(answer))
    }
}

fn open_entry(bits: u32, mode: u32) -> Entry
    ensures { result ≡ open_entry bits mode }
{
    OpenAt::new(Fd(AT_FDCWD), 0)
        .flags(bits.cast_signed())
        .mode(mode)
        .build()
}

/// The operation that opens the file of that path with these `O_` bits.
pub(crate) fn open_request(bits: u32, mode: u32, path: Buf) -> Request
    ensures { result ≡ open_request bits mode path }
{
    Request {
        number: None,
        entry: open_entry(bits, mode),
        from: 0,
        buf: Some(path),
    }
}

/// An opening with these `O_` bits; without any, a refusal at once.
pub(crate) fn opens_with(bits: Option<u32>, mode: u32, path: Buf) -> Open
    ensures { result ≡ opens_with result.plan bits mode path }
{
    match bits {
        None => Sequence::of_output(Opening, Err(FsError::Os(EINVAL.cast_unsigned()))),
        Some(bits) => Sequence::of_request(Opening, open_request(bits, mode, path)),
    }
}

/// A close of a file. Its output is that it is done, whatever the result was.
pub type CloseFile = SingleOp<Closing>;

/// What a close gives.
#[derive(Drop)]
pub struct Closing;

impl OpKind for Closing {
    ghost use Rattle.rent_fs.specs.Lent.{closed};
    ghost use Rattle.rent_fs.specs.Outputs.{IsSmallFault};

    type Output = Result<(), FsError>;

    ghost gives = { λ _. closed };

    ghost bounds = { IsSmallFault };

    fn output(&mut self, _alloc: Global, answer: OneAnswer) -> Result<(), FsError> {
        closed(answer)
    }
}

/// The entry of a close of a file.
pub(crate) fn close_entry(file: u32) -> Entry
    ensures { result ≡ close_entry file }
{
    Close::new(Fd(file.cast_signed())).build()
}
