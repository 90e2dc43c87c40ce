//! Reading a whole buffer at a position.

ghost use Rattle.std.specs.Prelude.{◌≡◌, ◌+◌, ◌^◌, ◌<◌, ◌≤◌, length};
ghost use Rattle.uring_base.specs.declared.limits.TheConstants.{MAX_BUFFER};
ghost use Rattle.rent_fs.specs.Transfers.{rest_read, whole_read};
ghost use Rattle.rent_fs.specs.WholePlans.{begun};

use crate::answers::WholeFault;
use crate::error::FsError;
use crate::read_at::read_entry;
use crate::whole_buffer::{Transfer, WholeBuffer, begin, whole_error};
use rent_engine::Sequence;
use uring_base::Buf;
use uring_base::squeue::Entry;

/// Reads at a position until the buffer is full. Its output is that it is done, or why it isn't, and the buffer as it
/// came back.
pub type ReadExactAt = Sequence<WholeBuffer<WholeRead>, (Result<(), FsError>, Buf)>;

/// A whole read: the file's number, and the position where it ends.
#[derive(Clone, Copy, PartialEq, Eq, Debug)]
pub struct WholeRead {
    file: u32,
    end: u64,
}

impl WholeRead {
    /// One from the front of the file on.
    pub(crate) fn from_front(file: u32, len: u32) -> WholeRead
        ensures { result ≡ record { file = file; end = len } }
    {
        WholeRead {
            file,
            end: u64::from(len),
        }
    }
}

impl Transfer for WholeRead {
    ghost use Rattle.rent_fs.specs.declared.error.FsError.TheVariants.{UnexpectedEof};
    ghost use Rattle.rent_fs.specs.WholePlans.{whole_error};

    type Error = FsError;

    ghost asks = { rest_read };

    ghost tells = { whole_error UnexpectedEof };

    fn entry(&self, rest: u32) -> Entry {
        read_entry(self.file, rest, self.end.saturating_sub(u64::from(rest)))
    }

    fn error(fault: WholeFault) -> FsError {
        whole_error(fault, FsError::UnexpectedEof)
    }
}

pub(crate) fn read_exact_at(file: u32, buf: Buf, pos: u64) -> ReadExactAt
    requires small { length buf ≤ MAX_BUFFER }
    requires fits { pos + length buf < 2 ^ 64 }
    ensures { result ≡ begun rest_read (whole_read file pos buf) buf }
{
    let end = pos + buf.len() as u64;
    begin(WholeRead { file, end }, buf)
}
