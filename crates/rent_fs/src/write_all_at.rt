//! Writing a whole buffer at a position.

ghost use Rattle.std.specs.Prelude.{◌≡◌, ◌+◌, ◌^◌, ◌<◌, ◌≤◌, length};
ghost use Rattle.uring_base.specs.declared.limits.TheConstants.{MAX_BUFFER};
ghost use Rattle.rent_fs.specs.Transfers.{rest_write, whole_write};
ghost use Rattle.rent_fs.specs.WholePlans.{begun};

use crate::answers::WholeFault;
use crate::error::FsError;
use crate::whole_buffer::{Transfer, WholeBuffer, begin, whole_error};
use crate::write_at::write_entry;
use rent_engine::Sequence;
use uring_base::Buf;
use uring_base::squeue::Entry;

/// Writes at a position until all of the buffer is written. Its output is that it is done, or why it isn't, and the buffer as it
/// came back.
pub type WriteAllAt = Sequence<WholeBuffer<WholeWrite>, (Result<(), FsError>, Buf)>;

/// A whole write: the file's number, and the position where it ends.
#[derive(Clone, Copy, PartialEq, Eq, Debug)]
pub struct WholeWrite {
    file: u32,
    end: u64,
}

impl WholeWrite {
    /// One from the front of the file on.
    pub(crate) fn from_front(file: u32, len: u32) -> WholeWrite
        ensures { result ≡ record { file = file; end = len } }
    {
        WholeWrite {
            file,
            end: u64::from(len),
        }
    }
}

impl Transfer for WholeWrite {
    ghost use Rattle.rent_fs.specs.declared.error.FsError.TheVariants.{WriteZero};
    ghost use Rattle.rent_fs.specs.WholePlans.{whole_error};

    type Error = FsError;

    ghost asks = { rest_write };

    ghost tells = { whole_error WriteZero };

    fn entry(&self, rest: u32) -> Entry {
        write_entry(self.file, rest, self.end.saturating_sub(u64::from(rest)))
    }

    fn error(fault: WholeFault) -> FsError {
        whole_error(fault, FsError::WriteZero)
    }
}

pub(crate) fn write_all_at(file: u32, buf: Buf, pos: u64) -> WriteAllAt
    requires small { length buf ≤ MAX_BUFFER }
    requires fits { pos + length buf < 2 ^ 64 }
    ensures { result ≡ begun rest_write (whole_write file pos buf) buf }
{
    let end = pos + buf.len() as u64;
    begin(WholeWrite { file, end }, buf)
}
