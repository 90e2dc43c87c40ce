//! What is asked of an open file.

use crate::answers::{count_of, result_of};
use crate::folder::Folder;
use bitflags::Flags as _;
use std::fs::OpenFile;
use std::io::{self, ErrorKind, Read, Seek, SeekFrom, Write};
use std::rt::Files;
use uring_base::errno::{EBADF, EINVAL, ENOENT, EOPNOTSUPP};
use uring_base::types::FsyncFlags;
use uring_model::Operation;

/// Reads once from a place on. A call that was interrupted is made again.
fn read_at<F: Read + Seek>(file: &mut F, offset: u64, into: &mut [u8]) -> io::Result<usize> {
    file.seek(SeekFrom::Start(offset))?;
    for _ in 0..u64::MAX {
        match file.read(into) {
            Err(error) if error.kind() == ErrorKind::Interrupted => {}
            answer => return answer,
        }
    }
    Err(io::Error::from(ErrorKind::Interrupted))
}

/// Writes once from a place on. A call that was interrupted is made again.
fn write_at<F: Write + Seek>(file: &mut F, offset: u64, bytes: &[u8]) -> io::Result<usize> {
    file.seek(SeekFrom::Start(offset))?;
    for _ in 0..u64::MAX {
        match file.write(bytes) {
            Err(error) if error.kind() == ErrorKind::Interrupted => {}
            answer => return answer,
        }
    }
    Err(io::Error::from(ErrorKind::Interrupted))
}

/// Syncs a file: its data alone where `flags` say so.
fn sync<F: OpenFile>(file: &F, flags: u32) -> io::Result<()> {
    if FsyncFlags::from_bits_retain(flags).contains(FsyncFlags::DATASYNC) {
        file.sync_data()
    } else {
        file.sync_all()
    }
}

impl<R: Files + Drop> Folder<R> {
    /// Performs an operation on the open files. `part` are the lent bytes, and `word` is the
    /// entry's word of flags.
    pub fn perform(&mut self, operation: Operation, word: u32, part: &mut [u8]) -> i32 {
        let number = match operation {
            Operation::Nop => return 0,
            Operation::Cancel { .. } => return -ENOENT,
            Operation::Lacking => return -EINVAL,
            Operation::Unknown => return -EOPNOTSUPP,
            Operation::Read { file, .. }
            | Operation::Write { file, .. }
            | Operation::Fsync { file }
            | Operation::Ftruncate { file, .. } => file,
        };
        let Some(file) = self.open.get_mut(number) else {
            return -EBADF;
        };
        match operation {
            Operation::Read { offset, .. } => count_of(read_at(file, offset, part)),
            Operation::Write { offset, .. } => count_of(write_at(file, offset, part)),
            Operation::Ftruncate { len, .. } => result_of(file.set_len(len)),
            _ => result_of(sync(file, word)),
        }
    }
}
