//! What a stat tells.

use crate::answers::refusal_of;
use crate::folder::Folder;
use crate::paths::{SystemPath, path_below};
use std::alloc::{AllocError, Global};
use std::fs::{self, Metadata, OpenFile};
use std::io;
use std::os::unix::fs::MetadataExt;
use std::rt::Files;
use std::time::{Duration, UNIX_EPOCH};
use uring_base::Buf;
use uring_base::errno::EBADF;
use uring_base::fcntl::{AT_EMPTY_PATH, AT_SYMLINK_NOFOLLOW};
use uring_base::stat::{STATX_ALL, STATX_BTIME};

/// What a stat answers: the record, or a result below 0.
#[derive(Drop)]
pub enum Told {
    Record(Buf),
    Refused(i32),
}

/// The bytes of words, the lowest of each first.
fn bytes_of(alloc: Global, words: &[u64]) -> Result<Buf, AllocError> {
    let mut bytes = Vec::new(alloc);
    for word in words {
        bytes.extend_from_slice(&word.to_le_bytes())?;
    }
    Ok(Buf::from(bytes))
}

/// When the file was made, since 1970, where the system tells it.
fn birth_of(metadata: &Metadata) -> Option<Duration> {
    let born = metadata.created().ok()?;
    born.duration_since(UNIX_EPOCH).ok()
}

/// The record of a stat: device, inode, mode, links, user, group, device of a device, size, size of
/// a block, blocks, then seconds and nanoseconds of the last access, the last change of the bytes,
/// the last change of what describes the file, and the birth, and the mask of what is told.
fn record_of(alloc: Global, metadata: &Metadata) -> Result<Buf, AllocError> {
    let birth = birth_of(metadata);
    let (born, born_nanos, mask) = match birth {
        Some(age) => (age.as_secs(), age.subsec_nanos() as u64, STATX_ALL),
        None => (0, 0, STATX_ALL & !STATX_BTIME),
    };
    let words: [u64; 19] = [
        metadata.dev(),
        metadata.ino(),
        metadata.mode() as u64,
        metadata.nlink(),
        metadata.uid() as u64,
        metadata.gid() as u64,
        metadata.rdev(),
        metadata.size(),
        metadata.blksize(),
        metadata.blocks(),
        metadata.atime().cast_unsigned(),
        metadata.atime_nsec().cast_unsigned(),
        metadata.mtime().cast_unsigned(),
        metadata.mtime_nsec().cast_unsigned(),
        metadata.ctime().cast_unsigned(),
        metadata.ctime_nsec().cast_unsigned(),
        born,
        born_nanos,
        mask as u64,
    ];
    bytes_of(alloc, &words)
}

fn tell(alloc: Global, answer: io::Result<Metadata>) -> Result<Told, AllocError> {
    match answer {
        Ok(metadata) => Ok(Told::Record(record_of(alloc, &metadata)?)),
        Err(error) => Ok(Told::Refused(refusal_of(&error))),
    }
}

impl<R: Files + Drop> Folder<R> {
    /// What a stat of a path tells; an empty path with `AT_EMPTY_PATH` asks for the open file of
    /// `number`.
    pub fn stat(
        &mut self,
        alloc: Global,
        number: u32,
        flags: u32,
        path: &[u8],
    ) -> Result<Told, AllocError> {
        if flags & AT_EMPTY_PATH != 0 && path.is_empty() {
            return match self.open.get_mut(number) {
                None => Ok(Told::Refused(-EBADF)),
                Some(file) => tell(alloc, file.metadata()),
            };
        }
        match path_below(alloc, self.name.as_slice(), path)? {
            SystemPath::Refused(refusal) => Ok(Told::Refused(refusal)),
            SystemPath::At(path) if flags & AT_SYMLINK_NOFOLLOW != 0 => {
                tell(alloc, fs::symlink_metadata(&self.rt, path))
            }
            SystemPath::At(path) => tell(alloc, fs::metadata(&self.rt, path)),
        }
    }
}
