//! What paths ask of the folder.

ghost use Rattle.std.specs.Prelude.{◌<◌, IfSome, length};

use crate::answers::{refusal_of, result_of};
use crate::folder::Folder;
use crate::paths::{SystemPath, path_below};
use file_tree::PathOperation;
use std::alloc::{AllocError, Global};
use std::fs::{self, DirBuilder, OpenOptions};
use std::os::unix::fs::{DirBuilderExt, OpenOptionsExt};
use std::rt::Files;
use uring_base::errno::{EBADF, EINVAL, EMFILE};
use uring_base::fcntl::{
    AT_REMOVEDIR, O_ACCMODE, O_APPEND, O_CREAT, O_EXCL, O_RDONLY, O_RDWR, O_TRUNC, O_WRONLY,
};
use uring_base::stat::S_PERMISSIONS;

/// How a file is opened by these flags and this mode. Other flags can't be handed on.
fn open_options(flags: u32, mode: u32) -> OpenOptions {
    let access = flags & O_ACCMODE;
    let writes = access == O_WRONLY || access == O_RDWR;
    let creates = flags & O_CREAT != 0;
    let mut how = OpenOptions::new();
    how.read(access == O_RDONLY || access == O_RDWR)
        .write(writes)
        .append(writes && flags & O_APPEND != 0)
        .truncate(flags & O_TRUNC != 0)
        .create(creates)
        .create_new(creates && flags & O_EXCL != 0)
        .mode(mode & S_PERMISSIONS);
    how
}

/// Where the first zero byte stands.
fn first_zero(part: &[u8]) -> Option<usize>
    ensures { IfSome result (λ place. place < length part.now) }
{
    part.iter().position(|byte| *byte == 0)
}

impl<R: Files + Drop> Folder<R> {
    /// Opens the file of a path under the least free number, and answers that. Options that std
    /// doesn't hand to the system, as emptying a file that isn't written, are refused.
    fn open_path(
        &mut self,
        alloc: Global,
        flags: u32,
        mode: u32,
        path: &[u8],
    ) -> Result<i32, AllocError> {
        let path = match path_below(alloc, self.name.as_slice(), path)? {
            SystemPath::At(path) => path,
            SystemPath::Refused(refusal) => return Ok(refusal),
        };
        let how = open_options(flags, mode);
        if how.check().is_err() {
            return Ok(-EINVAL);
        }
        let Some(number) = self.open.least_free() else {
            return Ok(-EMFILE);
        };
        self.open.reserve_one()?;
        match how.open(&self.rt, path) {
            Err(error) => Ok(refusal_of(&error)),
            Ok(file) => {
                self.open.put(number, file)?;
                Ok(number.cast_signed())
            }
        }
    }

    fn close(&mut self, number: u32) -> i32 {
        if self.open.close(number) { 0 } else { -EBADF }
    }

    fn make_dir(&self, alloc: Global, mode: u32, path: &[u8]) -> Result<i32, AllocError> {
        let path = match path_below(alloc, self.name.as_slice(), path)? {
            SystemPath::At(path) => path,
            SystemPath::Refused(refusal) => return Ok(refusal),
        };
        let mut builder = DirBuilder::new();
        builder.mode(mode & S_PERMISSIONS);
        Ok(result_of(builder.create(&self.rt, path)))
    }

    fn unlink(&self, alloc: Global, flags: u32, path: &[u8]) -> Result<i32, AllocError> {
        if flags != 0 && flags != AT_REMOVEDIR {
            return Ok(-EINVAL);
        }
        match path_below(alloc, self.name.as_slice(), path)? {
            SystemPath::Refused(refusal) => Ok(refusal),
            SystemPath::At(path) if flags == 0 => Ok(result_of(fs::remove_file(&self.rt, path))),
            SystemPath::At(path) => Ok(result_of(fs::remove_dir(&self.rt, path))),
        }
    }

    /// Renames the path before the first zero byte to that behind it.
    fn rename(&self, alloc: Global, part: &[u8]) -> Result<i32, AllocError> {
        let Some(end) = first_zero(part) else {
            return Ok(-EINVAL);
        };
        let folder = self.name.as_slice();
        let from = match path_below(alloc, folder, &part[..end])? {
            SystemPath::At(path) => path,
            SystemPath::Refused(refusal) => return Ok(refusal),
        };
        let to = match path_below(alloc, folder, &part[end + 1..])? {
            SystemPath::At(path) => path,
            SystemPath::Refused(refusal) => return Ok(refusal),
        };
        Ok(result_of(fs::rename(&self.rt, from, to)))
    }

    /// Performs an operation on paths; `part` are the lent bytes. A stat has a call of its own.
    pub fn perform_path(
        &mut self,
        alloc: Global,
        operation: PathOperation,
        part: &[u8],
    ) -> Result<i32, AllocError> {
        match operation {
            PathOperation::Open { flags, mode } => self.open_path(alloc, flags, mode, part),
            PathOperation::Close { number } => Ok(self.close(number)),
            PathOperation::MakeDir { mode } => self.make_dir(alloc, mode, part),
            PathOperation::Unlink { flags } => self.unlink(alloc, flags, part),
            PathOperation::Rename => self.rename(alloc, part),
            PathOperation::Stat { .. } | PathOperation::Lacking => Ok(-EINVAL),
        }
    }
}
