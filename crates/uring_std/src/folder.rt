//! The folder, and the files that are open in it.

use crate::answers::errno_of;
use crate::open_files::OpenFiles;
use crate::paths::{SystemPath, seed_path};
use std::alloc::{AllocError, Global};
use std::fs::OpenOptions;
use std::io::{self, Write};
use std::rt::Files;
use uring_base::Buf;

/// The system's files, the name of a folder, and what is open in it.
#[derive(Drop)]
pub struct Folder<R: Files> {
    pub rt: R,
    pub name: Buf,
    pub open: OpenFiles<R::File>,
}

/// Why a file wasn't put in.
pub enum PutFault {
    /// The system failed with this error number.
    System(i32),
    NoMemory,
}

impl From<AllocError> for PutFault {
    fn from(_error: AllocError) -> PutFault {
        PutFault::NoMemory
    }
}

impl From<io::Error> for PutFault {
    fn from(error: io::Error) -> PutFault {
        PutFault::System(errno_of(&error))
    }
}

impl<R: Files + Drop> Folder<R> {
    /// A folder of this name in which no file is open. It asks nothing of the system.
    pub fn new(alloc: Global, rt: R, name: Buf) -> Folder<R> {
        Folder {
            rt,
            name,
            open: OpenFiles::new(alloc),
        }
    }

    /// Makes the file `f` and the number in the folder, or empties the one that is there, writes
    /// the bytes to it, and opens it under the number.
    pub fn put_file(&mut self, alloc: Global, number: u32, bytes: &[u8]) -> Result<(), PutFault> {
        let path = match seed_path(alloc, self.name.as_slice(), number)? {
            SystemPath::At(path) => path,
            SystemPath::Refused(refusal) => return Err(PutFault::System(-refusal)),
        };
        self.open.reserve_one()?;
        let mut file = seed_options().open(&self.rt, path)?;
        file.write_all(bytes)?;
        self.open.put(number, file)?;
        Ok(())
    }
}

/// The file is made where it isn't there, emptied where it is, and can be read and written.
fn seed_options() -> OpenOptions {
    let mut how = OpenOptions::new();
    how.read(true).write(true).create(true).truncate(true);
    how
}
