//! How files are opened.

ghost use Rattle.std.specs.Prelude.{◌≡◌, ℕ, Option};
ghost use Rattle.rent_fs.specs.Opens.{opens_with};
ghost use Rattle.rent_fs.specs.OpenFlags.{access_bits, creation_bits, default_options, flags_or_refusal, open_bits, refuses_creation};

use crate::error::FsError;
use crate::open::{Open, opens_with};
use uring_base::Buf;
use uring_base::errno::EINVAL;
use uring_base::fcntl::{
    O_ACCMODE, O_APPEND, O_CLOEXEC, O_CREAT, O_EXCL, O_RDONLY, O_RDWR, O_TRUNC, O_WRONLY,
};

/// Who may do what with a new file: everybody may read and write.
pub const NEW_FILE_MODE: u32 = 0o666;

/// How a file is opened, and made where it is missing.
#[derive(Clone, Copy, PartialEq, Eq, Debug)]
pub struct OpenOptions {
    read: bool,
    write: bool,
    append: bool,
    truncate: bool,
    create: bool,
    create_new: bool,
    mode: u32,
    custom_flags: i32,
}

/// Flags as a signed number, where there are any.
fn flags_or_refusal(bits: Option<u32>) -> Result<i32, FsError>
    ensures { result ≡ flags_or_refusal bits }
{
    match bits {
        Some(bits) => Ok(bits.cast_signed()),
        None => Err(FsError::Os(EINVAL.cast_unsigned())),
    }
}

impl OpenOptions {
    /// Mode 0o666, and nothing else.
    pub fn new() -> OpenOptions
        ensures { result ≡ default_options }
    {
        OpenOptions {
            read: false,
            write: false,
            append: false,
            truncate: false,
            create: false,
            create_new: false,
            mode: NEW_FILE_MODE,
            custom_flags: 0,
        }
    }

    /// Whether the file is read.
    pub fn read(&mut self, read: bool) -> &mut OpenOptions
        ensures same { result.ghost_name ≡ self.entry.ghost_name }
        ensures options { result.now ≡ record self.old { read = read } }
    {
        self.read = read;
        self
    }

    /// Whether the file is written.
    pub fn write(&mut self, write: bool) -> &mut OpenOptions
        ensures same { result.ghost_name ≡ self.entry.ghost_name }
        ensures options { result.now ≡ record self.old { write = write } }
    {
        self.write = write;
        self
    }

    /// Whether what is written goes behind the end.
    pub fn append(&mut self, append: bool) -> &mut OpenOptions
        ensures same { result.ghost_name ≡ self.entry.ghost_name }
        ensures options { result.now ≡ record self.old { append = append } }
    {
        self.append = append;
        self
    }

    /// Whether a file that is there is emptied.
    pub fn truncate(&mut self, truncate: bool) -> &mut OpenOptions
        ensures same { result.ghost_name ≡ self.entry.ghost_name }
        ensures options { result.now ≡ record self.old { truncate = truncate } }
    {
        self.truncate = truncate;
        self
    }

    /// Whether a file that is missing is made.
    pub fn create(&mut self, create: bool) -> &mut OpenOptions
        ensures same { result.ghost_name ≡ self.entry.ghost_name }
        ensures options { result.now ≡ record self.old { create = create } }
    {
        self.create = create;
        self
    }

    /// Whether the file is made, and must not be there.
    pub fn create_new(&mut self, create_new: bool) -> &mut OpenOptions
        ensures same { result.ghost_name ≡ self.entry.ghost_name }
        ensures options { result.now ≡ record self.old { create_new = create_new } }
    {
        self.create_new = create_new;
        self
    }

    /// Who may read, write and execute a file that is made, `S_I` bits of `linux/stat.h`.
    pub fn mode(&mut self, mode: u32) -> &mut OpenOptions
        ensures same { result.ghost_name ≡ self.entry.ghost_name }
        ensures options { result.now ≡ record self.old { mode = mode } }
    {
        self.mode = mode;
        self
    }

    /// Further `O_` bits of `fcntl.h`. Those of an access mode count for nothing.
    pub fn custom_flags(&mut self, flags: i32) -> &mut OpenOptions
        ensures same { result.ghost_name ≡ self.entry.ghost_name }
        ensures options { result.now ≡ record self.old { custom_flags = flags } }
    {
        self.custom_flags = flags;
        self
    }

    fn access_bits(&self) -> Option<u32>
        ensures { result ≡ access_bits self.now.read self.now.write self.now.append }
    {
        match (self.read, self.write, self.append) {
            (true, false, false) => Some(O_RDONLY),
            (false, true, false) => Some(O_WRONLY),
            (true, true, false) => Some(O_RDWR),
            (false, _, true) => Some(O_APPEND | O_WRONLY),
            (true, _, true) => Some(O_APPEND | O_RDWR),
            (false, false, false) => None,
        }
    }

    /// The `O_` bits by which the file is read, written or added to. `EINVAL` where it is none of
    /// these.
    pub fn access_mode(&self) -> Result<i32, FsError>
        ensures { result ≡ flags_or_refusal (access_bits self.now.read self.now.write self.now.append) }
    {
        flags_or_refusal(self.access_bits())
    }

    fn refuses_creation(&self) -> bool
        ensures { result ≡ refuses_creation self.now }
    {
        let makes = self.truncate || self.create || self.create_new;
        let changes = self.write || self.append;
        (makes && !changes) || (self.append && self.truncate && !self.create_new)
    }

    fn creation_bits(&self) -> Option<u32>
        ensures { result ≡ creation_bits self.now }
    {
        if self.refuses_creation() {
            return None;
        }
        if self.create_new {
            return Some(O_CREAT | O_EXCL);
        }
        let made = if self.create { O_CREAT } else { 0 };
        let emptied = if self.truncate { O_TRUNC } else { 0 };
        Some(made | emptied)
    }

    /// The `O_` bits by which the file is made or emptied. `EINVAL` where it would be made or
    /// emptied and is neither written nor added to; and where it is added to and emptied, but not
    /// made anew.
    pub fn creation_mode(&self) -> Result<i32, FsError>
        ensures { result ≡ flags_or_refusal (creation_bits self.now) }
    {
        flags_or_refusal(self.creation_bits())
    }

    fn open_bits(&self) -> Option<u32>
        ensures { result ≡ open_bits self.now }
    {
        let access = self.access_bits()?;
        let creation = self.creation_bits()?;
        let custom = self.custom_flags.cast_unsigned() & !O_ACCMODE;
        Some(O_CLOEXEC | access | creation | custom)
    }

    /// Opens the file of that path so. Nothing is asked for until the state is polled; with options
    /// that have no access mode or no creation mode, nothing is asked for at all.
    pub fn open(&self, path: Buf) -> Open
        ensures { result ≡ opens_with result.plan (open_bits self.now) self.now.mode path }
    {
        opens_with(self.open_bits(), self.mode, path)
    }
}

impl Default for OpenOptions {
    fn default() -> OpenOptions {
        OpenOptions::new()
    }
}
