//! One row of the table: what is asked, in words and as an entry.

use std::alloc::{AllocError, Global};
use uring_base::fcntl::{AT_EMPTY_PATH, AT_FDCWD};
use uring_base::squeue::{Entry, Flags};
use uring_base::types::{Fd, Fixed};
use uring_base::{Buf, Loan};
use uring_ops_file::{Close, Ftruncate, OpenAt, Statx, Write};
use uring_ops_path::{MkDirAt, RenameAt, UnlinkAt};

/// The number under which a buffer is lent. It stands in the entry in place of an address.
const LOAN: u64 = 0;

/// What a row asks. Paths stand as they are lent.
#[derive(Clone, Copy)]
pub enum Row {
    /// A file with these bytes is put under the number.
    Put(u32, &'static str),
    /// Open a path, with these flags and this mode.
    Open(&'static str, u32, u32),
    /// Close a number.
    Close(i32),
    /// Make a directory with this mode.
    MakeDir(&'static str, u32),
    /// Take a name away, with these flags.
    Unlink(&'static str, u32),
    /// Rename the first path as the second.
    Rename(&'static str, &'static str),
    /// The same, where the loan goes on behind a further zero byte.
    RenameMore(&'static str, &'static str, &'static str),
    /// Rename, where the loan has no zero byte.
    OnePath(&'static str),
    /// Stat a path.
    Stat(&'static str),
    /// Stat the file of a number.
    StatFile(i32),
    /// Stat a path, where the flag says that an empty one would be the number's file.
    StatAlso(&'static str, i32),
    /// Stat the second text, which stands in the loan behind the first.
    StatBehind(&'static str, &'static str),
    /// Write these bytes to the front of a number's file.
    Write(u32, &'static str),
    /// Cut or fill a number's file to this length.
    Cut(u32, u64),
    /// An entry of this code without a loan.
    Unlent(u8),
    /// An entry of this code that selects a buffer, with a loan.
    Selects(u8),
}

impl Row {
    /// What is asked, as a line of the table begins.
    pub fn words(&self, alloc: Global) -> Result<String, AllocError> {
        match self {
            Row::Put(number, bytes) => format!(in alloc; "put {number} '{bytes}'"),
            Row::Open(path, flags, mode) => format!(in alloc; "open '{path}' {flags:o} {mode:o}"),
            Row::Close(number) => format!(in alloc; "close {number}"),
            Row::MakeDir(path, mode) => format!(in alloc; "make '{path}' {mode:o}"),
            Row::Unlink(path, flags) => format!(in alloc; "unlink '{path}' {flags:x}"),
            Row::Rename(old, new) => format!(in alloc; "rename '{old}' '{new}'"),
            Row::RenameMore(old, new, more) => {
                format!(in alloc; "rename '{old}' '{new}' '{more}'")
            }
            Row::OnePath(path) => format!(in alloc; "rename '{path}'"),
            Row::Stat(path) => format!(in alloc; "stat '{path}'"),
            Row::StatFile(number) => format!(in alloc; "stat {number}"),
            Row::StatAlso(path, number) => format!(in alloc; "stat '{path}' {number}"),
            Row::StatBehind(before, path) => {
                format!(in alloc; "stat '{path}' behind '{before}'")
            }
            Row::Write(number, bytes) => format!(in alloc; "write {number} '{bytes}'"),
            Row::Cut(number, len) => format!(in alloc; "cut {number} {len}"),
            Row::Unlent(code) => format!(in alloc; "code {code} without a loan"),
            Row::Selects(code) => format!(in alloc; "code {code} with a selected buffer"),
        }
    }

    /// The entry that asks it.
    pub fn entry(&self) -> Entry {
        let here = Fd(AT_FDCWD);
        match self {
            Row::Put(..) => Entry::blank(0),
            Row::Open(_, flags, mode) => OpenAt::new(here, LOAN)
                .flags(flags.cast_signed())
                .mode(*mode)
                .build(),
            Row::Close(number) => Close::new(Fd(*number)).build(),
            Row::MakeDir(_, mode) => MkDirAt::new(here, LOAN).mode(*mode).build(),
            Row::Unlink(_, flags) => UnlinkAt::new(here, LOAN).flags(flags.cast_signed()).build(),
            Row::Rename(..) | Row::RenameMore(..) | Row::OnePath(_) => {
                RenameAt::new(here, LOAN, here, LOAN).build()
            }
            Row::Stat(_) | Row::StatBehind(..) => Statx::new(here, LOAN, LOAN).build(),
            Row::StatFile(number) | Row::StatAlso(_, number) => {
                Statx::new(Fd(*number), LOAN, LOAN)
                    .flags(AT_EMPTY_PATH.cast_signed())
                    .build()
            }
            Row::Write(number, bytes) => {
                Write::new(Fixed(*number), LOAN, length_of(bytes)).build()
            }
            Row::Cut(number, len) => Ftruncate::new(Fixed(*number), *len).build(),
            Row::Unlent(code) => Entry::blank(*code),
            Row::Selects(code) => Entry::blank(*code).flags(Flags::BUFFER_SELECT),
        }
    }

    /// How many bytes of the loan stand before its place.
    fn skipped(&self) -> u32 {
        match self {
            Row::StatBehind(before, _) => length_of(before),
            _ => 0,
        }
    }

    /// What is lent.
    pub fn loan(&self, alloc: Global) -> Result<Option<Loan>, AllocError> {
        let buf = match self {
            Row::Put(..) | Row::Close(_) | Row::Cut(..) | Row::Unlent(_) => return Ok(None),
            Row::Open(path, _, _)
            | Row::MakeDir(path, _)
            | Row::Unlink(path, _)
            | Row::OnePath(path)
            | Row::Stat(path)
            | Row::StatAlso(path, _)
            | Row::Write(_, path) => joined(alloc, path, &[])?,
            Row::Rename(old, new) => joined(alloc, old, &["\0", new])?,
            Row::RenameMore(old, new, more) => joined(alloc, old, &["\0", new, "\0", more])?,
            Row::StatBehind(before, path) => joined(alloc, before, &[path])?,
            Row::StatFile(_) | Row::Selects(_) => Buf::new(alloc),
        };
        Ok(Some(Loan {
            number: LOAN,
            from: self.skipped(),
            buf,
        }))
    }
}

/// Texts one after another.
fn joined(alloc: Global, first: &str, others: &[&str]) -> Result<Buf, AllocError> {
    let mut bytes = first.as_bytes().to_vec(alloc)?;
    for text in others {
        bytes.extend_from_slice(text.as_bytes())?;
    }
    Ok(Buf::from(bytes))
}

/// How many bytes a text has; no row's has more than a word says.
fn length_of(text: &str) -> u32 {
    match u32::try_from(text.len()) {
        Ok(len) => len,
        Err(_) => u32::MAX,
    }
}
