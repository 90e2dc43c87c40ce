//! Files by number.

ghost use Rattle.std.specs.Prelude.{◌≡◌, ◌+◌, ◌-◌, ◌^◌, ◌<◌, ◌≤◌, ℕ, None, Some, length};
ghost use Rattle.uring_base.specs.declared.limits.TheConstants.{MAX_BUFFER};
ghost use Rattle.rent_engine.specs.declared.one_op.Stage.TheVariants.{Offers};
ghost use Rattle.rent_engine.specs.OneOp.{addressed};
ghost use Rattle.rent_fs.specs.Entries.{close_entry, stat_file_entry, sync_all_flags, read_entry, sync_entry, write_entry};
ghost use Rattle.rent_fs.specs.OpenFlags.{open_bits, options_to_create, options_to_read};
ghost use Rattle.rent_fs.specs.Opens.{opens_with};
ghost use Rattle.rent_fs.specs.declared.open_options.TheConstants.{NEW_FILE_MODE};
ghost use Rattle.rent_fs.specs.declared.path_op.PathLoan.TheVariants.{Nothing};
ghost use Rattle.rent_fs.specs.declared.path_op.PathStage.TheVariants.{Makes};

use crate::open::{CloseFile, Closing, Open, close_entry};
use crate::open_options::OpenOptions;
use crate::path_op::{PathLoan, PathOp};
use crate::read_at::{ReadAt, read_at};
use crate::read_exact_at::{ReadExactAt, read_exact_at};
use crate::stats::{Stat, Stating, stat_file_entry};
use crate::syncs::{Sync, sync_all, sync_data};
use crate::write_all_at::{WriteAllAt, write_all_at};
use crate::write_at::{WriteAt, write_at};
use rent_engine::SingleOp;
use uring_base::Buf;
use uring_base::types::FsyncFlags;

/// A file that a partner has under a number.
#[derive(Clone, Copy, PartialEq, Eq, Debug)]
pub struct File {
    number: u32,
}

impl File {
    ghost use Rattle.rent_fs.specs.Files.{file_number};
    ghost use Rattle.rent_fs.specs.Transfers.{rest_read, rest_write, whole_read, whole_write};
    ghost use Rattle.rent_fs.specs.WholePlans.{begun};

    /// Opens a file to read it. Nothing is asked for until the state is polled.
    pub fn open(path: Buf) -> Open
        ensures { result ≡ opens_with result.plan (open_bits options_to_read) NEW_FILE_MODE path }
    {
        let mut options = OpenOptions::new();
        options.read(true);
        options.open(path)
    }

    /// Opens a file to write it, made where it is missing and emptied where it is there. Nothing is
    /// asked for until the state is polled.
    pub fn create(path: Buf) -> Open
        ensures { result ≡ opens_with result.plan (open_bits options_to_create) NEW_FILE_MODE path }
    {
        let mut options = OpenOptions::new();
        options.write(true).create(true).truncate(true);
        options.open(path)
    }

    /// The file under that number.
    pub fn of_number(number: u32) -> File
        ensures { file_number result ≡ number }
    {
        File { number }
    }

    /// Its number.
    pub fn number(&self) -> u32
        ensures { result ≡ file_number self.now }
    {
        self.number
    }

    /// Reads from a position into a buffer, as many bytes as come. Nothing is asked for until the
    /// state is polled.
    pub fn read_at(&self, buf: Buf, pos: u64) -> ReadAt
        requires small { length buf ≤ MAX_BUFFER }
        requires fits { pos + length buf < 2 ^ 64 }
        ensures offers { result.op ≡ Offers (record { number = None; entry = read_entry (file_number self.now) 0 (length buf) pos; from = 0; buf = Some buf }) }
        ensures entry { (n : ℕ) → addressed n (Some buf) (read_entry (file_number self.now) 0 (length buf) pos) ≡ read_entry (file_number self.now) n (length buf) pos }
    {
        read_at(self.number, buf, pos)
    }

    /// Writes a buffer at a position, as many bytes as are taken. Nothing is asked for until the
    /// state is polled.
    pub fn write_at(&self, buf: Buf, pos: u64) -> WriteAt
        requires small { length buf ≤ MAX_BUFFER }
        requires fits { pos + length buf < 2 ^ 64 }
        ensures offers { result.op ≡ Offers (record { number = None; entry = write_entry (file_number self.now) 0 (length buf) pos; from = 0; buf = Some buf }) }
        ensures entry { (n : ℕ) → addressed n (Some buf) (write_entry (file_number self.now) 0 (length buf) pos) ≡ write_entry (file_number self.now) n (length buf) pos }
    {
        write_at(self.number, buf, pos)
    }

    /// Reads from a position until the buffer is full. Nothing is asked for until the state is polled.
    pub fn read_exact_at(&self, buf: Buf, pos: u64) -> ReadExactAt
        requires small { length buf ≤ MAX_BUFFER }
        requires fits { pos + length buf < 2 ^ 64 }
        ensures begins { result ≡ begun rest_read (whole_read (file_number self.now) pos buf) buf }
        ensures entries { (rest : ℕ) → rest ≤ length buf → rest_read (whole_read (file_number self.now) pos buf) rest ≡ read_entry (file_number self.now) 0 rest (pos + (length buf - rest)) }
    {
        read_exact_at(self.number, buf, pos)
    }

    /// Writes a buffer at a position until all of it is written. Nothing is asked for until the state is polled.
    pub fn write_all_at(&self, buf: Buf, pos: u64) -> WriteAllAt
        requires small { length buf ≤ MAX_BUFFER }
        requires fits { pos + length buf < 2 ^ 64 }
        ensures begins { result ≡ begun rest_write (whole_write (file_number self.now) pos buf) buf }
        ensures entries { (rest : ℕ) → rest ≤ length buf → rest_write (whole_write (file_number self.now) pos buf) rest ≡ write_entry (file_number self.now) 0 rest (pos + (length buf - rest)) }
    {
        write_all_at(self.number, buf, pos)
    }

    /// Brings all that belongs to the file to its device, as `fsync` does. Nothing is asked for
    /// until the state is polled.
    pub fn sync_all(&self) -> Sync
        ensures { result.op ≡ Offers (record { number = None; entry = sync_entry (file_number self.now) sync_all_flags; from = 0; buf = None }) }
    {
        sync_all(self.number)
    }

    /// Brings the file's bytes to its device, and of what describes it only what is needed to read
    /// them back, as `fdatasync` does. Nothing is asked for until the state is polled.
    pub fn sync_data(&self) -> Sync
        ensures { result.op ≡ Offers (record { number = None; entry = sync_entry (file_number self.now) FsyncFlags.DATASYNC; from = 0; buf = None }) }
    {
        sync_data(self.number)
    }

    /// What the file is. Nothing is asked for until the state is polled.
    pub fn metadata(&self) -> Stat
        ensures { result.stage ≡ Makes (record { number = None; entry = stat_file_entry (file_number self.now); loan = Nothing }) }
    {
        let entry = stat_file_entry(self.number);
        PathOp::new(entry, PathLoan::Nothing, Stating)
    }

    /// Closes the file. Nothing is asked for until the state is polled.
    pub fn close(self) -> CloseFile
        ensures { result.op ≡ Offers (record { number = None; entry = close_entry (file_number self); from = 0; buf = None }) }
    {
        SingleOp::new(close_entry(self.number), None, Closing)
    }
}
