//! What a file is.

ghost use Rattle.std.specs.Prelude.{◌≡◌, ◌==◌, ◌%◌, ◌^◌, bit_and, IfOk, IfErr, Result};
ghost use Rattle.std.specs.Int.{w64, cast_signed};
ghost use Rattle.uring_base.specs.FlagBits.{has_bits};
ghost use Rattle.uring_base.specs.declared.stat.TheConstants.{S_IFDIR, S_IFLNK, S_IFMT, S_IFREG, STATX_BTIME};
ghost use Rattle.fs_data.specs.Kinds.{kind_of};
ghost use Rattle.fs_data.specs.Modes.{mode_of};

use crate::error::FsError;
use fs_data::{FileType, Moment, Permissions, StatRecord};
use uring_base::stat::STATX_BTIME;

/// What a file is, as a stat told it.
#[derive(Clone, Copy, PartialEq, Eq, Debug)]
pub struct Metadata {
    stat: StatRecord,
}

/// The low 32 bits of a word.
fn low_word(word: u64) -> u32
    ensures { result ≡ word % 2 ^ 32 }
{
    (word % (1 << 32)) as u32
}

fn moment(secs: u64, nanos: u64) -> Moment
    ensures { result ≡ record { secs = cast_signed w64 secs; nanos = nanos % 2 ^ 32 } }
{
    Moment {
        secs: secs.cast_signed(),
        nanos: low_word(nanos),
    }
}

impl Metadata {
    ghost use Rattle.rent_fs.specs.Stats.{born, low_word, mode_in, moment_of, metadata_of, stat_of};

    /// What the posted bytes of a stat say; a missing one counts as 0.
    pub fn from_bytes(bytes: &[u8]) -> Metadata
        ensures { result ≡ metadata_of bytes.now }
    {
        Metadata {
            stat: StatRecord::from_bytes(bytes),
        }
    }

    pub fn file_type(&self) -> FileType
        ensures { kind_of result ≡ bit_and (mode_in self.now) S_IFMT }
    {
        FileType::of_mode(self.mode())
    }

    /// Whether it is a directory.
    pub fn is_dir(&self) -> bool
        ensures { result ≡ (bit_and (mode_in self.now) S_IFMT == S_IFDIR) }
    {
        self.file_type().is_dir()
    }

    /// Whether it is a regular file.
    pub fn is_file(&self) -> bool
        ensures { result ≡ (bit_and (mode_in self.now) S_IFMT == S_IFREG) }
    {
        self.file_type().is_file()
    }

    /// Whether it is a symbolic link.
    pub fn is_symlink(&self) -> bool
        ensures { result ≡ (bit_and (mode_in self.now) S_IFMT == S_IFLNK) }
    {
        self.file_type().is_symlink()
    }

    /// Its length in bytes.
    pub fn len(&self) -> u64
        ensures { result ≡ (stat_of self.now).size }
    {
        self.stat.size
    }

    pub fn permissions(&self) -> Permissions
        ensures { mode_of result ≡ mode_in self.now }
    {
        Permissions::from_mode(self.mode())
    }

    /// The last change of its bytes.
    pub fn modified(&self) -> Moment
        ensures { result ≡ moment_of (stat_of self.now).mtime (stat_of self.now).mtime_nsec }
    {
        moment(self.stat.mtime, self.stat.mtime_nsec)
    }

    /// The last access.
    pub fn accessed(&self) -> Moment
        ensures { result ≡ moment_of (stat_of self.now).atime (stat_of self.now).atime_nsec }
    {
        moment(self.stat.atime, self.stat.atime_nsec)
    }

    /// Its birth, where the stat told it.
    pub fn created(&self) -> Result<Moment, FsError>
        ensures { result ≡ born (has_bits (stat_of self.now).mask STATX_BTIME) (stat_of self.now) }
    {
        if self.stat.mask & u64::from(STATX_BTIME) == u64::from(STATX_BTIME) {
            Ok(moment(self.stat.btime, self.stat.btime_nsec))
        } else {
            Err(FsError::NoBirthTime)
        }
    }

    /// The device.
    pub fn dev(&self) -> u64
        ensures { result ≡ (stat_of self.now).dev }
    {
        self.stat.dev
    }

    /// The number of the file on its device.
    pub fn ino(&self) -> u64
        ensures { result ≡ (stat_of self.now).ino }
    {
        self.stat.ino
    }

    /// Its kind, and who may read, write and execute it.
    pub fn mode(&self) -> u32
        ensures { result ≡ mode_in self.now }
    {
        low_word(self.stat.mode)
    }

    /// How many names it has.
    pub fn nlink(&self) -> u64
        ensures { result ≡ (stat_of self.now).nlink }
    {
        self.stat.nlink
    }

    pub fn uid(&self) -> u32
        ensures { result ≡ low_word (stat_of self.now).uid }
    {
        low_word(self.stat.uid)
    }

    pub fn gid(&self) -> u32
        ensures { result ≡ low_word (stat_of self.now).gid }
    {
        low_word(self.stat.gid)
    }

    /// What device it is, where it is one.
    pub fn rdev(&self) -> u64
        ensures { result ≡ (stat_of self.now).rdev }
    {
        self.stat.rdev
    }

    /// Its length in bytes.
    pub fn size(&self) -> u64
        ensures { result ≡ (stat_of self.now).size }
    {
        self.stat.size
    }

    /// The seconds of the last access.
    pub fn atime(&self) -> i64
        ensures { result ≡ cast_signed w64 (stat_of self.now).atime }
    {
        self.stat.atime.cast_signed()
    }

    /// The nanoseconds behind them.
    pub fn atime_nsec(&self) -> i64
        ensures { result ≡ cast_signed w64 (stat_of self.now).atime_nsec }
    {
        self.stat.atime_nsec.cast_signed()
    }

    /// The seconds of the last change of its bytes.
    pub fn mtime(&self) -> i64
        ensures { result ≡ cast_signed w64 (stat_of self.now).mtime }
    {
        self.stat.mtime.cast_signed()
    }

    /// The nanoseconds behind them.
    pub fn mtime_nsec(&self) -> i64
        ensures { result ≡ cast_signed w64 (stat_of self.now).mtime_nsec }
    {
        self.stat.mtime_nsec.cast_signed()
    }

    /// The seconds of the last change of what describes it.
    pub fn ctime(&self) -> i64
        ensures { result ≡ cast_signed w64 (stat_of self.now).ctime }
    {
        self.stat.ctime.cast_signed()
    }

    /// The nanoseconds behind them.
    pub fn ctime_nsec(&self) -> i64
        ensures { result ≡ cast_signed w64 (stat_of self.now).ctime_nsec }
    {
        self.stat.ctime_nsec.cast_signed()
    }

    /// A good size of reads and writes, in bytes.
    pub fn blksize(&self) -> u64
        ensures { result ≡ (stat_of self.now).blksize }
    {
        self.stat.blksize
    }

    /// How many blocks of 512 bytes it takes.
    pub fn blocks(&self) -> u64
        ensures { result ≡ (stat_of self.now).blocks }
    {
        self.stat.blocks
    }
}
