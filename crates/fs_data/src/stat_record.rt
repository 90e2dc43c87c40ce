//! What a stat tells, as it is posted.

ghost use Rattle.std.specs.Prelude.{◌≡◌, ◌+◌, ◌<◌, ◌^◌};
ghost use Rattle.fs_data.specs.Records.{byte_at, record_of, stat_word};

/// How many bytes tell what a stat tells: nineteen words of eight bytes, the lowest byte first.
pub const STAT_RECORD_LEN: usize = 152;

/// What a stat tells, word by word in the order of the bytes.
#[derive(Clone, Copy, PartialEq, Eq, Debug)]
pub struct StatRecord {
    /// The device.
    pub dev: u64,
    /// The number of the file on its device.
    pub ino: u64,
    pub mode: u64,
    /// How many names it has.
    pub nlink: u64,
    pub uid: u64,
    pub gid: u64,
    /// What device it is, where it is one.
    pub rdev: u64,
    /// Its length in bytes.
    pub size: u64,
    /// A good size of reads and writes, in bytes.
    pub blksize: u64,
    /// How many blocks of 512 bytes it takes.
    pub blocks: u64,
    /// The last access: seconds, and nanoseconds behind them.
    pub atime: u64,
    pub atime_nsec: u64,
    /// The last change of its bytes.
    pub mtime: u64,
    pub mtime_nsec: u64,
    /// The last change of what describes it.
    pub ctime: u64,
    pub ctime_nsec: u64,
    /// Its birth.
    pub btime: u64,
    pub btime_nsec: u64,
    /// Which of these are told, `STATX_` bits of `linux/stat.h`.
    pub mask: u64,
}

/// A byte, and 0 for a missing one.
fn byte_at(bytes: &[u8], at: usize) -> u8
    ensures { result ≡ byte_at bytes.now at }
{
    match bytes.get(at) {
        Some(byte) => *byte,
        None => 0,
    }
}

/// The word of eight bytes from a place on.
fn word_at(bytes: &[u8], at: usize) -> u64
    requires { at + 8 < 2 ^ 32 }
    ensures { result ≡ stat_word bytes.now at }
{
    u64::from_le_bytes([
        byte_at(bytes, at),
        byte_at(bytes, at + 1),
        byte_at(bytes, at + 2),
        byte_at(bytes, at + 3),
        byte_at(bytes, at + 4),
        byte_at(bytes, at + 5),
        byte_at(bytes, at + 6),
        byte_at(bytes, at + 7),
    ])
}

impl StatRecord {
    /// The record of the first `STAT_RECORD_LEN` bytes; a missing one counts as 0.
    pub fn from_bytes(bytes: &[u8]) -> StatRecord
        ensures { result ≡ record_of bytes.now }
    {
        StatRecord {
            dev: word_at(bytes, 0),
            ino: word_at(bytes, 8),
            mode: word_at(bytes, 16),
            nlink: word_at(bytes, 24),
            uid: word_at(bytes, 32),
            gid: word_at(bytes, 40),
            rdev: word_at(bytes, 48),
            size: word_at(bytes, 56),
            blksize: word_at(bytes, 64),
            blocks: word_at(bytes, 72),
            atime: word_at(bytes, 80),
            atime_nsec: word_at(bytes, 88),
            mtime: word_at(bytes, 96),
            mtime_nsec: word_at(bytes, 104),
            ctime: word_at(bytes, 112),
            ctime_nsec: word_at(bytes, 120),
            btime: word_at(bytes, 128),
            btime_nsec: word_at(bytes, 136),
            mask: word_at(bytes, 144),
        }
    }
}
