//! Submission entries as bytes.

ghost use Rattle.std.specs.Prelude.{◌≡◌};
ghost use Rattle.uring_base.specs.Layouts.{entry_at, entry_bytes, FitsHigh, FitsLow};

use crate::squeue::Entry;
use crate::words::{half_from, long_from, word_from};

impl Entry {
    /// The 64 bytes of the entry, as they lie in memory that a Linux kernel reads: the lowest byte
    /// of each word first.
    pub fn to_bytes(&self) -> [u8; 64]
        ensures value { result ≡ entry_bytes self.now }
        ensures inverse { entry_at result ≡ self.now }
    {
        let bytes = self.written();
        self.keep_low();
        self.keep_high();
        bytes
    }

    // The words from `prio` to `user_data` fit their types.
    fn keep_low(&self)
        ensures { FitsLow self.now }
    {
        let _prio = self.prio;
        let _fd = self.fd;
        let _off = self.off;
        let _addr = self.addr;
        let _len = self.len;
        let _op = self.op;
        let _user_data = self.user_data;
    }

    // The words from `buf` to `fourth` fit their types.
    fn keep_high(&self)
        ensures { FitsHigh self.now }
    {
        let _buf = self.buf;
        let _personality = self.personality;
        let _idx = self.idx;
        let _third = self.third;
        let _fourth = self.fourth;
    }

    // The bytes of the entry, word by word.
    fn written(&self) -> [u8; 64]
        ensures { result ≡ entry_bytes self.now }
    {
        let (code, mark) = (self.opcode, self.flags);
        let prio = self.prio.to_le_bytes();
        let fd = self.fd.to_le_bytes();
        let off = self.off.to_le_bytes();
        let addr = self.addr.to_le_bytes();
        let len = self.len.to_le_bytes();
        let op = self.op.to_le_bytes();
        let user = self.user_data.to_le_bytes();
        let buf = self.buf.to_le_bytes();
        let creds = self.personality.to_le_bytes();
        let idx = self.idx.to_le_bytes();
        let third = self.third.to_le_bytes();
        let last = self.fourth.to_le_bytes();
        [
            code, mark, prio[0], prio[1], fd[0], fd[1], fd[2], fd[3], off[0], off[1], off[2],
            off[3], off[4], off[5], off[6], off[7], addr[0], addr[1], addr[2], addr[3], addr[4],
            addr[5], addr[6], addr[7], len[0], len[1], len[2], len[3], op[0], op[1], op[2], op[3],
            user[0], user[1], user[2], user[3], user[4], user[5], user[6], user[7], buf[0], buf[1],
            creds[0], creds[1], idx[0], idx[1], idx[2], idx[3], third[0], third[1], third[2],
            third[3], third[4], third[5], third[6], third[7], last[0], last[1], last[2], last[3],
            last[4], last[5], last[6], last[7],
        ]
    }

    /// The entry that 64 bytes hold.
    pub fn from_bytes(bytes: &[u8; 64]) -> Entry
        ensures value { result ≡ entry_at bytes.now }
        ensures inverse { entry_bytes result ≡ bytes.now }
    {
        Entry::read(bytes)
    }

    // The entry, word by word.
    fn read(bytes: &[u8; 64]) -> Entry
        ensures { result ≡ entry_at bytes.now }
    {
        Entry {
            opcode: bytes[0],
            flags: bytes[1],
            prio: half_from(bytes, 2),
            fd: word_from(bytes, 4).cast_signed(),
            off: long_from(bytes, 8),
            addr: long_from(bytes, 16),
            len: word_from(bytes, 24),
            op: word_from(bytes, 28),
            user_data: long_from(bytes, 32),
            buf: half_from(bytes, 40),
            personality: half_from(bytes, 42),
            idx: word_from(bytes, 44),
            third: long_from(bytes, 48),
            fourth: long_from(bytes, 56),
        }
    }
}
