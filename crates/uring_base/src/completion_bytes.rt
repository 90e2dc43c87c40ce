//! Completion entries as bytes.

ghost use Rattle.std.specs.Prelude.{◌≡◌, ◌≤◌, length};
ghost use Rattle.uring_base.specs.Layouts.{completion_at, completion_bytes};

use crate::cqueue::Entry;
use crate::words::{long_from, word_from};

impl Entry {
    /// The 16 bytes of the entry, as a Linux kernel writes them: the lowest byte of each word first.
    pub fn to_bytes(&self) -> [u8; 16]
        ensures value { result ≡ completion_bytes self.now }
        ensures inverse { completion_at result ≡ self.now }
    {
        let user = self.user_data.to_le_bytes();
        let code = self.result.to_le_bytes();
        let flags = self.flags.to_le_bytes();
        [
            user[0], user[1], user[2], user[3], user[4], user[5], user[6], user[7], code[0],
            code[1], code[2], code[3], flags[0], flags[1], flags[2], flags[3],
        ]
    }

    /// The entry that 16 bytes hold.
    pub fn from_bytes(bytes: &[u8; 16]) -> Entry
        ensures value { result ≡ completion_at bytes.now }
        ensures inverse { completion_bytes result ≡ bytes.now }
    {
        Entry::read(bytes)
    }

    // The entry, word by word.
    fn read(bytes: &[u8]) -> Entry
        requires { 16 ≤ length bytes.now }
        ensures { result ≡ completion_at bytes.now }
    {
        Entry {
            user_data: long_from(bytes, 0),
            result: word_from(bytes, 8).cast_signed(),
            flags: word_from(bytes, 12),
        }
    }
}
