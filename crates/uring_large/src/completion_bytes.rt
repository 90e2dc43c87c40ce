//! Large completion entries as bytes.

ghost use Rattle.std.specs.Prelude.{◌≡◌};
ghost use Rattle.uring_large.specs.Layouts.{large_completion_at, large_completion_bytes, FitsLarge};

use crate::cqueue::{Entry, Entry32};
use uring_base::words::long_from;

impl Entry32 {
    /// The 32 bytes of the entry: those of a small one, and then the two further numbers.
    pub fn to_bytes(&self) -> [u8; 32]
        ensures value { result ≡ large_completion_bytes self.now }
        ensures inverse { large_completion_at result ≡ self.now }
    {
        let bytes = self.written();
        self.keep_words();
        bytes
    }

    // The words fit their types.
    fn keep_words(&self)
        ensures { FitsLarge self.now }
    {
        let _user_data = self.entry.user_data;
        let _outcome = self.entry.result;
        let _flags = self.entry.flags;
        let _front = self.big[0];
        let _back = self.big[1];
    }

    // The bytes of the entry, word by word.
    fn written(&self) -> [u8; 32]
        ensures { result ≡ large_completion_bytes self.now }
    {
        let mut bytes = [0; 32];
        bytes[..16].copy_from_slice(&self.entry.to_bytes());
        bytes[16..24].copy_from_slice(&self.big[0].to_le_bytes());
        bytes[24..].copy_from_slice(&self.big[1].to_le_bytes());
        bytes
    }

    /// The entry that 32 bytes hold.
    pub fn from_bytes(bytes: &[u8; 32]) -> Entry32
        ensures value { result ≡ large_completion_at bytes.now }
        ensures inverse { large_completion_bytes result ≡ bytes.now }
    {
        let head: &[u8; 16] = bytes.first_chunk().unwrap();
        Entry32 {
            entry: Entry::from_bytes(head),
            big: [long_from(bytes, 16), long_from(bytes, 24)],
        }
    }
}
