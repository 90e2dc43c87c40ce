//! Large submission entries as bytes.

ghost use Rattle.std.specs.Prelude.{◌≡◌};
ghost use Rattle.uring_large.specs.Layouts.{large_entry_at, large_entry_bytes};

use crate::squeue::{Entry, Entry128};

impl Entry128 {
    /// The 128 bytes of the entry: those of a small one, and then the 64 others.
    pub fn to_bytes(&self) -> [u8; 128]
        ensures value { result ≡ large_entry_bytes self.now }
        ensures inverse { large_entry_at result ≡ self.now }
    {
        let head = self.entry.to_bytes();
        let mut bytes = [0; 128];
        bytes[..64].copy_from_slice(&head);
        bytes[64..].copy_from_slice(&self.big);
        bytes
    }

    /// The entry that 128 bytes hold.
    pub fn from_bytes(bytes: &[u8; 128]) -> Entry128
        ensures value { result ≡ large_entry_at bytes.now }
        ensures inverse { large_entry_bytes result ≡ bytes.now }
    {
        let head: &[u8; 64] = bytes.first_chunk().unwrap();
        let rest: &[u8; 64] = bytes.last_chunk().unwrap();
        Entry128 {
            entry: Entry::from_bytes(head),
            big: *rest,
        }
    }
}
