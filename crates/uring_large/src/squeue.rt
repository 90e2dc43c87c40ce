//! Submission entries of 128 bytes, those of either size, and what all have in common.

ghost use Rattle.std.specs.Prelude.{◌≡◌, bit_or, replicate};
ghost use Rattle.uring_base.specs.FlagBits.{bits_in};
ghost use Rattle.uring_large.specs.Numbers.{large_entry_numbered};

pub use crate::entry_marker::{EntryMarker, SETUP_SQE128};
pub use crate::mixed_entry::MixedEntry;
pub use uring_base::squeue::Entry;
use uring_base::squeue::Flags;

/// A submission entry of 128 bytes: the words of a small one, and the 64 bytes behind them, which
/// only a command of 80 bytes uses.
#[derive(Clone, Copy, PartialEq, Eq, Debug)]
pub struct Entry128 {
    pub entry: Entry,
    pub big: [u8; 64],
}

impl From<Entry> for Entry128 {
    ghost from_gives = { λ entry large. large ≡ record { entry = entry; big = replicate 64 0 } };

    fn from(entry: Entry) -> Entry128 {
        Entry128 {
            entry,
            big: [0; 64],
        }
    }
}

impl Entry128 {
    /// Adds flags to those that are set.
    pub fn flags(self, flags: Flags) -> Entry128
        ensures { result ≡ record self { entry = record self.entry { flags = bit_or self.entry.flags (bits_in flags) } } }
    {
        Entry128 {
            entry: self.entry.flags(flags),
            ..self
        }
    }

    /// Clears all flags, also those that a builder set.
    pub fn clear_flags(self) -> Entry128
        ensures { result ≡ record self { entry = record self.entry { flags = 0 } } }
    {
        Entry128 {
            entry: self.entry.clear_flags(),
            ..self
        }
    }

    /// Sets the number that comes back with the completion.
    pub fn user_data(mut self, user_data: u64) -> Entry128
        ensures { result ≡ large_entry_numbered self user_data }
    {
        self.entry.user_data = user_data;
        self
    }

    /// Sets the number that comes back with the completion, in place.
    pub fn set_user_data(&mut self, user_data: u64)
        ensures { self.new ≡ large_entry_numbered self.old user_data }
    {
        self.entry.user_data = user_data;
    }

    /// The number that comes back with the completion.
    pub fn get_user_data(&self) -> u64
        ensures { result ≡ self.now.entry.user_data }
    {
        self.entry.user_data
    }

    /// The operation code.
    pub fn get_opcode(&self) -> u32
        ensures { result ≡ self.now.entry.opcode }
    {
        self.entry.get_opcode()
    }

    /// Sets the registered credentials that the operation runs with.
    pub fn personality(mut self, personality: u16) -> Entry128
        ensures { result ≡ record self { entry = record self.entry { personality = personality } } }
    {
        self.entry.personality = personality;
        self
    }
}
