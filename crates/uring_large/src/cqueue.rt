//! Completion entries of 32 bytes, those of either size, and what all have in common.

ghost use Rattle.std.specs.Prelude.{◌≡◌};
ghost use Rattle.uring_large.specs.Numbers.{large_completion_numbered};

pub use crate::completion_marker::{EntryMarker, SETUP_CQE32};
pub use crate::mixed_completion::MixedCompletion;
pub use uring_base::cqueue::Entry;

/// A completion entry of 32 bytes: the words of a small one, and two numbers of the operation's
/// own behind them.
#[derive(Clone, Copy, PartialEq, Eq, Debug)]
pub struct Entry32 {
    pub entry: Entry,
    pub big: [u64; 2],
}

/// The small entry of a large one, without its two further numbers.
impl From<Entry32> for Entry {
    ghost from_gives = { λ large entry. entry ≡ large.entry };

    fn from(large: Entry32) -> Entry {
        large.entry
    }
}

impl Entry32 {
    /// The entry of these words.
    pub fn from_parts(user_data: u64, outcome: i32, flags: u32, big: [u64; 2]) -> Entry32
        ensures { result ≡ record { entry = record { user_data = user_data; result = outcome; flags = flags }; big = big } }
    {
        Entry32 {
            entry: Entry {
                user_data,
                result: outcome,
                flags,
            },
            big,
        }
    }

    /// The operation's result: a count or number, or an errno below 0.
    pub fn result(&self) -> i32
        ensures { result ≡ self.now.entry.result }
    {
        self.entry.result
    }

    /// The number that the submission entry carried.
    pub fn user_data(&self) -> u64
        ensures { result ≡ self.now.entry.user_data }
    {
        self.entry.user_data
    }

    /// Changes the number alone.
    pub fn set_user_data(&mut self, user_data: u64)
        ensures { self.new ≡ large_completion_numbered self.old user_data }
    {
        self.entry.user_data = user_data;
    }

    /// The completion's flags.
    pub fn flags(&self) -> u32
        ensures { result ≡ self.now.entry.flags }
    {
        self.entry.flags
    }

    /// The two further numbers, whose meaning is the operation's own.
    pub fn big_cqe(&self) -> &[u64; 2]
        ensures { result.now ≡ self.now.big }
    {
        &self.big
    }
}
