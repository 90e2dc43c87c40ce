//! Completion entries of either size.

ghost use Rattle.std.specs.Prelude.{◌≡◌};
ghost use Rattle.uring_large.specs.Mixed.{completion_in, further_numbers, is_large_completion, mixed_completion, mixed_completion_numbered};
ghost use Rattle.uring_large.specs.MixedLaws.{completion_words_kept, completion_words_stay, further_numbers_stay, completion_size_stays, completion_restores};

use crate::completion_marker::EntryMarker;
use crate::cqueue::{Entry, Entry32};

/// A completion entry of a ring that has both sizes. A large one takes one slot, as a small one
/// does.
#[derive(Clone, Copy, PartialEq, Eq, Debug)]
pub enum MixedCompletion {
    Small(Entry),
    Large(Entry32),
}

/// The small entry, without the two further numbers of a large one.
impl From<MixedCompletion> for Entry {
    ghost from_gives = { λ mixed entry. entry ≡ completion_in mixed };

    fn from(mixed: MixedCompletion) -> Entry {
        match mixed {
            MixedCompletion::Small(entry) => entry,
            MixedCompletion::Large(large) => large.entry,
        }
    }
}

impl EntryMarker for MixedCompletion {
    ghost BUILD_FLAGS = { 0 };

    ghost entry_of = { completion_in };

    ghost big_of = { further_numbers };

    ghost large_of = { is_large_completion };

    ghost made_of = { mixed_completion };

    ghost words_kept = { completion_words_kept };

    ghost numbered = { mixed_completion_numbered };

    ghost becomes = { λ value entry gives. gives };

    ghost words_stay = { completion_words_stay };

    ghost big_stays = { further_numbers_stay };

    ghost large_stays = { completion_size_stays };

    ghost restores = { completion_restores };

    const BUILD_FLAGS: u32 = 0;

    fn user_data(&self) -> u64 {
        match self {
            MixedCompletion::Small(entry) => entry.user_data,
            MixedCompletion::Large(large) => large.entry.user_data,
        }
    }

    fn set_user_data(&mut self, user_data: u64) {
        match self {
            MixedCompletion::Small(entry) => entry.user_data = user_data,
            MixedCompletion::Large(large) => large.entry.user_data = user_data,
        }
    }

    fn from_posted(
        user_data: u64,
        outcome: i32,
        flags: u32,
        large: bool,
        big: [u64; 2],
    ) -> MixedCompletion {
        if large {
            MixedCompletion::Large(Entry32::from_parts(user_data, outcome, flags, big))
        } else {
            MixedCompletion::Small(Entry::from_parts(user_data, outcome, flags, big))
        }
    }

    fn big(&self) -> [u64; 2] {
        match self {
            MixedCompletion::Small(_entry) => [0; 2],
            MixedCompletion::Large(large) => large.big,
        }
    }

    fn is_large(&self) -> bool {
        matches!(self, MixedCompletion::Large(_))
    }
}
