//! Submission entries of either size.

ghost use Rattle.std.specs.Prelude.{◌≡◌};
ghost use Rattle.std.proofs.Common.{refl, ap};
ghost use Rattle.uring_large.specs.Mixed.{entry_in, bytes_behind, is_large_entry, mixed_entry_numbered};
ghost use Rattle.uring_large.specs.MixedLaws.{entry_words_stay, bytes_behind_stay, entry_size_stays, entry_restores};
ghost use Rattle.uring_large.specs.declared.mixed_entry.MixedEntry.TheVariants.{Small, Large};

use crate::entry_marker::EntryMarker;
use crate::squeue::{Entry, Entry128};

/// A submission entry of a ring that has both sizes. A large one takes one slot, as a small one
/// does.
#[derive(Clone, Copy, PartialEq, Eq, Debug)]
pub enum MixedEntry {
    Small(Entry),
    Large(Entry128),
}

impl From<Entry> for MixedEntry {
    ghost from_gives = { λ entry mixed. mixed ≡ Small entry };

    fn from(entry: Entry) -> MixedEntry {
        MixedEntry::Small(entry)
    }
}

impl From<Entry128> for MixedEntry {
    ghost from_gives = { λ large mixed. mixed ≡ Large large };

    fn from(large: Entry128) -> MixedEntry {
        MixedEntry::Large(large)
    }
}

impl EntryMarker for MixedEntry {
    ghost use Rattle.std.specs.Prelude.{false};

    ghost BUILD_FLAGS = { 0 };

    ghost entry_of = { entry_in };

    ghost big_of = { bytes_behind };

    ghost large_of = { is_large_entry };

    ghost made_large = { false };

    ghost numbered = { mixed_entry_numbered };

    ghost holds = { λ entry value gives. ap entry_in gives };

    ghost blank_behind = { λ entry value gives. ap bytes_behind gives };

    ghost sized = { λ entry value gives. ap is_large_entry gives };

    ghost words_stay = { entry_words_stay };

    ghost big_stays = { bytes_behind_stay };

    ghost large_stays = { entry_size_stays };

    ghost restores = { entry_restores };

    const BUILD_FLAGS: u32 = 0;

    fn set_user_data(&mut self, user_data: u64) {
        match self {
            MixedEntry::Small(entry) => entry.user_data = user_data,
            MixedEntry::Large(large) => large.entry.user_data = user_data,
        }
    }

    fn get_user_data(&self) -> u64 {
        match self {
            MixedEntry::Small(entry) => entry.user_data,
            MixedEntry::Large(large) => large.entry.user_data,
        }
    }

    fn base(&self) -> Entry {
        match self {
            MixedEntry::Small(entry) => *entry,
            MixedEntry::Large(large) => large.entry,
        }
    }

    fn big(&self) -> [u8; 64] {
        match self {
            MixedEntry::Small(_entry) => [0; 64],
            MixedEntry::Large(large) => large.big,
        }
    }

    fn is_large(&self) -> bool {
        matches!(self, MixedEntry::Large(_))
    }
}
