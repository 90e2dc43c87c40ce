//! What completion entries of both sizes have in common.

ghost use Rattle.std.specs.Prelude.{◌≡◌, ◌∷◌, [], ℕ, ℤ, Bool, true, false, List, refl};
ghost use Rattle.uring_large.specs.Numbers.{completion_numbered, large_completion_numbered};
ghost use Rattle.uring_base.specs.declared.cqueue.Entry.{Entry};
ghost use Rattle.uring_large.specs.declared.completion_marker.TheConstants.{SETUP_CQE32};

use crate::cqueue::{Entry, Entry32};

/// The setup bit of a ring of completions of 32 bytes (`IORING_SETUP_CQE32`).
pub const SETUP_CQE32: u32 = 2048;

/// A form of completion entry: small ones, large ones, or both. It holds a small entry, and can be
/// made into it.
pub trait EntryMarker: Clone + Into<Entry> + Sized {
    // The setup bit of a ring of these entries.
    ghost BUILD_FLAGS: { ℕ };

    // The small entry that a value holds.
    ghost entry_of: { Self → Entry };

    // The two further numbers, zeros where it has none.
    ghost big_of: { Self → List ℕ };

    // Whether a value is a large entry.
    ghost large_of: { Self → Bool };

    // A value of these words, large where that is asked for, as far as it has a place for them.
    ghost made_of: { ℕ → ℤ → ℕ → Bool → List ℕ → Self };

    // A value with another number, all else as it was.
    ghost numbered: { Self → ℕ → Self };

    /// The bit that the setup of a ring of these entries needs: 0, or `SETUP_CQE32`.
    const BUILD_FLAGS: u32;

    /// The number that the submission entry carried.
    fn user_data(&self) -> u64
        ensures { result ≡ (entry_of self.now).user_data };

    /// Changes the number alone.
    fn set_user_data(&mut self, user_data: u64)
        ensures { self.new ≡ numbered self.old user_data };

    /// A completion of these words as a ring keeps it: a large one where that is asked for, in a
    /// ring of both sizes. The two further numbers are left out where it has no place for them.
    fn from_posted(user_data: u64, outcome: i32, flags: u32, large: bool, big: [u64; 2]) -> Self
        ensures { result ≡ made_of user_data outcome flags large big };

    /// The two further numbers, which are zeros where it has none.
    fn big(&self) -> [u64; 2]
        ensures { result ≡ big_of self.now };

    /// Whether the value is a large entry.
    fn is_large(&self) -> bool
        ensures { result ≡ large_of self.now };

    // The words that a value is made of are those of its small entry.
    ghost words_kept: { (user_data : ℕ) (outcome : ℤ) (flags : ℕ) (large : Bool) (big : List ℕ)
        → entry_of (made_of user_data outcome flags large big) ≡ record { user_data = user_data; result = outcome; flags = flags } };

    // What a value is made into is the small entry that it holds.
    ghost becomes: { (value : Self) (entry : Entry) → Self.Into.converts value entry → entry ≡ entry_of value };

    // The number that was set is read, and the other words of the small entry stay, as do the two further numbers and the size.
    ghost words_stay: { (value : Self) (number : ℕ) → entry_of (numbered value number) ≡ completion_numbered (entry_of value) number };

    ghost big_stays: { (value : Self) (number : ℕ) → big_of (numbered value number) ≡ big_of value };

    ghost large_stays: { (value : Self) (number : ℕ) → large_of (numbered value number) ≡ large_of value };

    // Nothing but the number changes: setting it back restores the value.
    ghost restores: { (value : Self) (number : ℕ) → numbered (numbered value number) (entry_of value).user_data ≡ value };
}

impl EntryMarker for Entry {
    ghost BUILD_FLAGS = { 0 };

    ghost entry_of = { λ entry. entry };

    ghost big_of = { λ entry. 0 ∷ 0 ∷ [] };

    ghost large_of = { λ entry. false };

    ghost made_of = { λ user_data outcome flags large big. record { user_data = user_data; result = outcome; flags = flags } };

    ghost words_kept = { λ user_data outcome flags large big. refl };

    ghost large_stays = { λ value number. refl };

    ghost numbered = { completion_numbered };

    ghost becomes = { λ value entry gives. gives };

    ghost words_stay = { λ value number. refl };

    ghost big_stays = { λ value number. refl };

    ghost restores = { λ value number. refl };

    const BUILD_FLAGS: u32 = 0;

    fn user_data(&self) -> u64 {
        self.user_data
    }

    fn set_user_data(&mut self, user_data: u64) {
        self.user_data = user_data;
    }

    fn from_posted(user_data: u64, outcome: i32, flags: u32, _large: bool, big: [u64; 2]) -> Entry {
        Entry::from_parts(user_data, outcome, flags, big)
    }

    fn big(&self) -> [u64; 2] {
        [0; 2]
    }

    fn is_large(&self) -> bool {
        false
    }
}

impl EntryMarker for Entry32 {
    ghost BUILD_FLAGS = { SETUP_CQE32 };

    ghost entry_of = { λ large. large.entry };

    ghost big_of = { λ large. large.big };

    ghost large_of = { λ large. true };

    ghost made_of = { λ user_data outcome flags large big. record { entry = record { user_data = user_data; result = outcome; flags = flags }; big = big } };

    ghost words_kept = { λ user_data outcome flags large big. refl };

    ghost large_stays = { λ value number. refl };

    ghost numbered = { large_completion_numbered };

    ghost becomes = { λ value entry gives. gives };

    ghost words_stay = { λ value number. refl };

    ghost big_stays = { λ value number. refl };

    ghost restores = { λ value number. refl };

    const BUILD_FLAGS: u32 = SETUP_CQE32;

    fn user_data(&self) -> u64 {
        self.entry.user_data
    }

    fn set_user_data(&mut self, user_data: u64) {
        self.entry.user_data = user_data;
    }

    fn from_posted(
        user_data: u64,
        outcome: i32,
        flags: u32,
        _large: bool,
        big: [u64; 2],
    ) -> Entry32 {
        Entry32::from_parts(user_data, outcome, flags, big)
    }

    fn big(&self) -> [u64; 2] {
        self.big
    }

    fn is_large(&self) -> bool {
        true
    }
}
