//! What submission entries of both sizes have in common.

ghost use Rattle.std.specs.Prelude.{◌≡◌, ℕ, Bool, true, false, List, refl, replicate};
ghost use Rattle.std.proofs.Common.{ap};
ghost use Rattle.uring_large.specs.Numbers.{entry_numbered, large_entry_numbered};
ghost use Rattle.uring_base.specs.declared.squeue.Entry.{Entry};
ghost use Rattle.uring_large.specs.declared.entry_marker.TheConstants.{SETUP_SQE128};

use crate::squeue::{Entry, Entry128};

/// The setup bit of a ring of entries of 128 bytes (`IORING_SETUP_SQE128`).
pub const SETUP_SQE128: u32 = 1024;

/// A form of submission entry: small ones, large ones, or both. It is made from a small entry, and
/// holds one.
pub trait EntryMarker: Clone + From<Entry> + Sized {
    // The setup bit of a ring of these entries.
    ghost BUILD_FLAGS: { ℕ };

    // The small entry that a value holds.
    ghost entry_of: { Self → Entry };

    // The 64 bytes behind the small entry, zeros where it has none.
    ghost big_of: { Self → List ℕ };

    // Whether a value is a large entry.
    ghost large_of: { Self → Bool };

    // Whether what is made from a small entry is a large one.
    ghost made_large: { Bool };

    // A value with another number, all else as it was.
    ghost numbered: { Self → ℕ → Self };

    /// The bit that the setup of a ring of these entries needs: 0, or `SETUP_SQE128`.
    const BUILD_FLAGS: u32;

    /// Sets the number that comes back with the completion.
    fn set_user_data(&mut self, user_data: u64)
        ensures { self.new ≡ numbered self.old user_data };

    /// The number that comes back with the completion.
    fn get_user_data(&self) -> u64
        ensures { result ≡ (entry_of self.now).user_data };

    /// The small entry that the value holds.
    fn base(&self) -> Entry
        ensures { result ≡ entry_of self.now };

    /// The 64 bytes behind the small entry, which are zeros where it has none.
    fn big(&self) -> [u8; 64]
        ensures { result ≡ big_of self.now };

    /// Whether the value is a large entry.
    fn is_large(&self) -> bool
        ensures { result ≡ large_of self.now };

    // A value that is made from a small entry holds that entry, has zeros behind it, and has the same size each time.
    ghost holds: { (entry : Entry) (value : Self) → Self.From.from_gives entry value → entry_of value ≡ entry };

    ghost blank_behind: { (entry : Entry) (value : Self) → Self.From.from_gives entry value → big_of value ≡ replicate 64 0 };

    ghost sized: { (entry : Entry) (value : Self) → Self.From.from_gives entry value → large_of value ≡ made_large };

    // The number that was set is read, and the other words of the small entry stay, as do the bytes behind it and the size.
    ghost words_stay: { (value : Self) (number : ℕ) → entry_of (numbered value number) ≡ entry_numbered (entry_of value) number };

    ghost big_stays: { (value : Self) (number : ℕ) → big_of (numbered value number) ≡ big_of value };

    ghost large_stays: { (value : Self) (number : ℕ) → large_of (numbered value number) ≡ large_of value };

    // Nothing but the number changes: setting it back restores the value.
    ghost restores: { (value : Self) (number : ℕ) → numbered (numbered value number) (entry_of value).user_data ≡ value };
}

impl EntryMarker for Entry {
    ghost BUILD_FLAGS = { 0 };

    ghost entry_of = { λ entry. entry };

    ghost big_of = { λ entry. replicate 64 0 };

    ghost large_of = { λ entry. false };

    ghost made_large = { false };

    ghost numbered = { entry_numbered };

    ghost holds = { λ entry value gives. gives };

    ghost blank_behind = { λ entry value gives. refl };

    ghost sized = { λ entry value gives. refl };

    ghost large_stays = { λ value number. refl };

    ghost words_stay = { λ value number. refl };

    ghost big_stays = { λ value number. refl };

    ghost restores = { λ value number. refl };

    const BUILD_FLAGS: u32 = 0;

    fn set_user_data(&mut self, user_data: u64) {
        self.user_data = user_data;
    }

    fn get_user_data(&self) -> u64 {
        self.user_data
    }

    fn base(&self) -> Entry {
        *self
    }

    fn big(&self) -> [u8; 64] {
        [0; 64]
    }

    fn is_large(&self) -> bool {
        false
    }
}

impl EntryMarker for Entry128 {
    ghost BUILD_FLAGS = { SETUP_SQE128 };

    ghost entry_of = { λ large. large.entry };

    ghost big_of = { λ large. large.big };

    ghost large_of = { λ large. true };

    ghost made_large = { true };

    ghost numbered = { large_entry_numbered };

    ghost holds = { λ entry value gives. ap (λ large. large.entry) gives };

    ghost blank_behind = { λ entry value gives. ap (λ large. large.big) gives };

    ghost sized = { λ entry value gives. refl };

    ghost large_stays = { λ value number. refl };

    ghost words_stay = { λ value number. refl };

    ghost big_stays = { λ value number. refl };

    ghost restores = { λ value number. refl };

    const BUILD_FLAGS: u32 = SETUP_SQE128;

    fn set_user_data(&mut self, user_data: u64) {
        self.entry.user_data = user_data;
    }

    fn get_user_data(&self) -> u64 {
        self.entry.user_data
    }

    fn base(&self) -> Entry {
        self.entry
    }

    fn big(&self) -> [u8; 64] {
        self.big
    }

    fn is_large(&self) -> bool {
        true
    }
}
