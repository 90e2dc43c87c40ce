//! Slots of the table of registered files.

ghost use Rattle.std.specs.Prelude.{◌≡◌, ◌≢◌, ◌+◌, ◌≤◌, ◌↔◌, IfOk, IsOk, MatchResult};

use std::marker::Model;

/// The number of a free slot that the partner chooses (`IORING_FILE_INDEX_ALLOC`).
pub const ANY_SLOT: u32 = 0xffff_ffff;

/// The greatest index of a slot: its number is the last before `ANY_SLOT`.
pub const MAX_SLOT: u32 = ANY_SLOT - 2;

/// Where an operation puts a new registered file, seen as the number that an entry holds for it:
/// the slot's index plus 1, or `ANY_SLOT` where the partner chooses a free slot. An entry without a
/// slot holds 0.
#[derive(Clone, Copy)]
pub struct DestinationSlot {
    argument: u32,
}

impl Model for DestinationSlot {
    ghost use Rattle.std.specs.Prelude.{ℕ};

    ghost Value = { ℕ };

    ghost view = { λ slot. slot.argument };

    ghost inverse = { λ argument. record { argument = argument } };
}

impl DestinationSlot {
    /// A free slot that the partner chooses.
    pub fn auto_target() -> DestinationSlot
        ensures { result ≡ ANY_SLOT }
    {
        DestinationSlot { argument: ANY_SLOT }
    }

    /// The slot of an index, counted from 0. An index above `MAX_SLOT` is given back, since the
    /// number of its slot would be the mark of a chosen one, or none at all.
    pub fn try_from_slot_target(target: u32) -> Result<DestinationSlot, u32>
        ensures accepted { IsOk result ↔ (target ≤ MAX_SLOT) }
        ensures unmarked { IfOk result (λ slot. slot ≢ ANY_SLOT) }
        ensures value { MatchResult result (λ slot. slot ≡ target + 1) (λ back. back ≡ target) }
    {
        if target > MAX_SLOT {
            return Err(target);
        }
        Ok(DestinationSlot {
            argument: target + 1,
        })
    }

    /// The number that an entry holds for the slot.
    pub fn kernel_index_arg(&self) -> u32
        ensures { result ≡ self.now }
    {
        self.argument
    }
}
