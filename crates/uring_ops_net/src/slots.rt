//! The index word of an operation that may put a new socket into a slot.

ghost use Rattle.std.specs.Prelude.{◌≡◌, unwrap_or};

use uring_types::DestinationSlot;

/// The number of a slot, and 0 where there is none.
pub fn slot_word(slot: Option<DestinationSlot>) -> u32
    ensures { result ≡ unwrap_or slot 0 }
{
    slot.map_or(0, |slot| slot.kernel_index_arg())
}
