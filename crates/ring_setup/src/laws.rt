//! Laws of the sizes of a ring, each the contract of a function that does nothing.

ghost use Rattle.ring_setup.specs.Laws.{RoundsToLeastPowers, SizesAreLeastPowers};

/// A count is rounded up to the least power of two that is at least the count; and the sizes that
/// the parameters of a ring tell are the counts that were asked for, rounded up so.
pub fn sizes_are_powers_of_two()
    ensures rounded { RoundsToLeastPowers }
    ensures told { SizesAreLeastPowers }
{}
