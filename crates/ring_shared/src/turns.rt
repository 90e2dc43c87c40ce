//! Turns of what a seat holds.

ghost use Rattle.std.specs.Prelude.{◌≡◌};
ghost use Rattle.ring_shared.specs.HeldSlots.{turned_times};

use crate::view::SeatView;
use atomic_table::Seat;

/// The first `count` slots go behind the others.
pub(crate) fn turn_slots<T>(seat: &mut Seat<Option<T>, SeatView<T>>, count: u32)
    ensures { (seat.new.table_id ≡ seat.old.table_id) × (seat.new.id ≡ seat.old.id) × (seat.new.me ≡ (seat.old.me.0, turned_times count seat.old.me.1)) }
{
    let mut left = count;
    while left > 0 {
        seat.turn();
        left -= 1;
    }
}
