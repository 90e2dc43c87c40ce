//! A ring with both ends in one thread: one seat has both parts.

ghost use Rattle.std.specs.Prelude.{◌≡◌};
ghost use Rattle.ring_shared.specs.LocalSound.{LocalIsSound};

use crate::view::{RingRule, RingShape, SeatView};
use atomic_table::{Seat, Table};
use std::alloc::Global;

/// A ring over atomic words and slots with both its ends, for one thread.
#[derive(Drop)]
pub struct LocalRing<T> {
    pub(crate) table: Table<Option<T>, SeatView<T>, RingShape, RingRule, Global>,
    pub(crate) seat: Seat<Option<T>, SeatView<T>>,
    pub(crate) capacity: u32,
    pub(crate) next_put: u32,
    pub(crate) tail: u32,
    pub(crate) head_seen: u32,
    pub(crate) next_take: u32,
    pub(crate) head: u32,
    pub(crate) tail_seen: u32,
    pub(crate) ghost word_count: { table.shared.table_id.words ≡ 2 },
    pub(crate) ghost own_seat: { seat.table_id ≡ table.shared.table_id },
    pub(crate) ghost sound: { LocalIsSound seat.me capacity next_put tail head_seen next_take head tail_seen },
}
