//! A ring and its two ends.

ghost use Rattle.std.specs.Prelude.{◌≡◌};
ghost use Rattle.ring_shared.specs.Sound.{SenderIsSound, TakerIsSound};

use crate::view::{RingRule, RingShape, SeatView};
use atomic_table::{Seat, Table};
use std::alloc::Global;

/// A ring whose two ends may be on two threads. It owns the two words, tail and head, and the slots.
#[derive(Drop)]
pub struct SharedRing<T> {
    pub(crate) table: Table<Option<T>, SeatView<T>, RingShape, RingRule, Global>,
    pub(crate) ghost word_count: { table.shared.table_id.words ≡ 2 },
}

/// The end that puts items in. It is used with the ring that it was made with, and may move to any
/// thread.
#[derive(Drop)]
pub struct SendEnd<T> {
    pub(crate) seat: Seat<Option<T>, SeatView<T>>,
    pub(crate) capacity: u32,
    pub(crate) next_put: u32,
    pub(crate) tail: u32,
    pub(crate) head_seen: u32,
    pub(crate) ghost sized: { capacity ≡ seat.table_id.slots },
    pub(crate) ghost sound: { SenderIsSound seat.me capacity next_put tail head_seen },
}

/// The end that takes items out, alike.
#[derive(Drop)]
pub struct TakeEnd<T> {
    pub(crate) seat: Seat<Option<T>, SeatView<T>>,
    pub(crate) capacity: u32,
    pub(crate) next_take: u32,
    pub(crate) head: u32,
    pub(crate) tail_seen: u32,
    pub(crate) ghost sized: { capacity ≡ seat.table_id.slots },
    pub(crate) ghost sound: { TakerIsSound seat.me capacity next_take head tail_seen },
}
