//! The atomic steps on the two words of a ring, and what each tells the seat that makes it.

ghost use Rattle.ring_shared.specs.WordSteps.{stored_tail, loaded_head, stored_head, loaded_tail, compared, stored_local_tail, stored_local_head};
ghost use Rattle.ring_shared.specs.Rule.{without_taker, without_sender, joined, spent_view};

use crate::view::SeatView;
use atomic_table::{Join, Play, Split};

/// The word of the published tail.
pub(crate) const TAIL: usize = 0;

/// The word of the published head.
pub(crate) const HEAD: usize = 1;

/// The sender publishes.
pub(crate) struct StoreTail;

impl<T> Play<Option<T>, SeatView<T>> for StoreTail {
    ghost then = { λ s m r k. stored_tail m k };
}

/// The sender sees which slots are given back.
pub(crate) struct LoadHead;

impl<T> Play<Option<T>, SeatView<T>> for LoadHead {
    ghost then = { λ s m r k. loaded_head m r k };
}

/// The taker gives slots back.
pub(crate) struct StoreHead;

impl<T> Play<Option<T>, SeatView<T>> for StoreHead {
    ghost then = { λ s m r k. stored_head m k };
}

/// The taker sees what is published.
pub(crate) struct LoadTail;

impl<T> Play<Option<T>, SeatView<T>> for LoadTail {
    ghost then = { λ s m r k. loaded_tail m r k };
}

/// A seat with both parts is told how they stand to each other.
pub(crate) struct CompareTail;

impl<T> Play<Option<T>, SeatView<T>> for CompareTail {
    ghost then = { λ s m r k. compared m r k };
}

/// The taker's part goes to a new seat.
pub(crate) struct SplitTaker;

impl<T> Split<SeatView<T>> for SplitTaker {
    ghost left = { without_taker };

    ghost right = { without_sender };
}

/// And comes into the sender's view.
pub(crate) struct JoinTaker;

impl<T> Join<SeatView<T>> for JoinTaker {
    ghost both = { joined };

    ghost spent = { spent_view };
}

/// A seat with both parts publishes: only as many slots go home as the tail goes on.
pub(crate) struct StoreLocalTail;

impl<T> Play<Option<T>, SeatView<T>> for StoreLocalTail {
    ghost then = { λ s m r k. stored_local_tail s.first m k };
}

/// A seat with both parts gives slots back: only as many as the head goes on.
pub(crate) struct StoreLocalHead;

impl<T> Play<Option<T>, SeatView<T>> for StoreLocalHead {
    ghost then = { λ s m r k. stored_local_head s.first m k };
}
