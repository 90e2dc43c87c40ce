//! What the proofs keep of each seat of a ring's table, and the rule of the table.

use atomic_table::TableRule;
use std::collections::LinkedList;

/// Which parts a seat has, and what it knows by them. The sender's part is `published`, all that was
/// published, and `limit`, the place up to which slots were gained: the head last loaded, and one
/// turn more. The taker's part is `seen`, all that was seen, and `head`, how many slots were given
/// back. Places are counted from the start. No value of this type is made: it stands in proofs.
pub struct SeatView<T> {
    pub sends: bool,
    pub takes: bool,
    pub start: u64,
    pub capacity: u64,
    pub published: LinkedList<T>,
    pub limit: u64,
    pub seen: LinkedList<T>,
    pub head: u64,
}

/// What is fixed when the ring is made: the position that it starts at, and how many items fit.
#[derive(Drop)]
pub struct RingShape {
    pub start: u64,
    pub capacity: u64,
}

/// The rule that each step on a word keeps, whatever the other end does.
pub struct RingRule;

impl<T> TableRule<Option<T>, SeatView<T>, RingShape> for RingRule {
    ghost use Rattle.ring_shared.specs.Rule.{RuleHolds, first_view};

    ghost holds = { λ _. RuleHolds };

    ghost first = { λ key. first_view key.start key.capacity };
}
