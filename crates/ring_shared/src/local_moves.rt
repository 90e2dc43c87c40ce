//! The moves of a ring in one thread. Its clauses are those of `ring_core::Slots`.

ghost use Rattle.std.specs.Prelude.{◌≡◌, ◌<◌, MatchOption, IfOk, true};
ghost use Rattle.ring_core.specs.Positions.{is_ring_size};

use crate::error::SharedError;
use crate::local_ring::LocalRing;
use crate::turns::turn_slots;
use crate::view::RingShape;
use crate::word_steps::{HEAD, LoadHead, LoadTail, StoreLocalHead, StoreLocalTail, TAIL};
use atomic_table::Table;
use ring_core::{gap, next, slot_of};
use std::alloc::Global;

#[tactic(auto, unfolding(crate::specs::LocalHeld::local_held))]
impl<T> LocalRing<T> {
    ghost use Rattle.ring_core.specs.Slots.{empty_ring, with_put, with_tail, with_head_seen, with_head, with_tail_seen, Takes};
    ghost use Rattle.ring_shared.specs.LocalHeld.{local_held};

    /// A ring that holds nothing, each of its positions at `start`, or want of memory.
    pub fn new(alloc: Global, capacity: u32, start: u32) -> Result<LocalRing<T>, SharedError>
        requires { is_ring_size capacity ≡ true }
        ensures { IfOk result (λ ring. local_held ring ≡ empty_ring capacity start) }
    {
        let shape = RingShape {
            start: start as u64,
            capacity: capacity as u64,
        };
        let (table, mut seat) = Table::vacant(
            alloc,
            &[start as u64, start as u64],
            capacity as usize,
            &shape,
        )?;
        table.shared.load::<LoadHead>(&mut seat, HEAD);
        Ok(LocalRing {
            table,
            seat,
            capacity,
            next_put: start,
            tail: start,
            head_seen: start,
            next_take: start,
            head: start,
            tail_seen: start,
        })
    }

    /// How many items fit.
    pub fn capacity(&self) -> u32
        ensures { result ≡ (local_held self.now).capacity }
    {
        self.capacity
    }

    /// How many more items fit, as the sender's part last saw.
    pub fn spare(&self) -> u32
        ensures { result ≡ (local_held self.now).spare }
    {
        self.capacity - gap(self.head_seen, self.next_put)
    }

    /// How many items can be taken, as the taker's part last saw.
    pub fn waiting(&self) -> u32
        ensures { result ≡ (local_held self.now).waiting }
    {
        gap(self.next_take, self.tail_seen)
    }

    /// The positions of the next put and of the next take.
    pub fn places(&self) -> (u32, u32)
        ensures put { result.0 ≡ (local_held self.now).put_place }
        ensures take { result.1 ≡ (local_held self.now).take_place }
    {
        (self.next_put, self.next_take)
    }

    /// Puts an item behind.
    pub fn put(&mut self, item: T)
        requires { 0 < (local_held self.old).spare }
        ensures { local_held self.new ≡ with_put item (local_held self.old) }
    {
        let free = self.capacity - gap(self.head_seen, self.next_put);
        let front = gap(self.head, self.tail_seen) + gap(self.tail, self.next_put);
        turn_slots(&mut self.seat, front);
        let slot = slot_of(self.capacity, self.next_put);
        match self.table.shared.exchange(&mut self.seat, slot, Some(item)) {
            None => {}
            Some(_) => unreachable!(),
        }
        self.seat.turn();
        turn_slots(&mut self.seat, free - 1);
        self.next_put = next(self.next_put);
    }

    /// Stores the tail: shows what was put.
    pub fn publish_tail(&mut self)
        ensures { local_held self.new ≡ with_tail (local_held self.old) }
    {
        let free = self.capacity - gap(self.head_seen, self.next_put);
        let front = gap(self.head, self.tail_seen);
        turn_slots(&mut self.seat, front);
        self.table
            .shared
            .store::<StoreLocalTail>(&mut self.seat, TAIL, self.next_put as u64);
        turn_slots(&mut self.seat, free);
        self.tail = self.next_put;
    }

    /// Loads the head: sees which slots were given back.
    pub fn see_head(&mut self)
        ensures { local_held self.new ≡ with_head_seen (local_held self.old) }
    {
        let table = &self.table;
        let head = table.shared.load::<LoadHead>(&mut self.seat, HEAD) as u32;
        let gained = gap(self.head_seen, head);
        turn_slots(&mut self.seat, gained);
        self.head_seen = head;
    }

    /// The item in front, where one waited as last seen.
    pub fn take(&mut self) -> Option<T>
        ensures none { MatchOption result ((local_held self.old).waiting ≡ 0) (λ _. 0 < (local_held self.old).waiting) }
        ensures taken { MatchOption result (local_held self.new ≡ local_held self.old) (λ item. Takes item (local_held self.old) (local_held self.new)) }
    {
        if self.next_take == self.tail_seen {
            return None;
        }
        let emptied = gap(self.head, self.next_take);
        let rest = gap(self.next_take, self.tail_seen) - 1 + gap(self.tail, self.next_put);
        let free = self.capacity - gap(self.head_seen, self.next_put);
        turn_slots(&mut self.seat, emptied);
        let slot = slot_of(self.capacity, self.next_take);
        let Some(item) = self.table.shared.exchange(&mut self.seat, slot, None) else {
            unreachable!()
        };
        self.seat.turn();
        turn_slots(&mut self.seat, rest + free);
        self.next_take = next(self.next_take);
        Some(item)
    }

    /// Stores the head: gives the slots of what was taken back.
    pub fn publish_head(&mut self)
        ensures { local_held self.new ≡ with_head (local_held self.old) }
    {
        let table = &self.table;
        table
            .shared
            .store::<StoreLocalHead>(&mut self.seat, HEAD, self.next_take as u64);
        self.head = self.next_take;
    }

    /// Loads the tail: sees what was published.
    pub fn see_tail(&mut self)
        ensures { local_held self.new ≡ with_tail_seen (local_held self.old) }
    {
        let front = gap(self.head, self.tail_seen);
        let back = gap(self.tail, self.next_put)
            + (self.capacity - gap(self.head_seen, self.next_put));
        turn_slots(&mut self.seat, front);
        let tail = self.table.shared.load::<LoadTail>(&mut self.seat, TAIL) as u32;
        let gained = gap(self.tail_seen, tail);
        turn_slots(&mut self.seat, gained + back);
        self.tail_seen = tail;
    }
}
