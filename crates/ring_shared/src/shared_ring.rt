//! How a ring is made, and how its ends meet.

ghost use Rattle.std.specs.Prelude.{ℕ, ◌≡◌, ◌+◌, ◌++◌, [], List, length, IfOk, true};
ghost use Rattle.ring_core.specs.Positions.{is_ring_size};
ghost use Rattle.ring_core.specs.RingState.{opening};
ghost use Rattle.ring_shared.specs.StateParts.{IsSenderIn, IsTakerIn, state_of, AreInState};
ghost use Rattle.ring_shared.specs.Ends.{IsSeatOf, sent, published, published_items, head_loaded, send_capacity, put_place, take_place, seen, taken, taken_items, head_published, take_capacity};

use crate::error::SharedError;
use crate::ring::{SendEnd, SharedRing, TakeEnd};
use crate::view::RingShape;
use crate::word_steps::{CompareTail, HEAD, JoinTaker, LoadHead, SplitTaker, TAIL};
use atomic_table::Table;
use ring_core::gap;
use std::alloc::Global;

/// What two ends that met tell.
#[derive(Drop)]
pub struct Met {
    /// How many items are published and not taken.
    pub left: u32,
}

impl<T> SharedRing<T> {
    /// A ring that holds nothing and its two ends, each position at `start`, or want of memory.
    pub fn new(
        alloc: Global,
        capacity: u32,
        start: u32,
    ) -> Result<(SharedRing<T>, SendEnd<T>, TakeEnd<T>), SharedError>
        requires { is_ring_size capacity ≡ true }
        ensures ends { IfOk result (λ r. IsSeatOf r.0 r.1.seat × IsSeatOf r.0 r.2.seat) }
        ensures sender { IfOk result (λ r. (send_capacity r.1 ≡ capacity) × (sent r.1 ≡ []) × (published r.1 ≡ 0) × (head_loaded r.1 ≡ 0)) }
        ensures taker { IfOk result (λ r. (take_capacity r.2 ≡ capacity) × (seen r.2 ≡ []) × (taken r.2 ≡ 0) × (head_published r.2 ≡ 0)) }
        ensures places { IfOk result (λ r. (put_place r.1 ≡ start) × (take_place r.2 ≡ start)) }
        ensures core { IfOk result (λ r. (number : T → ℕ) → IsSenderIn number (opening capacity) r.1 × IsTakerIn number (opening capacity) r.2) }
    {
        let shape = RingShape {
            start: start as u64,
            capacity: capacity as u64,
        };
        let (table, mut seat) = Table::vacant(
            alloc,
            &[start as u64, start as u64],
            capacity as usize,
            &shape,
        )?;
        table.shared.load::<LoadHead>(&mut seat, HEAD);
        let other = table.shared.split_seat::<SplitTaker>(&mut seat);
        let send = SendEnd {
            seat,
            capacity,
            next_put: start,
            tail: start,
            head_seen: start,
        };
        let take = TakeEnd {
            seat: other,
            capacity,
            next_take: start,
            head: start,
            tail_seen: start,
        };
        Ok((SharedRing { table }, send, take))
    }

    /// Brings both ends together on one thread, and counts what is left between them. Items that
    /// weren't taken are dropped with the ring.
    pub fn meet(&self, send: SendEnd<T>, take: TakeEnd<T>) -> Met
        requires send { IsSeatOf self.now send.seat }
        requires take { IsSeatOf self.now take.seat }
        ensures prefix { (rest : List T) × (published_items send ≡ seen take ++ rest) }
        ensures taken { (rest : List T) × (published_items send ≡ taken_items take ++ rest) × (length rest ≡ result.left) }
        ensures left { result.left + taken take ≡ published send }
        // all six positions are those of one state of the core
        ensures state { (number : T → ℕ) → AreInState number (state_of number send take) send take }
    {
        let SendEnd {
            seat: mut sender,
            capacity: _,
            next_put: _,
            tail: _,
            head_seen: _,
        } = send;
        let TakeEnd {
            seat: mut taker,
            capacity: _,
            next_take,
            head: _,
            tail_seen: _,
        } = take;
        let part = self.table.shared.split_seat::<SplitTaker>(&mut taker);
        self.table.shared.join_seat::<JoinTaker>(&mut sender, part);
        let tail = self.table.shared.load::<CompareTail>(&mut sender, TAIL) as u32;
        Met {
            left: gap(next_take, tail),
        }
    }
}
