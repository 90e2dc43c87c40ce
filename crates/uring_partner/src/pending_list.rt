//! The entries that are pending: taken and unsettled.

ghost use Rattle.std.specs.Prelude.{◌≡◌, ◌+◌, ◌<◌, ◌≤◌, ◌++◌, ◌∷◌, [], if◌then◌else◌, List, OnOk, length, slice_index_or};
ghost use Rattle.std.specs.List.{insert, remove};
ghost use Rattle.std.specs.VecDeque.{deque_len, deque_capacity};
ghost use Rattle.uring_model.specs.declared.pending.Pending.{Pending};
ghost use Rattle.uring_model.specs.Partner.{mark_first_if, pass, pass_end};
ghost use Rattle.uring_partner.specs.Bound.{bound_in, is_bound};

use crate::chain::{mark_if, pass_on};
use std::alloc::{AllocError, Global};
use std::collections::VecDeque;
use uring_model::{Pending, has_link, is_drained};

/// Pending entries, in the order of their taking.
#[derive(Drop)]
pub struct PendingList {
    pub items: VecDeque<Pending>,
    // How many of them have a link or a drain. While there is none, all are ready.
    pub bound: usize,
    ghost counted: { bound ≡ bound_in items.items },
}

impl PendingList {
    /// A list without entries.
    pub fn new(alloc: Global) -> PendingList
        ensures { result.items.items ≡ [] }
    {
        PendingList {
            items: VecDeque::new(alloc),
            bound: 0,
        }
    }

    /// Makes room for one more entry.
    pub fn reserve_one(&mut self) -> Result<(), AllocError>
        ensures items { self.new.items.items ≡ self.old.items.items }
        ensures room { OnOk result (deque_len self.new.items < deque_capacity self.new.items) }
    {
        self.items.try_reserve(1)
    }

    /// Adds an entry behind the others, where there is room.
    pub fn push_reserved(&mut self, item: Pending)
        requires { deque_len self.old.items < deque_capacity self.old.items }
        ensures { self.new.items.items ≡ self.old.items.items ++ item ∷ [] }
    {
        self.bound += one_if_bound(&item);
        self.items.push_back_reserved(item);
    }

    /// Takes out the entry at a place. Those on the shorter side of it move up by one.
    pub fn take_out(&mut self, place: usize) -> Pending
        requires { place < deque_len self.old.items }
        ensures item { result ≡ slice_index_or self.old.items.items place result }
        ensures rest { self.new.items.items ≡ remove self.old.items.items place }
        ensures room { deque_len self.new.items < deque_capacity self.new.items }
        ensures inside { deque_len self.new.items + 1 ≡ deque_len self.old.items }
    {
        let Some(item) = self.items.remove(place) else {
            unreachable!();
        };
        self.bound -= one_if_bound(&item);
        item
    }

    /// Puts an entry in at a place, where there is room.
    pub fn put_back(&mut self, place: usize, item: Pending)
        requires room { deque_len self.old.items < deque_capacity self.old.items }
        requires inside { place ≤ deque_len self.old.items }
        ensures { self.new.items.items ≡ insert self.old.items.items place item }
    {
        self.bound += one_if_bound(&item);
        if let Err(_refused) = self.items.insert(place, item) {
            unreachable!();
        }
    }

    /// Tells the entry at `place`, or the one that is taken next, whether it is cut.
    pub fn pass_on(&mut self, tail: &mut Option<bool>, place: usize, is_linked: bool, cut: bool)
        ensures pending { (front back : List Pending) → self.old.items.items ≡ front ++ back → length front ≡ place → self.new.items.items ≡ front ++ pass is_linked cut back }
        ensures tail { (front back : List Pending) → self.old.items.items ≡ front ++ back → length front ≡ place → tail.new ≡ pass_end is_linked cut back tail.old }
    {
        pass_on(&mut self.items, tail, place, is_linked, cut);
    }

    /// Marks what a settling marks.
    pub fn mark_if(&mut self, marks: Option<u64>)
        ensures { self.new.items.items ≡ mark_first_if marks self.old.items.items }
    {
        mark_if(&mut self.items, marks);
    }
}

/// 1 for an entry with a link or a drain, and 0 for any other.
fn one_if_bound(item: &Pending) -> usize
    ensures { result ≡ (if is_bound item.now then 1 else 0) }
{
    if has_link(&item.taken) || is_drained(&item.taken) {
        1
    } else {
        0
    }
}
