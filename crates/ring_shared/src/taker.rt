//! The moves of the taker's end.

ghost use Rattle.std.specs.Prelude.{◌%◌, ◌^◌, ℕ, map, take, ◌≡◌, ◌++◌, ◌∷◌, [], List, ◌+◌, ◌<◌, ◌≤◌, length, MatchOption, slice_get};
ghost use Rattle.ring_core.specs.RingState.{RingState, after_step, answer};
ghost use Rattle.ring_core.specs.declared.steps.CoreStep.TheVariants.{Take, PublishHead, SeeTail};
ghost use Rattle.ring_core.specs.declared.answers.CoreAnswer.TheVariants.{Empty, Got};
ghost use Rattle.ring_shared.specs.StateParts.{IsTakerIn};
ghost use Rattle.ring_shared.specs.Ends.{IsSeatOf, SameTaker, seen, taken, taken_items, head_published, take_place, take_capacity};
ghost use Rattle.std.specs.Option.{option_to_list};

use crate::ring::{SharedRing, TakeEnd};
use crate::turns::turn_slots;
use crate::word_steps::{HEAD, LoadTail, StoreHead, TAIL};
use ring_core::{gap, next, slot_of};

impl<T> TakeEnd<T> {
    /// How many items fit.
    pub fn capacity(&self) -> u32
        ensures { result ≡ take_capacity self.now }
    {
        self.capacity
    }

    /// How many items can be taken, by the tail that was last loaded.
    pub fn waiting(&self) -> u32
        ensures { result + taken self.now ≡ length (seen self.now) }
    {
        gap(self.next_take, self.tail_seen)
    }

    /// The position of the next take.
    pub fn place(&self) -> u32
        ensures { result ≡ take_place self.now }
    {
        self.next_take
    }

    /// Takes the item in front. The sender doesn't see that its slot is free before that is
    /// published. Gives nothing exactly where the ring is empty by the tail that was last loaded.
    pub fn take(&mut self, ring: &SharedRing<T>) -> Option<T>
        requires { IsSeatOf ring.now self.old.seat }
        ensures same { SameTaker self.old self.new × (seen self.new ≡ seen self.old) × (head_published self.new ≡ head_published self.old) }
        ensures take { MatchOption result
            ((taken self.old ≡ length (seen self.old)) × (taken self.new ≡ taken self.old))
            (λ x. (slice_get (seen self.old) (taken self.old) ≡ Some x) × (taken self.new ≡ taken self.old + 1)) }
        ensures items { taken_items self.new ≡ taken_items self.old ++ option_to_list result }
        ensures place { MatchOption result (take_place self.new ≡ take_place self.old) (λ _. take_place self.new ≡ (take_place self.old + 1) % 2 ^ 32) }
        ensures step { (number : T → ℕ) (m : RingState) → IsTakerIn number m self.old → MatchOption result (answer Take m ≡ Empty) (λ x. answer Take m ≡ Got (number x)) × IsTakerIn number (after_step Take m) self.new }
    {
        if self.next_take == self.tail_seen {
            return None;
        }
        let slot = slot_of(self.capacity, self.next_take);
        let Some(item) = ring.table.shared.exchange(&mut self.seat, slot, None) else {
            unreachable!()
        };
        self.seat.turn();
        self.next_take = next(self.next_take);
        Some(item)
    }

    /// Stores the head: gives the slots of what was taken back.
    pub fn publish(&mut self, ring: &SharedRing<T>)
        requires { IsSeatOf ring.now self.old.seat }
        ensures same { SameTaker self.old self.new × (seen self.new ≡ seen self.old) × (taken self.new ≡ taken self.old) }
        ensures published { head_published self.new ≡ taken self.old }
        ensures rises { head_published self.old ≤ head_published self.new }
        ensures items { taken_items self.new ≡ taken_items self.old }
        ensures place { take_place self.new ≡ take_place self.old }
        ensures step { (number : T → ℕ) (m : RingState) → IsTakerIn number m self.old → IsTakerIn number (after_step PublishHead m) self.new }
    {
        let ahead = gap(self.next_take, self.tail_seen);
        turn_slots(&mut self.seat, ahead);
        ring.table
            .shared
            .store::<StoreHead>(&mut self.seat, HEAD, self.next_take as u64);
        self.head = self.next_take;
    }

    /// Loads the tail: sees what the sender has published.
    pub fn refresh(&mut self, ring: &SharedRing<T>)
        requires { IsSeatOf ring.now self.old.seat }
        ensures same { SameTaker self.old self.new × (taken self.new ≡ taken self.old) × (head_published self.new ≡ head_published self.old) }
        ensures tail { (more : List T) × (seen self.new ≡ seen self.old ++ more) }
        ensures grows { length (seen self.old) ≤ length (seen self.new) }
        ensures items { taken_items self.new ≡ taken_items self.old }
        ensures place { take_place self.new ≡ take_place self.old }
        // of each state whose published list is the one that was seen
        ensures step { (number : T → ℕ) (m : RingState) → IsTakerIn number m self.old → m.tail ≡ length (seen self.new) → take m.tail m.values ≡ map number (seen self.new) → IsTakerIn number (after_step SeeTail m) self.new }
    {
        let ahead = gap(self.next_take, self.tail_seen);
        let emptied = gap(self.head, self.next_take);
        turn_slots(&mut self.seat, ahead);
        let tail = ring.table.shared.load::<LoadTail>(&mut self.seat, TAIL) as u32;
        let gained = gap(self.tail_seen, tail);
        turn_slots(&mut self.seat, gained + emptied);
        self.tail_seen = tail;
    }
}
