//! The moves of the sender's end.

ghost use Rattle.std.specs.Prelude.{OnErr, ◌%◌, ◌^◌, ℕ, ◌≡◌, ◌++◌, ◌∷◌, [], ◌+◌, ◌<◌, ◌≤◌, length, MatchResult};
ghost use Rattle.ring_core.specs.RingState.{RingState, after_step, answer};
ghost use Rattle.ring_core.specs.declared.steps.CoreStep.TheVariants.{Put, PublishTail, SeeHead};
ghost use Rattle.ring_core.specs.declared.answers.CoreAnswer.TheVariants.{Done, Full};
ghost use Rattle.ring_shared.specs.StateParts.{IsSenderIn};
ghost use Rattle.ring_shared.specs.Ends.{IsSeatOf, SameSender, sent, published, published_items, head_loaded, send_capacity, put_place};

use crate::ring::{SendEnd, SharedRing};
use crate::turns::turn_slots;
use crate::word_steps::{HEAD, LoadHead, StoreTail, TAIL};
use ring_core::{gap, next, slot_of};

impl<T> SendEnd<T> {
    /// How many items fit.
    pub fn capacity(&self) -> u32
        ensures { result ≡ send_capacity self.now }
    {
        self.capacity
    }

    /// How many more items fit, by the head that was last loaded.
    pub fn spare(&self) -> u32
        ensures { result + length (sent self.now) ≡ head_loaded self.now + send_capacity self.now }
    {
        self.capacity - gap(self.head_seen, self.next_put)
    }

    /// The position of the next put.
    pub fn place(&self) -> u32
        ensures { result ≡ put_place self.now }
    {
        self.next_put
    }

    /// Puts an item behind. The taker doesn't see it before it is published. Gives the item back
    /// exactly where the ring is full by the head that was last loaded.
    pub fn put(&mut self, ring: &SharedRing<T>, item: T) -> Result<(), T>
        requires { IsSeatOf ring.now self.old.seat }
        ensures same { SameSender self.old self.new × (published_items self.new ≡ published_items self.old) × (head_loaded self.new ≡ head_loaded self.old) }
        ensures put { MatchResult result
            (λ _. (length (sent self.old) < head_loaded self.old + send_capacity self.old) × (sent self.new ≡ sent self.old ++ item ∷ []))
            (λ x. (length (sent self.old) ≡ head_loaded self.old + send_capacity self.old) × (x ≡ item) × (sent self.new ≡ sent self.old)) }
        ensures place { MatchResult result (λ _. put_place self.new ≡ (put_place self.old + 1) % 2 ^ 32) (λ _. put_place self.new ≡ put_place self.old) }
        ensures err { OnErr result (self.new ≡ self.old) }
        ensures step { (number : T → ℕ) (m : RingState) → IsSenderIn number m self.old → MatchResult result (λ _. answer (Put (number item)) m ≡ Done) (λ _. answer (Put (number item)) m ≡ Full) × IsSenderIn number (after_step (Put (number item)) m) self.new }
    {
        if gap(self.head_seen, self.next_put) == self.capacity {
            return Err(item);
        }
        let slot = slot_of(self.capacity, self.next_put);
        match ring.table.shared.exchange(&mut self.seat, slot, Some(item)) {
            None => {}
            Some(_) => unreachable!(),
        }
        self.seat.turn();
        self.next_put = next(self.next_put);
        Ok(())
    }

    /// Stores the tail: shows the taker what was put.
    pub fn publish(&mut self, ring: &SharedRing<T>)
        requires { IsSeatOf ring.now self.old.seat }
        ensures same { SameSender self.old self.new × (sent self.new ≡ sent self.old) × (head_loaded self.new ≡ head_loaded self.old) }
        ensures published { published_items self.new ≡ sent self.old }
        ensures rises { published self.old ≤ published self.new }
        ensures place { put_place self.new ≡ put_place self.old }
        ensures step { (number : T → ℕ) (m : RingState) → IsSenderIn number m self.old → IsSenderIn number (after_step PublishTail m) self.new }
    {
        let free = self.capacity - gap(self.head_seen, self.next_put);
        turn_slots(&mut self.seat, free);
        ring.table
            .shared
            .store::<StoreTail>(&mut self.seat, TAIL, self.next_put as u64);
        self.tail = self.next_put;
    }

    /// Loads the head: sees which slots the taker has given back.
    pub fn refresh(&mut self, ring: &SharedRing<T>)
        requires { IsSeatOf ring.now self.old.seat }
        ensures same { SameSender self.old self.new × (sent self.new ≡ sent self.old) × (published_items self.new ≡ published_items self.old) }
        ensures head { (head_loaded self.old ≤ head_loaded self.new) × (head_loaded self.new ≤ published self.new) }
        ensures place { put_place self.new ≡ put_place self.old }
        // of each state whose published head is the one that was loaded
        ensures step { (number : T → ℕ) (m : RingState) → IsSenderIn number m self.old → m.head ≡ head_loaded self.new → IsSenderIn number (after_step SeeHead m) self.new }
    {
        let free = self.capacity - gap(self.head_seen, self.next_put);
        let pending = gap(self.tail, self.next_put);
        turn_slots(&mut self.seat, free);
        let head = ring.table.shared.load::<LoadHead>(&mut self.seat, HEAD) as u32;
        let gained = gap(self.head_seen, head);
        turn_slots(&mut self.seat, gained + pending);
        self.head_seen = head;
    }
}
