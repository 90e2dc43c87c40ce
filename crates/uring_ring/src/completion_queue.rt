//! The user's end of the completion ring.

ghost use Rattle.std.specs.Prelude.{◌≡◌, ◌↔◌, ◌-◌, ◌<◌, ◌≤◌, ◌++◌, IsTrue, length, map, min, drop, Some};
ghost use Rattle.std.specs.Iterator.{at_most};
ghost use Rattle.ring_core.specs.Slots.{held_of, with_head, with_tail_seen, with_takes};
ghost use Rattle.ring_setup.specs.RingFlags.{shows_partner};
ghost use Rattle.ring_setup.specs.declared.ring_flags.TheConstants.CompletionRingFlags.{EVENTFD_DISABLED};
ghost use Rattle.uring_ring.specs.Queues.{completions_at, completion_words_at, completions_of_status, received_as, first_received, QueueSteps, with_events, without_events};

use crate::completion_ring::CompletionRing;
use bitflags::Flags as _;
use ring_core::{End, sync};
use ring_setup::CompletionRingFlags;
use std::marker::PhantomData;
use uring_base::{Completion, Loan};
use uring_large::cqueue::{Entry, EntryMarker};

/// A completion entry and the loan that came back with it.
#[derive(Drop)]
pub struct Received<C> {
    pub entry: C,
    pub loan: Option<Loan>,
}

/// A completion as a ring of entries `C` gives it.
fn received_as<C: EntryMarker>(completion: Completion) -> Received<C>
    ensures { result ≡ received_as C.made_of completion }
{
    Received {
        entry: C::from_posted(
            completion.user_data,
            completion.result,
            completion.flags,
            completion.large,
            completion.big,
        ),
        loan: completion.loan,
    }
}

/// The user's end of the completion ring: an iterator over the completions that waited when it
/// last saw the partner's position, which it has seen when it was made. At its end it gives the
/// slots of what it yielded back.
pub struct CompletionQueue<'a, C = Entry> {
    pub(crate) ring: &'a mut CompletionRing,
    pub(crate) size: PhantomData<C>,
}

impl<C> Drop for CompletionQueue<'_, C> {
    fn drop(self)
        ensures completions { held_of self.exit.0.now.slots ≡ with_head (completions_at self.entry) }
        ensures words { self.exit.0.now.words ≡ completion_words_at self.entry }
    {
        let CompletionQueue { ring, size: _size } = self;
        ring.publish();
    }
}

impl<C: EntryMarker> Iterator for CompletionQueue<'_, C> {
    type Item = Received<C>;

    ghost next_gives = { QueueSteps C.made_of };

    ghost remaining = { λ queue. at_most (completions_at queue).waiting };

    fn next(&mut self) -> Option<Received<C>> {
        let ring = &mut *self.ring;
        let completion = ring.slots.take()?;
        Some(received_as(completion))
    }

    fn size_hint(&self) -> (usize, Option<usize>) {
        let len = self.ring.slots.waiting() as usize;
        (len, Some(len))
    }
}

impl<C: EntryMarker> ExactSizeIterator for CompletionQueue<'_, C> {
    fn len(&self) -> usize {
        self.ring.slots.waiting() as usize
    }
}

impl<C> CompletionQueue<'_, C> {
    /// Gives the slots of what was yielded back, and then sees what the partner has posted.
    pub fn sync(&mut self)
        ensures completions { completions_at self.new ≡ with_tail_seen (with_head (completions_at self.old)) }
        ensures words { completion_words_at self.new ≡ completion_words_at self.old }
        ensures same_reference { self.new.ring.ghost_name ≡ self.old.ring.ghost_name }
    {
        sync(&mut *self.ring);
    }

    /// How many completions wait, as last seen.
    pub fn len(&self) -> usize
        ensures { result ≡ (completions_at self.now).waiting }
    {
        self.ring.slots.waiting() as usize
    }

    /// How many completions fit in all: a power of two.
    pub fn capacity(&self) -> usize
        ensures { result ≡ (completions_at self.now).capacity }
    {
        self.ring.slots.capacity() as usize
    }

    /// Whether none waits, as last seen.
    pub fn is_empty(&self) -> bool
        ensures { IsTrue result ↔ ((completions_at self.now).waiting ≡ 0) }
    {
        self.ring.slots.waiting() == 0
    }

    /// Whether as many wait as fit, as last seen.
    pub fn is_full(&self) -> bool
        ensures { IsTrue result ↔ ((completions_at self.now).waiting ≡ (completions_at self.now).capacity) }
    {
        self.ring.slots.waiting() == self.ring.slots.capacity()
    }

    /// How many completions the partner couldn't post.
    pub fn overflow(&self) -> u32
        ensures { result ≡ (completion_words_at self.now).overflow }
    {
        self.ring.words.overflow
    }

    /// Whether no event is to be sent for a completion.
    pub fn eventfd_disabled(&self) -> bool
        ensures { result ≡ shows_partner (completion_words_at self.now).flags EVENTFD_DISABLED }
    {
        CompletionRingFlags::from_bits_retain(self.ring.words.flags).contains(
            CompletionRingFlags::EVENTFD_DISABLED,
        )
    }

    /// Asks that no event is sent for a completion.
    pub fn disable_eventfd(&mut self)
        ensures completions { completions_at self.new ≡ completions_at self.old }
        ensures words { completion_words_at self.new ≡ without_events (completion_words_at self.old) }
        ensures same_reference { self.new.ring.ghost_name ≡ self.old.ring.ghost_name }
    {
        self.ring.words.flags |= CompletionRingFlags::EVENTFD_DISABLED.bits();
    }

    /// Asks that events are sent again.
    pub fn enable_eventfd(&mut self)
        ensures completions { completions_at self.new ≡ completions_at self.old }
        ensures words { completion_words_at self.new ≡ with_events (completion_words_at self.old) }
        ensures same_reference { self.new.ring.ghost_name ≡ self.old.ring.ghost_name }
    {
        let mut flags = CompletionRingFlags::from_bits_retain(self.ring.words.flags);
        flags.remove(CompletionRingFlags::EVENTFD_DISABLED);
        self.ring.words.flags = flags.bits();
    }

    /// What can be told of the ring without taking from it.
    pub fn status(&self) -> CompletionStatus<'_>
        ensures { completions_of_status result ≡ completions_at self.now }
    {
        CompletionStatus { ring: self.ring }
    }
}

impl<C: EntryMarker> CompletionQueue<'_, C> {
    /// Moves as many completions as wait and fit to the front of the slice, and gives their
    /// number. What stands behind them in the slice stays.
    pub fn fill(&mut self, into: &mut [Option<Received<C>>]) -> usize
        ensures count { result ≡ min (completions_at self.old).waiting (length into.old) }
        ensures items { into.new ≡ map Some (first_received C.made_of result (completions_at self.old)) ++ drop result into.old }
        ensures completions { completions_at self.new ≡ with_takes result (completions_at self.old) }
        ensures words { completion_words_at self.new ≡ completion_words_at self.old }
        ensures same_reference { self.new.ring.ghost_name ≡ self.old.ring.ghost_name }
    {
        let count = into.len().min(self.len());
        for i in 0..count {
            into[i] = self.next();
        }
        count
    }
}

/// What can be told of a completion ring without taking from it.
#[derive(Clone, Copy)]
pub struct CompletionStatus<'a> {
    ring: &'a CompletionRing,
}

impl CompletionStatus<'_> {
    /// Whether the partner's published position equals the user's: nothing is posted whose slot
    /// wasn't given back.
    pub fn is_empty(&self) -> bool
        ensures { IsTrue result ↔ ((completions_of_status self.now).taken ≡ 0) × (length (completions_of_status self.now).published ≡ 0) }
    {
        self.ring.slots.is_settled()
    }
}
