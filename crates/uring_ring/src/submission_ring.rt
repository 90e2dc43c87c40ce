//! The submission ring with the words beside it.

ghost use Rattle.std.specs.Prelude.{◌≡◌, ◌≤◌};
ghost use Rattle.uring_base.specs.declared.limits.TheConstants.{MAX_ENTRIES};
ghost use Rattle.ring_core.specs.Slots.{held_of};

use ring_core::{End, Slots};
use std::alloc::{AllocError, Global};
use uring_base::Taken;

/// The words that the partner writes beside the entries.
#[derive(Clone, Copy, PartialEq, Eq, Debug)]
pub(crate) struct SubmissionWords {
    pub(crate) flags: u32,
    pub(crate) dropped: u32,
}

/// Entries with their loans, and the words beside them.
#[derive(Drop)]
pub(crate) struct SubmissionRing {
    pub(crate) slots: Slots<Taken>,
    pub(crate) words: SubmissionWords,
    ghost small: { (held_of slots).capacity ≤ MAX_ENTRIES },
    // what the partner takes it gives back at once
    ghost given_back: { (held_of slots).taken ≡ 0 },
}

impl SubmissionRing {
    ghost use Rattle.std.specs.Prelude.{◌↔◌, ◌<◌, ◌+◌, length, true, IfOk, IsSome, MatchOption};
    ghost use Rattle.std.specs.Option.{option_to_list};
    ghost use Rattle.ring_core.specs.Positions.{is_ring_size};
    ghost use Rattle.ring_core.specs.Slots.{empty_ring, with_tail_seen, TakesForGood};

    pub(crate) fn new(
        alloc: Global,
        capacity: u32,
        start: u32,
    ) -> Result<SubmissionRing, AllocError>
        requires size { is_ring_size capacity ≡ true }
        requires small { capacity ≤ MAX_ENTRIES }
        ensures entries { IfOk result (λ ring. held_of ring.slots ≡ empty_ring capacity start) }
        ensures words { IfOk result (λ ring. ring.words ≡ record { flags = 0; dropped = 0 }) }
    {
        Ok(SubmissionRing {
            slots: Slots::new(alloc, capacity, start)?,
            words: SubmissionWords {
                flags: 0,
                dropped: 0,
            },
        })
    }

    /// The partner sees what is published, and learns how much that is.
    pub(crate) fn published(&mut self) -> u32
        ensures entries { held_of self.new.slots ≡ with_tail_seen (held_of self.old.slots) }
        ensures words { self.new.words ≡ self.old.words }
        ensures count { result ≡ length (held_of self.old.slots).published }
    {
        self.slots.see_tail();
        self.slots.published()
    }

    /// The partner looks, takes the entry in front, and gives its slot back.
    pub(crate) fn take(&mut self) -> Option<Taken>
        ensures some { IsSome result ↔ (0 < length (held_of self.old.slots).published) }
        ensures taken { MatchOption result (held_of self.new.slots ≡ with_tail_seen (held_of self.old.slots)) (λ taken. TakesForGood taken (with_tail_seen (held_of self.old.slots)) (held_of self.new.slots)) }
        ensures known { 0 < (held_of self.old.slots).waiting → IsSome result }
        ensures count { (held_of self.old.slots).waiting ≤ (held_of self.new.slots).waiting + length (option_to_list result) }
        ensures words { self.new.words ≡ self.old.words }
    {
        self.slots.see_tail();
        let taken = self.slots.take()?;
        self.slots.publish_head();
        Some(taken)
    }
}

/// The user's end: it shows what was pushed, and sees what the partner has taken.
impl End for SubmissionRing {
    ghost use Rattle.ring_core.specs.Slots.{with_tail, with_head_seen};

    ghost publishes = { λ before after. (held_of after.slots ≡ with_tail (held_of before.slots)) × (after.words ≡ before.words) };

    ghost looks = { λ before after. (held_of after.slots ≡ with_head_seen (held_of before.slots)) × (after.words ≡ before.words) };

    fn publish(&mut self) {
        self.slots.publish_tail();
    }

    fn look(&mut self) {
        self.slots.see_head();
    }
}
