//! The submission ring of one thread.

ghost use Rattle.std.specs.Prelude.{◌≡◌, ◌≤◌};
ghost use Rattle.uring_base.specs.declared.limits.TheConstants.{MAX_ENTRIES};
ghost use Rattle.ring_shared.specs.LocalHeld.{local_held};

use ring_core::End;
use ring_shared::{LocalRing, SharedError};
use std::alloc::Global;
use uring_base::Taken;

/// Entries with their loans.
#[derive(Drop)]
pub(crate) struct SubmissionRing {
    pub(crate) ring: LocalRing<Taken>,
    ghost small: { (local_held ring).capacity ≤ MAX_ENTRIES },
    // what the partner takes it gives back at once
    ghost given_back: { (local_held ring).taken ≡ 0 },
}

impl SubmissionRing {
    ghost use Rattle.std.specs.Prelude.{◌↔◌, ◌<◌, ◌+◌, length, true, IfOk, IsSome, MatchOption};
    ghost use Rattle.std.specs.Option.{option_to_list};
    ghost use Rattle.ring_core.specs.Positions.{is_ring_size};
    ghost use Rattle.ring_core.specs.Slots.{empty_ring, with_tail_seen, TakesForGood};

    pub(crate) fn new(
        alloc: Global,
        capacity: u32,
        start: u32,
    ) -> Result<SubmissionRing, SharedError>
        requires size { is_ring_size capacity ≡ true }
        requires small { capacity ≤ MAX_ENTRIES }
        ensures { IfOk result (λ entries. local_held entries.ring ≡ empty_ring capacity start) }
    {
        Ok(SubmissionRing {
            ring: LocalRing::new(alloc, capacity, start)?,
        })
    }

    /// The partner sees what is published, and learns how much that is.
    pub(crate) fn published(&mut self) -> u32
        ensures entries { local_held self.new.ring ≡ with_tail_seen (local_held self.old.ring) }
        ensures count { result ≡ length (local_held self.old.ring).published }
    {
        self.ring.see_tail();
        self.ring.waiting()
    }

    /// The partner looks, takes the entry in front, and gives its slot back.
    pub(crate) fn take(&mut self) -> Option<Taken>
        ensures some { IsSome result ↔ (0 < length (local_held self.old.ring).published) }
        ensures taken { MatchOption result (local_held self.new.ring ≡ with_tail_seen (local_held self.old.ring)) (λ taken. TakesForGood taken (with_tail_seen (local_held self.old.ring)) (local_held self.new.ring)) }
        ensures known { 0 < (local_held self.old.ring).waiting → IsSome result }
        ensures count { (local_held self.old.ring).waiting ≤ (local_held self.new.ring).waiting + length (option_to_list result) }
    {
        self.ring.see_tail();
        let taken = self.ring.take()?;
        self.ring.publish_head();
        Some(taken)
    }
}

/// The user's end: it shows what was offered, and sees what the partner has taken.
impl End for SubmissionRing {
    ghost use Rattle.ring_core.specs.Slots.{with_tail, with_head_seen};

    ghost publishes = { λ before after. local_held after.ring ≡ with_tail (local_held before.ring) };

    ghost looks = { λ before after. local_held after.ring ≡ with_head_seen (local_held before.ring) };

    fn publish(&mut self) {
        self.ring.publish_tail();
    }

    fn look(&mut self) {
        self.ring.see_head();
    }
}
