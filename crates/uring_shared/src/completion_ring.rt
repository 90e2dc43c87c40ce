//! The completion ring of one thread.

ghost use Rattle.std.specs.Prelude.{◌≡◌, length};
ghost use Rattle.ring_shared.specs.LocalHeld.{local_held};
ghost use Rattle.uring_base.specs.Completions.{without_big};

use ring_core::End;
use ring_shared::{LocalRing, SharedError};
use std::alloc::Global;
use uring_base::Completion;

/// What a ring of small completion entries keeps of a completion: all but its two further numbers,
/// as a small one.
pub(crate) fn without_big(completion: Completion) -> Completion
    ensures { result ≡ without_big completion }
{
    Completion {
        big: [0; 2],
        large: false,
        ..completion
    }
}

/// Completions with their loans.
#[derive(Drop)]
pub(crate) struct CompletionRing {
    pub(crate) ring: LocalRing<Completion>,
    // what the partner posts it shows at once
    ghost shown: { length (local_held ring).pushed ≡ 0 },
}

impl CompletionRing {
    ghost use Rattle.std.specs.Prelude.{◌↔◌, ◌<◌, ◌≤◌, ◌+◌, true, IfOk, IsOk, IfErr, OnOk, OnErr};
    ghost use Rattle.ring_core.specs.Positions.{is_ring_size};
    ghost use Rattle.ring_core.specs.Slots.{empty_ring, with_head_seen, with_post};

    pub(crate) fn new(
        alloc: Global,
        capacity: u32,
        start: u32,
    ) -> Result<CompletionRing, SharedError>
        requires { is_ring_size capacity ≡ true }
        ensures { IfOk result (λ completions. local_held completions.ring ≡ empty_ring capacity start) }
    {
        Ok(CompletionRing {
            ring: LocalRing::new(alloc, capacity, start)?,
        })
    }

    /// The partner sees which slots are free, and learns how many that are.
    pub(crate) fn room(&mut self) -> u32
        ensures completions { local_held self.new.ring ≡ with_head_seen (local_held self.old.ring) }
        ensures count { result ≡ (local_held self.new.ring).spare }
    {
        self.ring.see_head();
        self.ring.spare()
    }

    /// The partner looks, and posts a completion, where one fits.
    pub(crate) fn post(&mut self, completion: Completion) -> Result<(), Completion>
        ensures room { IsOk result ↔ (0 < (with_head_seen (local_held self.old.ring)).spare) }
        ensures ok { OnOk result (local_held self.new.ring ≡ with_post (without_big completion) (with_head_seen (local_held self.old.ring))) }
        ensures back { IfErr result (λ c. c ≡ completion) }
        ensures err { OnErr result (local_held self.new.ring ≡ with_head_seen (local_held self.old.ring)) }
        ensures known { 0 < (local_held self.old.ring).spare → IsOk result }
        ensures count { OnOk result ((local_held self.old.ring).spare ≤ (local_held self.new.ring).spare + 1) }
    {
        self.ring.see_head();
        if self.ring.spare() == 0 {
            return Err(completion);
        }
        self.ring.put(without_big(completion));
        self.ring.publish_tail();
        Ok(())
    }
}

/// The user's end: it gives the slots of what was reaped back, and sees what the partner has posted.
impl End for CompletionRing {
    ghost use Rattle.ring_core.specs.Slots.{with_head, with_tail_seen};

    ghost publishes = { λ before after. local_held after.ring ≡ with_head (local_held before.ring) };

    ghost looks = { λ before after. local_held after.ring ≡ with_tail_seen (local_held before.ring) };

    fn publish(&mut self) {
        self.ring.publish_head();
    }

    fn look(&mut self) {
        self.ring.see_tail();
    }
}
