//! The completion ring with the words beside it.

ghost use Rattle.std.specs.Prelude.{◌≡◌, length};
ghost use Rattle.ring_core.specs.Slots.{held_of};
ghost use Rattle.uring_ring.specs.Sizes.{kept_as};

use ring_core::{End, Slots};
use std::alloc::{AllocError, Global};
use uring_base::Completion;
use uring_large::cqueue::EntryMarker;

/// The words beside the completions. The user writes the flags, and the partner the counter.
#[derive(Clone, Copy, PartialEq, Eq, Debug)]
pub(crate) struct CompletionWords {
    pub(crate) flags: u32,
    pub(crate) overflow: u32,
}

/// A completion with as much of its two further numbers as an entry `C` holds, and of that entry's
/// size.
fn kept_as<C: EntryMarker>(completion: Completion) -> Completion
    ensures { result ≡ kept_as C.made_of C.big_of C.large_of completion }
{
    let entry = C::from_posted(
        completion.user_data,
        completion.result,
        completion.flags,
        completion.large,
        completion.big,
    );
    Completion {
        big: entry.big(),
        large: entry.is_large(),
        ..completion
    }
}

/// Completions with their loans, and the words beside them.
#[derive(Drop)]
pub(crate) struct CompletionRing {
    pub(crate) slots: Slots<Completion>,
    pub(crate) words: CompletionWords,
    // what the partner posts it shows at once
    ghost shown: { length (held_of slots).pushed ≡ 0 },
}

impl CompletionRing {
    ghost use Rattle.std.specs.Prelude.{◌↔◌, ◌<◌, ◌≤◌, ◌+◌, true, IfOk, IsOk, IfErr, OnOk, OnErr};
    ghost use Rattle.ring_core.specs.Positions.{is_ring_size};
    ghost use Rattle.ring_core.specs.Slots.{empty_ring, with_head_seen, with_post};

    pub(crate) fn new(
        alloc: Global,
        capacity: u32,
        start: u32,
    ) -> Result<CompletionRing, AllocError>
        requires { is_ring_size capacity ≡ true }
        ensures completions { IfOk result (λ ring. held_of ring.slots ≡ empty_ring capacity start) }
        ensures words { IfOk result (λ ring. ring.words ≡ record { flags = 0; overflow = 0 }) }
    {
        Ok(CompletionRing {
            slots: Slots::new(alloc, capacity, start)?,
            words: CompletionWords {
                flags: 0,
                overflow: 0,
            },
        })
    }

    /// The partner sees which slots are free, and learns how many that are.
    pub(crate) fn room(&mut self) -> u32
        ensures completions { held_of self.new.slots ≡ with_head_seen (held_of self.old.slots) }
        ensures words { self.new.words ≡ self.old.words }
        ensures count { result ≡ (held_of self.new.slots).spare }
    {
        self.slots.see_head();
        self.slots.spare()
    }

    /// The partner posts a completion, of which a ring of entries `C` keeps what a `C` holds.
    pub(crate) fn post<C: EntryMarker>(&mut self, completion: Completion) -> Result<(), Completion>
        ensures room { IsOk result ↔ (0 < (with_head_seen (held_of self.old.slots)).spare) }
        ensures ok { OnOk result (held_of self.new.slots ≡ with_post (kept_as C.made_of C.big_of C.large_of completion) (with_head_seen (held_of self.old.slots))) }
        ensures back { IfErr result (λ c. c ≡ completion) }
        ensures err { OnErr result (held_of self.new.slots ≡ with_head_seen (held_of self.old.slots)) }
        ensures known { 0 < (held_of self.old.slots).spare → IsOk result }
        ensures count { OnOk result ((held_of self.old.slots).spare ≤ (held_of self.new.slots).spare + 1) }
        ensures words { self.new.words ≡ self.old.words }
    {
        self.slots.see_head();
        if self.slots.spare() == 0 {
            return Err(completion);
        }
        self.slots.put(kept_as::<C>(completion));
        self.slots.publish_tail();
        Ok(())
    }
}

/// The user's end: it gives the slots of what was taken back, and sees what the partner has posted.
impl End for CompletionRing {
    ghost use Rattle.ring_core.specs.Slots.{with_head, with_tail_seen};

    ghost publishes = { λ before after. (held_of after.slots ≡ with_head (held_of before.slots)) × (after.words ≡ before.words) };

    ghost looks = { λ before after. (held_of after.slots ≡ with_tail_seen (held_of before.slots)) × (after.words ≡ before.words) };

    fn publish(&mut self) {
        self.slots.publish_head();
    }

    fn look(&mut self) {
        self.slots.see_tail();
    }
}
