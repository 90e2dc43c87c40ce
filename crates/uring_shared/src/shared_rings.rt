//! Both rings with both their ends, for one thread.

ghost use Rattle.std.specs.Prelude.{◌≡◌, ◌≤◌, length};
ghost use Rattle.uring_base.specs.declared.limits.TheConstants.{MAX_ENTRIES};

use crate::completion_ring::CompletionRing;
use crate::submission_ring::SubmissionRing;
use ring_core::End;
use ring_shared::SharedError;
use ring_traits::{PartnerSide, Rings, UserEnds};
use std::alloc::Global;
use uring_base::squeue::Entry;
use uring_base::{Completion, Loan, Taken};

/// A submission ring and a completion ring of small entries over atomic words and slots, for one
/// thread that has the user's side and the partner's. All their memory is taken when they are made.
/// There is no word of flags and no counter beside them: these read as 0.
#[derive(Drop)]
pub struct SharedRings {
    submissions: SubmissionRing,
    completions: CompletionRing,
}

impl SharedRings {
    ghost use Rattle.std.specs.Prelude.{true, IfOk};
    ghost use Rattle.ring_core.specs.Positions.{is_ring_size};
    ghost use Rattle.uring_shared.specs.SharedRings.{IsOpened};

    /// Two rings that hold nothing, each of their positions at `start`, or want of memory. The
    /// sizes are those of rings: powers of two, at most 32768 entries and 65536 completions.
    pub fn new(alloc: Global, sq: u32, cq: u32, start: u32) -> Result<SharedRings, SharedError>
        requires entries { is_ring_size sq ≡ true }
        requires small { sq ≤ MAX_ENTRIES }
        requires completions { is_ring_size cq ≡ true }
        ensures { IfOk result (λ rings. IsOpened rings sq cq start) }
    {
        Ok(SharedRings {
            submissions: SubmissionRing::new(alloc, sq, start)?,
            completions: CompletionRing::new(alloc, cq, start)?,
        })
    }
}

impl Rings for SharedRings {
    ghost use Rattle.std.specs.Prelude.{Some, refl};
    ghost use Rattle.uring_base.specs.Completions.{without_big};
    ghost use Rattle.uring_shared.specs.SharedRings.{lists_of, entries_in, completions_in};
    ghost use Rattle.uring_shared.specs.RingLaws.{has_room};

    ghost lists = { λ rings. Some (lists_of rings) };

    ghost kept = { without_big };

    ghost offer_place = { λ rings. (entries_in rings).put_place };

    ghost reap_place = { λ rings. (completions_in rings).take_place };

    ghost fits = { has_room };

    ghost keeps = { λ _. refl };
}

impl PartnerSide for SharedRings {
    ghost use Rattle.std.specs.Prelude.{false, refl};
    ghost use Rattle.uring_shared.specs.SharedRings.{RingMoves, entries_in, completions_in};
    ghost use Rattle.uring_shared.specs.RingLaws.{RingMoves-none, RingMoves-then, unmarked_lists, unmarked_places};

    ghost moved = { RingMoves };

    ghost ready = { λ rings. (entries_in rings).waiting };

    ghost space = { λ rings. (completions_in rings).spare };

    ghost has_words = { false };

    ghost flags_word = { λ _. 0 };

    ghost dropped = { λ _. 0 };

    ghost overflow = { λ _. 0 };

    // There is no such word, so nothing changes.
    ghost marked = { λ before after. after ≡ before };

    fn published(&mut self) -> u32 {
        self.submissions.published()
    }

    fn take(&mut self) -> Option<Taken> {
        self.submissions.take()
    }

    fn room(&mut self) -> u32 {
        self.completions.room()
    }

    fn post(&mut self, completion: Completion) -> Result<(), Completion> {
        self.completions.post(completion)
    }

    fn sq_flags(&self) -> u32 {
        0
    }

    fn set_sq_flags(&mut self, _flags: u32) {}

    fn add_dropped(&mut self) {}

    fn add_overflow(&mut self) {}

    ghost moved_none = { RingMoves-none };

    ghost moved_then = { RingMoves-then };

    ghost moved_told = { λ a b ts cs moves. moves.lists };

    ghost moved_places = { λ a b ts cs moves. (moves.offer_place, moves.reap_place) };

    ghost moved_words = { λ a b ts cs moves. (refl, refl, refl) };

    ghost marked_told = { unmarked_lists };

    ghost marked_places = { unmarked_places };
}

impl UserEnds for SharedRings {
    ghost use Rattle.std.specs.Prelude.{refl, false};
    ghost use Rattle.uring_shared.specs.SharedRings.{RingUses, entries_in, completions_in};
    ghost use Rattle.uring_shared.specs.RingLaws.{RingUses-none, RingUses-then};

    ghost used = { RingUses };

    ghost room = { λ rings. (entries_in rings).spare };

    ghost waiting = { λ rings. (completions_in rings).waiting };

    ghost offers_large = { false };

    ghost entries_fit = { λ rings. (entries_in rings).capacity };

    ghost completions_fit = { λ rings. (completions_in rings).capacity };

    fn offer(&mut self, entry: Entry, loan: Option<Loan>) -> Result<(), (Entry, Option<Loan>)> {
        if self.submissions.ring.spare() == 0 {
            return Err((entry, loan));
        }
        let taken = Taken {
            entry,
            big: [0; 64],
            large: false,
            loan,
        };
        self.submissions.ring.put(taken);
        Ok(())
    }

    fn publish(&mut self) {
        self.submissions.publish();
        self.completions.publish();
    }

    fn refresh(&mut self) {
        self.submissions.look();
        self.completions.look();
    }

    fn reap(&mut self) -> Option<Completion> {
        self.completions.ring.take()
    }

    fn free(&self) -> u32 {
        self.submissions.ring.spare()
    }

    fn capacity(&self) -> u32 {
        self.submissions.ring.capacity()
    }

    fn completion_capacity(&self) -> u32 {
        self.completions.ring.capacity()
    }

    fn places(&self) -> (u32, u32) {
        (
            self.submissions.ring.places().0,
            self.completions.ring.places().1,
        )
    }

    ghost used_none = { RingUses-none };

    ghost used_then = { RingUses-then };

    ghost used_places = { λ a b ts cs uses. (uses.offer_place, uses.reap_place) };

    ghost sizes = { λ _. (refl, refl) };
}
