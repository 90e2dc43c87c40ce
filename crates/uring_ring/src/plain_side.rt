//! The partner's side of a pair of rings whose user's ends are out as queue values.

ghost use Rattle.std.specs.Prelude.{◌≡◌, ◌≤◌, length};

use crate::completion_queue::CompletionQueue;
use crate::submission_queue::SubmissionQueue;
use ring_traits::{PartnerSide, Rings};
use uring_base::squeue::Entry;
use uring_base::{Completion, Taken};
use uring_large::cqueue;

/// The partner's side of the rings that two queue values lend. What the queue values last saw
/// stays as it is.
#[derive(Drop)]
pub struct PlainSide<'a, 'q, S = Entry, C = cqueue::Entry> {
    submissions: &'a mut SubmissionQueue<'q, S>,
    completions: &'a mut CompletionQueue<'q, C>,
}

impl<'a, 'q, S, C> PlainSide<'a, 'q, S, C> {
    /// The partner's side of these two queue values' rings.
    pub fn of(
        submissions: &'a mut SubmissionQueue<'q, S>,
        completions: &'a mut CompletionQueue<'q, C>,
    ) -> PlainSide<'a, 'q, S, C>
        ensures submissions { result.submissions.ghost_name ≡ submissions.entry.ghost_name }
        ensures completions { result.completions.ghost_name ≡ completions.entry.ghost_name }
        ensures entries { result.submissions.now ≡ submissions.old }
        ensures posts { result.completions.now ≡ completions.old }
    {
        PlainSide {
            submissions,
            completions,
        }
    }
}

impl<S, C: cqueue::EntryMarker> Rings for PlainSide<'_, '_, S, C> {
    ghost use Rattle.std.specs.Prelude.{Some, refl};
    ghost use Rattle.uring_ring.specs.Sizes.{kept_as};
    ghost use Rattle.uring_ring.specs.PlainSide.{side_lists, side_entries, side_completions};
    ghost use Rattle.uring_ring.specs.Laws.{side_has_room};

    ghost lists = { λ side. Some (side_lists side) };

    ghost kept = { kept_as C.made_of C.big_of C.large_of };

    ghost offer_place = { λ side. (side_entries side).put_place };

    ghost reap_place = { λ side. (side_completions side).take_place };

    ghost fits = { side_has_room };

    ghost keeps = { λ _. refl };
}

impl<S, C: cqueue::EntryMarker> PartnerSide for PlainSide<'_, '_, S, C> {
    ghost use Rattle.std.specs.Prelude.{◌+◌, ◌<◌, ◌↔◌, ◌⊎◌, [], ◌∷◌, true, IsOk, IsSome, OnOk, OnErr, IfErr};
    ghost use Rattle.std.proofs.Common.{ap};
    ghost use Rattle.std.specs.Option.{option_to_list};
    ghost use Rattle.ring_traits.specs.Lists.{room_of, one_more};
    ghost use Rattle.uring_ring.specs.Sizes.{kept_as};
    ghost use Rattle.uring_ring.specs.PlainSide.{SideMoves, SideMarks, side_lists, side_entries, side_completions, side_words};
    ghost use Rattle.uring_ring.specs.Laws.{SideMoves-none, SideMoves-then, marked_side};

    ghost moved = { SideMoves (kept_as C.made_of C.big_of C.large_of) };

    ghost ready = { λ side. (side_entries side).waiting };

    ghost space = { λ side. (side_completions side).spare };

    ghost has_words = { true };

    ghost flags_word = { λ side. (side_words side).flags };

    ghost dropped = { λ side. (side_words side).dropped };

    ghost overflow = { λ side. (side_words side).overflow };

    ghost marked = { SideMarks };

    // Each call has the trait's clauses, and says what the words beside the rings are.
    fn published(&mut self) -> u32
        ensures moved { SideMoves (kept_as C.made_of C.big_of C.large_of) self.old [] [] self.new }
        ensures count { result ≡ (side_entries self.new).waiting }
        ensures grows { (side_entries self.old).waiting ≤ (side_entries self.new).waiting }
        ensures space { (side_completions self.new).spare ≡ (side_completions self.old).spare }
        ensures told { result ≡ length (side_entries self.old).published }
        ensures words { side_words self.new ≡ side_words self.old }
    {
        self.submissions.ring.published()
    }

    fn take(&mut self) -> Option<Taken>
        ensures moved { SideMoves (kept_as C.made_of C.big_of C.large_of) self.old (option_to_list result) [] self.new }
        ensures known { 0 < (side_entries self.old).waiting → IsSome result }
        ensures told { IsSome result ↔ (0 < length (side_entries self.old).published) }
        ensures none { IsSome result ⊎ ((side_entries self.new).waiting ≡ 0) }
        ensures count { (side_entries self.old).waiting ≤ (side_entries self.new).waiting + length (option_to_list result) }
        ensures space { (side_completions self.new).spare ≡ (side_completions self.old).spare }
        ensures words { side_words self.new ≡ side_words self.old }
    {
        self.submissions.ring.take()
    }

    fn room(&mut self) -> u32
        ensures moved { SideMoves (kept_as C.made_of C.big_of C.large_of) self.old [] [] self.new }
        ensures count { result ≡ (side_completions self.new).spare }
        ensures grows { (side_completions self.old).spare ≤ (side_completions self.new).spare }
        ensures ready { (side_entries self.new).waiting ≡ (side_entries self.old).waiting }
        ensures told { result ≡ room_of (side_lists self.old) }
        ensures words { side_words self.new ≡ side_words self.old }
    {
        self.completions.ring.room()
    }

    fn post(&mut self, completion: Completion) -> Result<(), Completion>
        ensures known { 0 < (side_completions self.old).spare → IsOk result }
        ensures told { IsOk result ↔ (0 < room_of (side_lists self.old)) }
        ensures ok { OnOk result (SideMoves (kept_as C.made_of C.big_of C.large_of) self.old [] (completion ∷ []) self.new × ((side_completions self.old).spare ≤ (side_completions self.new).spare + 1)) }
        ensures back { IfErr result (λ c. c ≡ completion) }
        ensures err { OnErr result (SideMoves (kept_as C.made_of C.big_of C.large_of) self.old [] [] self.new × ((side_completions self.new).spare ≡ 0)) }
        ensures ready { (side_entries self.new).waiting ≡ (side_entries self.old).waiting }
        ensures words { side_words self.new ≡ side_words self.old }
    {
        self.completions.ring.post::<C>(completion)
    }

    fn sq_flags(&self) -> u32 {
        self.submissions.ring.words.flags
    }

    fn set_sq_flags(&mut self, flags: u32)
        ensures marked { SideMarks self.old self.new }
        ensures counters { ((side_words self.new).dropped ≡ (side_words self.old).dropped) × ((side_words self.new).overflow ≡ (side_words self.old).overflow) }
        ensures known { ((side_entries self.new).waiting ≡ (side_entries self.old).waiting) × ((side_completions self.new).spare ≡ (side_completions self.old).spare) }
        ensures word { (side_words self.new).flags ≡ flags }
        ensures words { side_words self.new ≡ record (side_words self.old) { flags = flags } }
    {
        let queue = &mut *self.submissions;
        let ring = &mut *queue.ring;
        ring.words.flags = flags;
    }

    fn add_dropped(&mut self)
        ensures marked { SideMarks self.old self.new }
        ensures counter { (side_words self.new).dropped ≡ one_more (side_words self.old).dropped }
        ensures others { ((side_words self.new).flags ≡ (side_words self.old).flags) × ((side_words self.new).overflow ≡ (side_words self.old).overflow) }
        ensures known { ((side_entries self.new).waiting ≡ (side_entries self.old).waiting) × ((side_completions self.new).spare ≡ (side_completions self.old).spare) }
        ensures words { side_words self.new ≡ record (side_words self.old) { dropped = one_more (side_words self.old).dropped } }
    {
        let queue = &mut *self.submissions;
        let ring = &mut *queue.ring;
        ring.words.dropped = ring.words.dropped.saturating_add(1);
    }

    fn add_overflow(&mut self)
        ensures marked { SideMarks self.old self.new }
        ensures counter { (side_words self.new).overflow ≡ one_more (side_words self.old).overflow }
        ensures others { ((side_words self.new).flags ≡ (side_words self.old).flags) × ((side_words self.new).dropped ≡ (side_words self.old).dropped) }
        ensures known { ((side_entries self.new).waiting ≡ (side_entries self.old).waiting) × ((side_completions self.new).spare ≡ (side_completions self.old).spare) }
        ensures words { side_words self.new ≡ record (side_words self.old) { overflow = one_more (side_words self.old).overflow } }
    {
        let queue = &mut *self.completions;
        let ring = &mut *queue.ring;
        ring.words.overflow = ring.words.overflow.saturating_add(1);
    }

    ghost moved_none = { SideMoves-none _ };

    ghost moved_then = { SideMoves-then _ };

    ghost moved_told = { λ a b ts cs moves. moves.lists };

    ghost moved_places = { λ a b ts cs moves. (moves.offer_place, moves.reap_place) };

    ghost moved_words = { λ a b ts cs moves. (ap (λ w. w.flags) moves.words, ap (λ w. w.dropped) moves.words, ap (λ w. w.overflow) moves.words) };

    ghost marked_told = { marked_side };

    ghost marked_places = { λ a b marks. (ap (λ h. h.put_place) marks.entries, ap (λ h. h.take_place) marks.posts) };
}
