//! The pair of rings for one thread.

ghost use Rattle.std.specs.Prelude.{◌≡◌, ◌≤◌, length};
ghost use Rattle.uring_base.specs.declared.limits.TheConstants.{MAX_ENTRIES};

use crate::completion_queue::CompletionQueue;
use crate::completion_ring::CompletionRing;
use crate::pair::queues;
use crate::submission_queue::{SubmissionQueue, as_offered};
use crate::submission_ring::SubmissionRing;
use ring_core::{End, SetupError};
use ring_setup::Parameters;
use ring_traits::{PartnerSide, Rings, UserEnds};
use std::alloc::{AllocError, Global};
use std::marker::PhantomData;
use uring_base::squeue::Entry;
use uring_base::{Completion, Loan, Taken};
use uring_large::cqueue;
use uring_large::squeue::EntryMarker;

/// A submission ring of entries `S` with their loans and a completion ring of entries `C`, for one
/// thread that has the user's side and the partner's. All its memory is taken when it is made.
#[derive(Drop)]
pub struct IoUring<S = Entry, C = cqueue::Entry> {
    submissions: SubmissionRing,
    completions: CompletionRing,
    parameters: Parameters,
    sizes: PhantomData<(S, C)>,
}

impl IoUring<Entry, cqueue::Entry> {
    ghost use Rattle.std.specs.Prelude.{◌*◌, ◌<◌, ◌↔◌, IfOk, IfErr};
    ghost use Rattle.uring_base.specs.Sizes.{rounded_up};
    ghost use Rattle.ring_setup.specs.Setup.{default_settings, parameters_for, IsInvalidCount};
    ghost use Rattle.uring_ring.specs.IoUring.{IsOpened, TellsSizes, parameters_of};

    /// A ring of small entries for so many of them, rounded up to a power of two, and twice as many
    /// completions. Its positions begin at 0.
    pub fn new(alloc: Global, entries: u32) -> Result<IoUring, SetupError>
        ensures ok { IfOk result (λ ring. IsOpened ring (rounded_up entries) (2 * rounded_up entries) 0) }
        ensures parameters { IfOk result (λ ring. parameters_of ring ≡ parameters_for (default_settings 0) entries) }
        ensures sizes { IfOk result TellsSizes }
        ensures valid { IfOk result (λ _. (0 < entries) × (entries ≤ MAX_ENTRIES)) }
        ensures invalid { IfErr result (λ error. (error ≡ SetupError.Invalid) ↔ IsInvalidCount entries) }
    {
        IoUring::with_start(alloc, entries, 0)
    }

    /// The same, with positions that begin at `start`.
    pub fn with_start(alloc: Global, entries: u32, start: u32) -> Result<IoUring, SetupError>
        ensures ok { IfOk result (λ ring. IsOpened ring (rounded_up entries) (2 * rounded_up entries) start) }
        ensures parameters { IfOk result (λ ring. parameters_of ring ≡ parameters_for (default_settings 0) entries) }
        ensures sizes { IfOk result TellsSizes }
        ensures valid { IfOk result (λ _. (0 < entries) × (entries ≤ MAX_ENTRIES)) }
        ensures invalid { IfErr result (λ error. (error ≡ SetupError.Invalid) ↔ IsInvalidCount entries) }
    {
        let mut builder = IoUring::<Entry, cqueue::Entry>::builder();
        builder.start(start).build(alloc, entries)
    }
}

impl<S, C> IoUring<S, C> {
    ghost use Rattle.std.specs.Prelude.{true, IfOk};
    ghost use Rattle.std.specs.Borrow.{sem};
    ghost use Rattle.ring_core.specs.Positions.{is_ring_size};
    ghost use Rattle.ring_setup.specs.Setup.{told_entries, told_completions};
    ghost use Rattle.ring_core.specs.Slots.{with_head_seen, with_tail_seen};
    ghost use Rattle.uring_ring.specs.IoUring.{IsOpened, TellsSizes, lists_of, parameters_of, entries_in, completions_in, submission_words_in, completion_words_in, LendsSubmissions, LendsCompletions, LendsRings};
    ghost use Rattle.uring_ring.specs.Queues.{entries_at, completions_at, submission_words_at, completion_words_at};

    pub(crate) fn open(
        alloc: Global,
        parameters: Parameters,
        start: u32,
    ) -> Result<IoUring<S, C>, AllocError>
        requires entries { is_ring_size (told_entries parameters) ≡ true }
        requires completions { is_ring_size (told_completions parameters) ≡ true }
        requires small { told_entries parameters ≤ MAX_ENTRIES }
        ensures ok { IfOk result (λ ring. IsOpened ring (told_entries parameters) (told_completions parameters) start) }
        ensures parameters { IfOk result (λ ring. parameters_of ring ≡ parameters) }
        ensures sizes { IfOk result TellsSizes }
    {
        Ok(IoUring {
            submissions: SubmissionRing::new(alloc, parameters.sq_entries(), start)?,
            completions: CompletionRing::new(alloc, parameters.cq_entries(), start)?,
            parameters,
            sizes: PhantomData,
        })
    }

    /// What the ring was made with.
    pub fn params(&self) -> &Parameters
        ensures value { result.now ≡ parameters_of self.now }
        ensures sizes { TellsSizes self.now → (told_entries result.now ≡ (lists_of self.now).capacity) × (told_completions result.now ≡ (lists_of self.now).completion_capacity) }
    {
        &self.parameters
    }

    /// The user's end of the submission ring. It sees what the partner has taken.
    pub fn submission(&mut self) -> SubmissionQueue<'_, S>
        ensures* lent { sem 𝓛 (LendsSubmissions S.row C.row self.entry result.ring) }
        ensures entries { entries_at result ≡ with_head_seen (entries_in self.old) }
        ensures words { submission_words_at result ≡ submission_words_in self.old }
    {
        let submissions = &mut self.submissions;
        submissions.look();
        SubmissionQueue {
            ring: submissions,
            size: PhantomData,
        }
    }

    /// The user's end of the completion ring. It sees what the partner has posted.
    pub fn completion(&mut self) -> CompletionQueue<'_, C>
        ensures* lent { sem 𝓛 (LendsCompletions S.row C.row self.entry result.ring) }
        ensures completions { completions_at result ≡ with_tail_seen (completions_in self.old) }
        ensures words { completion_words_at result ≡ completion_words_in self.old }
    {
        let completions = &mut self.completions;
        completions.look();
        CompletionQueue {
            ring: completions,
            size: PhantomData,
        }
    }

    /// Both rings at once.
    fn both(&mut self) -> (&mut SubmissionRing, &mut CompletionRing)
        ensures* lent { sem 𝓛 (LendsRings S.row C.row self.entry result) }
        ensures values { (result.0.now ≡ self.old.submissions) × (result.1.now ≡ self.old.completions) }
    {
        (&mut self.submissions, &mut self.completions)
    }

    /// The user's ends of both rings at once. Each sees what the partner has done.
    pub fn split(&mut self) -> (SubmissionQueue<'_, S>, CompletionQueue<'_, C>)
        ensures* lent { sem 𝓛 (LendsRings S.row C.row self.entry (result.0.ring, result.1.ring)) }
        ensures entries { entries_at result.0 ≡ with_head_seen (entries_in self.old) }
        ensures completions { completions_at result.1 ≡ with_tail_seen (completions_in self.old) }
        ensures submission_words { submission_words_at result.0 ≡ submission_words_in self.old }
        ensures completion_words { completion_words_at result.1 ≡ completion_words_in self.old }
    {
        let (submissions, completions) = self.both();
        queues(submissions, completions)
    }
}

impl<S, C: cqueue::EntryMarker> Rings for IoUring<S, C> {
    ghost use Rattle.std.specs.Prelude.{Some, refl};
    ghost use Rattle.uring_ring.specs.Sizes.{kept_as};
    ghost use Rattle.uring_ring.specs.IoUring.{lists_of, entries_in, completions_in};
    ghost use Rattle.uring_ring.specs.Laws.{has_room};

    ghost lists = { λ ring. Some (lists_of ring) };

    ghost kept = { kept_as C.made_of C.big_of C.large_of };

    ghost offer_place = { λ ring. (entries_in ring).put_place };

    ghost reap_place = { λ ring. (completions_in ring).take_place };

    ghost fits = { has_room };

    ghost keeps = { λ _. refl };
}

impl<S, C: cqueue::EntryMarker> PartnerSide for IoUring<S, C> {
    ghost use Rattle.std.specs.Prelude.{◌+◌, ◌<◌, ◌↔◌, [], ◌∷◌, true, IsOk, IsSome, OnOk, OnErr, IfErr, ◌⊎◌};
    ghost use Rattle.std.proofs.Common.{ap};
    ghost use Rattle.std.specs.Option.{option_to_list};
    ghost use Rattle.ring_traits.specs.Lists.{room_of, one_more};
    ghost use Rattle.uring_ring.specs.Sizes.{kept_as};
    ghost use Rattle.uring_ring.specs.IoUring.{RingMoves, RingMarks, lists_of, entries_in, completions_in, ring_words};
    ghost use Rattle.uring_ring.specs.Laws.{RingMoves-none, RingMoves-then, marked_lists};

    ghost moved = { RingMoves (kept_as C.made_of C.big_of C.large_of) };

    ghost ready = { λ ring. (entries_in ring).waiting };

    ghost space = { λ ring. (completions_in ring).spare };

    ghost has_words = { true };

    ghost flags_word = { λ ring. (ring_words ring).flags };

    ghost dropped = { λ ring. (ring_words ring).dropped };

    ghost overflow = { λ ring. (ring_words ring).overflow };

    ghost marked = { RingMarks };

    // Each call of this side has the trait's clauses, and says what the words beside the rings are.
    fn published(&mut self) -> u32
        ensures moved { RingMoves (kept_as C.made_of C.big_of C.large_of) self.old [] [] self.new }
        ensures count { result ≡ (entries_in self.new).waiting }
        ensures grows { (entries_in self.old).waiting ≤ (entries_in self.new).waiting }
        ensures space { (completions_in self.new).spare ≡ (completions_in self.old).spare }
        ensures told { result ≡ length (entries_in self.old).published }
        ensures words { ring_words self.new ≡ ring_words self.old }
    {
        self.submissions.published()
    }

    fn take(&mut self) -> Option<Taken>
        ensures moved { RingMoves (kept_as C.made_of C.big_of C.large_of) self.old (option_to_list result) [] self.new }
        ensures known { 0 < (entries_in self.old).waiting → IsSome result }
        ensures told { IsSome result ↔ (0 < length (entries_in self.old).published) }
        ensures none { IsSome result ⊎ ((entries_in self.new).waiting ≡ 0) }
        ensures count { (entries_in self.old).waiting ≤ (entries_in self.new).waiting + length (option_to_list result) }
        ensures space { (completions_in self.new).spare ≡ (completions_in self.old).spare }
        ensures words { ring_words self.new ≡ ring_words self.old }
    {
        self.submissions.take()
    }

    fn room(&mut self) -> u32
        ensures moved { RingMoves (kept_as C.made_of C.big_of C.large_of) self.old [] [] self.new }
        ensures count { result ≡ (completions_in self.new).spare }
        ensures grows { (completions_in self.old).spare ≤ (completions_in self.new).spare }
        ensures ready { (entries_in self.new).waiting ≡ (entries_in self.old).waiting }
        ensures told { result ≡ room_of (lists_of self.old) }
        ensures words { ring_words self.new ≡ ring_words self.old }
    {
        self.completions.room()
    }

    fn post(&mut self, completion: Completion) -> Result<(), Completion>
        ensures known { 0 < (completions_in self.old).spare → IsOk result }
        ensures told { IsOk result ↔ (0 < room_of (lists_of self.old)) }
        ensures ok { OnOk result (RingMoves (kept_as C.made_of C.big_of C.large_of) self.old [] (completion ∷ []) self.new × ((completions_in self.old).spare ≤ (completions_in self.new).spare + 1)) }
        ensures back { IfErr result (λ c. c ≡ completion) }
        ensures err { OnErr result (RingMoves (kept_as C.made_of C.big_of C.large_of) self.old [] [] self.new × ((completions_in self.new).spare ≡ 0)) }
        ensures ready { (entries_in self.new).waiting ≡ (entries_in self.old).waiting }
        ensures words { ring_words self.new ≡ ring_words self.old }
    {
        self.completions.post::<C>(completion)
    }

    fn sq_flags(&self) -> u32 {
        self.submissions.words.flags
    }

    fn set_sq_flags(&mut self, flags: u32)
        ensures marked { RingMarks self.old self.new }
        ensures word { (ring_words self.new).flags ≡ flags }
        ensures counters { ((ring_words self.new).dropped ≡ (ring_words self.old).dropped) × ((ring_words self.new).overflow ≡ (ring_words self.old).overflow) }
        ensures known { ((entries_in self.new).waiting ≡ (entries_in self.old).waiting) × ((completions_in self.new).spare ≡ (completions_in self.old).spare) }
        ensures words { ring_words self.new ≡ record (ring_words self.old) { flags = flags } }
    {
        self.submissions.words.flags = flags;
    }

    fn add_dropped(&mut self)
        ensures marked { RingMarks self.old self.new }
        ensures counter { (ring_words self.new).dropped ≡ one_more (ring_words self.old).dropped }
        ensures others { ((ring_words self.new).flags ≡ (ring_words self.old).flags) × ((ring_words self.new).overflow ≡ (ring_words self.old).overflow) }
        ensures known { ((entries_in self.new).waiting ≡ (entries_in self.old).waiting) × ((completions_in self.new).spare ≡ (completions_in self.old).spare) }
        ensures words { ring_words self.new ≡ record (ring_words self.old) { dropped = one_more (ring_words self.old).dropped } }
    {
        let dropped = self.submissions.words.dropped;
        self.submissions.words.dropped = dropped.saturating_add(1);
    }

    fn add_overflow(&mut self)
        ensures marked { RingMarks self.old self.new }
        ensures counter { (ring_words self.new).overflow ≡ one_more (ring_words self.old).overflow }
        ensures others { ((ring_words self.new).flags ≡ (ring_words self.old).flags) × ((ring_words self.new).dropped ≡ (ring_words self.old).dropped) }
        ensures known { ((entries_in self.new).waiting ≡ (entries_in self.old).waiting) × ((completions_in self.new).spare ≡ (completions_in self.old).spare) }
        ensures words { ring_words self.new ≡ record (ring_words self.old) { overflow = one_more (ring_words self.old).overflow } }
    {
        let overflow = self.completions.words.overflow;
        self.completions.words.overflow = overflow.saturating_add(1);
    }

    ghost moved_none = { RingMoves-none _ };

    ghost moved_then = { RingMoves-then _ };

    ghost moved_told = { λ a b ts cs moves. moves.lists };

    ghost moved_places = { λ a b ts cs moves. (moves.offer_place, moves.reap_place) };

    ghost moved_words = { λ a b ts cs moves. (ap (λ w. w.flags) moves.words, ap (λ w. w.dropped) moves.words, ap (λ w. w.overflow) moves.words) };

    ghost marked_told = { marked_lists };

    ghost marked_places = { λ a b marks. (ap (λ h. h.put_place) marks.entries, ap (λ h. h.take_place) marks.completions) };
}

impl<S: EntryMarker, C: cqueue::EntryMarker> UserEnds for IoUring<S, C> {
    ghost use Rattle.std.specs.Prelude.{refl};
    ghost use Rattle.uring_ring.specs.IoUring.{RingUses, entries_in, completions_in};
    ghost use Rattle.uring_ring.specs.Laws.{RingUses-none, RingUses-then};

    ghost used = { RingUses };

    ghost offers_large = { S.made_large };

    ghost room = { λ ring. (entries_in ring).spare };

    ghost waiting = { λ ring. (completions_in ring).waiting };

    ghost entries_fit = { λ ring. (entries_in ring).capacity };

    ghost completions_fit = { λ ring. (completions_in ring).capacity };

    fn offer(&mut self, entry: Entry, loan: Option<Loan>) -> Result<(), (Entry, Option<Loan>)> {
        if self.submissions.slots.spare() == 0 {
            return Err((entry, loan));
        }
        self.submissions.slots.put(as_offered::<S>(entry, loan));
        Ok(())
    }

    fn publish(&mut self) {
        self.submissions.publish();
        self.completions.publish();
    }

    fn refresh(&mut self) {
        self.submissions.look();
        self.completions.look();
    }

    fn reap(&mut self) -> Option<Completion> {
        self.completions.slots.take()
    }

    fn free(&self) -> u32 {
        self.submissions.slots.spare()
    }

    fn capacity(&self) -> u32 {
        self.submissions.slots.capacity()
    }

    fn completion_capacity(&self) -> u32 {
        self.completions.slots.capacity()
    }

    fn places(&self) -> (u32, u32) {
        (
            self.submissions.slots.places().0,
            self.completions.slots.places().1,
        )
    }

    ghost used_none = { RingUses-none };

    ghost used_then = { RingUses-then };

    ghost used_places = { λ a b ts cs uses. (uses.offer_place, uses.reap_place) };

    ghost sizes = { λ _. (refl, refl) };
}
