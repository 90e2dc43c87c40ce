//! The user's end of the submission ring.

ghost use Rattle.std.specs.Prelude.{◌≡◌, ◌↔◌, ◌-◌, ◌<◌, ◌≤◌, IsTrue, IsOk, OnOk, OnErr, IfErr, length, map, nat_eq, ⊤};
ghost use Rattle.ring_core.specs.Slots.{held_of, with_put, with_puts, with_tail, with_head_seen};
ghost use Rattle.ring_setup.specs.RingFlags.{shows};
ghost use Rattle.ring_setup.specs.declared.ring_flags.TheConstants.SubmissionFlags.{NEED_WAKEUP, CQ_OVERFLOW, TASKRUN};
ghost use Rattle.ring_traits.specs.Lists.{as_offered};
ghost use Rattle.uring_ring.specs.Queues.{entries_at, submission_words_at, refused};
ghost use Rattle.uring_ring.specs.Sizes.{taken_as, unlent};

use crate::submission_ring::SubmissionRing;
use bitflags::Flags as _;
use ring_core::{End, sync};
use ring_setup::SubmissionFlags;
use std::io;
use std::marker::PhantomData;
use thiserror::Error;
use uring_base::{Loan, Taken};
use uring_large::squeue::{Entry, EntryMarker};

/// The submission queue was full. The push can be made again once the partner has taken entries,
/// and the queue has seen it.
#[derive(Clone, Copy, PartialEq, Eq, Debug, Error)]
#[error("submission queue is full")]
pub struct PushError;

impl From<PushError> for io::Error {
    ghost use Rattle.std.specs.IoError.{error_kind};
    ghost use Rattle.std.specs.declared.io.ErrorKind.TheVariants.{WouldBlock};

    ghost from_gives = { λ _ error. error_kind error ≡ WouldBlock };

    fn from(_error: PushError) -> io::Error {
        io::Error::from(io::ErrorKind::WouldBlock)
    }
}

/// What a push was refused with: the entry and its loan come back.
#[derive(Drop)]
pub struct Refused<S> {
    pub error: PushError,
    pub entry: S,
    pub loan: Option<Loan>,
}

/// The user's end of the submission ring. It has seen the partner's position when it was made,
/// and sees it again when it is told to. At its end it shows the partner what was pushed.
pub struct SubmissionQueue<'a, S = Entry> {
    pub(crate) ring: &'a mut SubmissionRing,
    pub(crate) size: PhantomData<S>,
}

impl<S> Drop for SubmissionQueue<'_, S> {
    fn drop(self)
        ensures entries { held_of self.exit.0.now.slots ≡ with_tail (entries_at self.entry) }
        ensures words { self.exit.0.now.words ≡ submission_words_at self.entry }
    {
        let SubmissionQueue { ring, size: _size } = self;
        ring.publish();
    }
}

/// An entry of either size as it stands in the ring, with its loan.
fn taken_as<S: EntryMarker>(entry: &S, loan: Option<Loan>) -> Taken
    ensures { result ≡ taken_as S.entry_of S.big_of S.large_of entry.now loan }
{
    Taken {
        entry: entry.base(),
        big: entry.big(),
        large: entry.is_large(),
        loan,
    }
}

/// A small entry as it stands in a ring of entries `S`, with its loan.
pub(crate) fn as_offered<S: EntryMarker>(entry: Entry, loan: Option<Loan>) -> Taken
    ensures { result ≡ as_offered S.made_large entry loan }
{
    taken_as(&S::from(entry), loan)
}

impl<S: EntryMarker> SubmissionQueue<'_, S> {
    /// Puts an entry and its loan behind, or gives both back where the queue was full as last
    /// seen. The partner doesn't see it before it is published.
    pub fn push(&mut self, entry: S, loan: Option<Loan>) -> Result<(), Refused<S>>
        ensures room { IsOk result ↔ (0 < (entries_at self.old).spare) }
        ensures ok { OnOk result (entries_at self.new ≡ with_put (taken_as S.entry_of S.big_of S.large_of entry loan) (entries_at self.old)) }
        ensures back { IfErr result (λ r. r ≡ refused entry loan) }
        ensures err { OnErr result (entries_at self.new ≡ entries_at self.old) }
        ensures words { submission_words_at self.new ≡ submission_words_at self.old }
        ensures same_reference { self.new.ring.ghost_name ≡ self.old.ring.ghost_name }
    {
        let ring = &mut *self.ring;
        if ring.slots.spare() == 0 {
            return Err(Refused {
                error: PushError,
                entry,
                loan,
            });
        }
        ring.slots.put(taken_as(&entry, loan));
        Ok(())
    }

    /// Puts entries without loans behind, or none of them where not all fit as last seen.
    pub fn push_multiple(&mut self, entries: &[S]) -> Result<(), PushError>
        ensures room { IsOk result ↔ (length entries.now ≤ (entries_at self.old).spare) }
        ensures ok { OnOk result (entries_at self.new ≡ with_puts (map (unlent S.entry_of S.big_of S.large_of) entries.now) (entries_at self.old)) }
        ensures err { OnErr result (entries_at self.new ≡ entries_at self.old) }
        ensures words { submission_words_at self.new ≡ submission_words_at self.old }
        ensures same_reference { self.new.ring.ghost_name ≡ self.old.ring.ghost_name }
    {
        let ring = &mut *self.ring;
        if entries.len() > ring.slots.spare() as usize {
            return Err(PushError);
        }
        for entry in entries {
            ring.slots.put(taken_as(entry, None));
        }
        Ok(())
    }
}

impl<S> SubmissionQueue<'_, S> {
    /// Shows the partner what was pushed, and then sees what it has taken.
    pub fn sync(&mut self)
        ensures entries { entries_at self.new ≡ with_head_seen (with_tail (entries_at self.old)) }
        ensures words { submission_words_at self.new ≡ submission_words_at self.old }
        ensures same_reference { self.new.ring.ghost_name ≡ self.old.ring.ghost_name }
    {
        sync(&mut *self.ring);
    }

    /// How many entries the partner hasn't taken, as last seen.
    pub fn len(&self) -> usize
        ensures { result ≡ (entries_at self.now).capacity - (entries_at self.now).spare }
    {
        (self.ring.slots.capacity() - self.ring.slots.spare()) as usize
    }

    /// How many entries fit in all: a power of two.
    pub fn capacity(&self) -> usize
        ensures { result ≡ (entries_at self.now).capacity }
    {
        self.ring.slots.capacity() as usize
    }

    /// Whether the partner has taken all, as last seen.
    pub fn is_empty(&self) -> bool
        ensures { IsTrue result ↔ ((entries_at self.now).spare ≡ (entries_at self.now).capacity) }
    {
        self.ring.slots.spare() == self.ring.slots.capacity()
    }

    /// Whether nothing more fits, as last seen.
    pub fn is_full(&self) -> bool
        ensures { IsTrue result ↔ ((entries_at self.now).spare ≡ 0) }
    {
        self.ring.slots.spare() == 0
    }

    /// How many entries the partner couldn't take.
    pub fn dropped(&self) -> u32
        ensures { result ≡ (submission_words_at self.now).dropped }
    {
        self.ring.words.dropped
    }

    /// Whether the partner's own thread sleeps and wants an enter.
    pub fn need_wakeup(&self) -> bool
        ensures { result ≡ shows (submission_words_at self.now).flags NEED_WAKEUP }
    {
        SubmissionFlags::from_bits_retain(self.ring.words.flags).contains(
            SubmissionFlags::NEED_WAKEUP,
        )
    }

    /// The same. In the Rust crate it leaves a fence between two threads to the caller; here one
    /// thread has both ends.
    pub fn need_wakeup_after_intermittent_seqcst(&self) -> bool
        ensures { result ≡ shows (submission_words_at self.now).flags NEED_WAKEUP }
    {
        self.need_wakeup()
    }

    /// Whether the partner holds completions that didn't fit.
    pub fn cq_overflow(&self) -> bool
        ensures { result ≡ shows (submission_words_at self.now).flags CQ_OVERFLOW }
    {
        SubmissionFlags::from_bits_retain(self.ring.words.flags).contains(
            SubmissionFlags::CQ_OVERFLOW,
        )
    }

    /// Whether work of the partner waits for an enter.
    pub fn taskrun(&self) -> bool
        ensures { result ≡ shows (submission_words_at self.now).flags TASKRUN }
    {
        SubmissionFlags::from_bits_retain(self.ring.words.flags).contains(SubmissionFlags::TASKRUN)
    }
}
