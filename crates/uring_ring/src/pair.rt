//! Both queue values, of two rings.

ghost use Rattle.std.specs.Prelude.{◌≡◌};
ghost use Rattle.ring_core.specs.Slots.{held_of, with_head_seen, with_tail_seen};
ghost use Rattle.uring_ring.specs.Queues.{entries_at, completions_at, submission_words_at, completion_words_at};

use crate::completion_queue::CompletionQueue;
use crate::completion_ring::CompletionRing;
use crate::submission_queue::SubmissionQueue;
use crate::submission_ring::SubmissionRing;
use ring_core::End;
use std::marker::PhantomData;

/// The user's ends of two rings. Each sees what the partner has done.
pub(crate) fn queues<'a, S, C>(
    submissions: &'a mut SubmissionRing,
    completions: &'a mut CompletionRing,
) -> (SubmissionQueue<'a, S>, CompletionQueue<'a, C>)
    ensures same_submissions { result.0.ring.ghost_name ≡ submissions.entry.ghost_name }
    ensures same_completions { result.1.ring.ghost_name ≡ completions.entry.ghost_name }
    ensures entries { entries_at result.0 ≡ with_head_seen (held_of submissions.old.slots) }
    ensures completions { completions_at result.1 ≡ with_tail_seen (held_of completions.old.slots) }
    ensures submission_words { submission_words_at result.0 ≡ submissions.old.words }
    ensures completion_words { completion_words_at result.1 ≡ completions.old.words }
{
    submissions.look();
    completions.look();
    (
        SubmissionQueue {
            ring: submissions,
            size: PhantomData,
        },
        CompletionQueue {
            ring: completions,
            size: PhantomData,
        },
    )
}
