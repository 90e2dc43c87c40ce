//! What the two rings show to the other side.

ghost use Rattle.std.specs.Prelude.{⊤, [], ◌∷◌, ◌^◌, codes};

use bitflags::{Flag, Flags};

/// What the submission ring shows to the user, under the bits of the Linux io_uring header
/// (`IORING_SQ_..`).
#[derive(Clone, Copy, PartialEq, Eq, Debug)]
pub struct SubmissionFlags(u32);

impl SubmissionFlags {
    /// The partner's own thread sleeps, and wants an enter.
    pub const NEED_WAKEUP: SubmissionFlags = SubmissionFlags(1 << 0);
    /// The partner holds completions that didn't fit.
    pub const CQ_OVERFLOW: SubmissionFlags = SubmissionFlags(1 << 1);
    /// Work of the partner waits for an enter.
    pub const TASKRUN: SubmissionFlags = SubmissionFlags(1 << 2);

    const FLAGS: &'static [Flag<SubmissionFlags>] =
        named_flags!(SubmissionFlags: NEED_WAKEUP, CQ_OVERFLOW, TASKRUN);
}

impl Flags for SubmissionFlags {
    type Bits = u32;

    ghost exact = { ⊤ };

    ghost table = { (codes "NEED_WAKEUP", 2 ^ 0)
        ∷ (codes "CQ_OVERFLOW", 2 ^ 1)
        ∷ (codes "TASKRUN", 2 ^ 2)
        ∷ [] };

    ghost set_of = { λ flags. flags.0 };

    fn flags<'a>() -> &'a [Flag<SubmissionFlags>] {
        SubmissionFlags::FLAGS
    }

    fn bits(&self) -> u32 {
        self.0
    }

    fn from_bits_retain(bits: u32) -> SubmissionFlags {
        SubmissionFlags(bits)
    }
}

/// What the completion ring shows to the partner, under the bits of the Linux io_uring header
/// (`IORING_CQ_..`).
#[derive(Clone, Copy, PartialEq, Eq, Debug)]
pub struct CompletionRingFlags(u32);

impl CompletionRingFlags {
    /// No event is to be sent for a completion.
    pub const EVENTFD_DISABLED: CompletionRingFlags = CompletionRingFlags(1 << 0);

    const FLAGS: &'static [Flag<CompletionRingFlags>] =
        named_flags!(CompletionRingFlags: EVENTFD_DISABLED);
}

impl Flags for CompletionRingFlags {
    type Bits = u32;

    ghost exact = { ⊤ };

    ghost table = { (codes "EVENTFD_DISABLED", 2 ^ 0) ∷ [] };

    ghost set_of = { λ flags. flags.0 };

    fn flags<'a>() -> &'a [Flag<CompletionRingFlags>] {
        CompletionRingFlags::FLAGS
    }

    fn bits(&self) -> u32 {
        self.0
    }

    fn from_bits_retain(bits: u32) -> CompletionRingFlags {
        CompletionRingFlags(bits)
    }
}
