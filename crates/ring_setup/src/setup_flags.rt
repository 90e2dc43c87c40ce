//! What a ring may be asked to be.

ghost use Rattle.std.specs.Prelude.{⊤, [], ◌∷◌, ◌^◌, codes};

use bitflags::{Flag, Flags};

/// What a ring is asked to be, under the bits of the Linux io_uring header (`IORING_SETUP_..`).
#[derive(Clone, Copy, PartialEq, Eq, Debug)]
pub struct SetupFlags(u32);

impl SetupFlags {
    /// Completions are polled for.
    pub const IOPOLL: SetupFlags = SetupFlags(1 << 0);
    /// A thread of the partner's own takes the entries.
    pub const SQPOLL: SetupFlags = SetupFlags(1 << 1);
    /// That thread runs on one processor.
    pub const SQ_AFF: SetupFlags = SetupFlags(1 << 2);
    /// The count of completions was given.
    pub const CQSIZE: SetupFlags = SetupFlags(1 << 3);
    /// A count above its maximum is cut to the maximum.
    pub const CLAMP: SetupFlags = SetupFlags(1 << 4);
    /// The workers of another ring serve this one too.
    pub const ATTACH_WQ: SetupFlags = SetupFlags(1 << 5);
    /// The ring starts disabled.
    pub const R_DISABLED: SetupFlags = SetupFlags(1 << 6);
    /// The entries behind a wrong one are taken too.
    pub const SUBMIT_ALL: SetupFlags = SetupFlags(1 << 7);
    /// The partner's work waits for the next call.
    pub const COOP_TASKRUN: SetupFlags = SetupFlags(1 << 8);
    /// Waiting work is shown by the flags of the submission ring.
    pub const TASKRUN_FLAG: SetupFlags = SetupFlags(1 << 9);
    /// Submission entries have 128 bytes.
    pub const SQE128: SetupFlags = SetupFlags(1 << 10);
    /// Completion entries have 32 bytes.
    pub const CQE32: SetupFlags = SetupFlags(1 << 11);
    /// One thread alone submits.
    pub const SINGLE_ISSUER: SetupFlags = SetupFlags(1 << 12);
    /// The partner's work waits for an enter that wants completions.
    pub const DEFER_TASKRUN: SetupFlags = SetupFlags(1 << 13);
    /// The submission ring has no index of its slots.
    pub const NO_SQARRAY: SetupFlags = SetupFlags(1 << 16);

    const FLAGS: &'static [Flag<SetupFlags>] =
        named_flags!(SetupFlags: IOPOLL, SQPOLL, SQ_AFF, CQSIZE, CLAMP, ATTACH_WQ, R_DISABLED, SUBMIT_ALL, COOP_TASKRUN, TASKRUN_FLAG, SQE128, CQE32, SINGLE_ISSUER, DEFER_TASKRUN, NO_SQARRAY);
}

impl Flags for SetupFlags {
    type Bits = u32;

    ghost exact = { ⊤ };

    ghost table = { (codes "IOPOLL", 2 ^ 0)
        ∷ (codes "SQPOLL", 2 ^ 1)
        ∷ (codes "SQ_AFF", 2 ^ 2)
        ∷ (codes "CQSIZE", 2 ^ 3)
        ∷ (codes "CLAMP", 2 ^ 4)
        ∷ (codes "ATTACH_WQ", 2 ^ 5)
        ∷ (codes "R_DISABLED", 2 ^ 6)
        ∷ (codes "SUBMIT_ALL", 2 ^ 7)
        ∷ (codes "COOP_TASKRUN", 2 ^ 8)
        ∷ (codes "TASKRUN_FLAG", 2 ^ 9)
        ∷ (codes "SQE128", 2 ^ 10)
        ∷ (codes "CQE32", 2 ^ 11)
        ∷ (codes "SINGLE_ISSUER", 2 ^ 12)
        ∷ (codes "DEFER_TASKRUN", 2 ^ 13)
        ∷ (codes "NO_SQARRAY", 2 ^ 16)
        ∷ [] };

    ghost set_of = { λ flags. flags.0 };

    fn flags<'a>() -> &'a [Flag<SetupFlags>] {
        SetupFlags::FLAGS
    }

    fn bits(&self) -> u32 {
        self.0
    }

    fn from_bits_retain(bits: u32) -> SetupFlags {
        SetupFlags(bits)
    }
}
