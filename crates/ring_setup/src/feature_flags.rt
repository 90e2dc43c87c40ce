//! What a ring may offer.

ghost use Rattle.std.specs.Prelude.{⊤};
ghost use Rattle.ring_setup.specs.Features.{feature_table};

use bitflags::{Flag, Flags};

/// What a ring offers, under the bits of the Linux io_uring header (`IORING_FEAT_..`).
#[derive(Clone, Copy, PartialEq, Eq, Debug)]
pub struct FeatureFlags(u32);

impl FeatureFlags {
    /// Both rings lie in one mapping.
    pub const SINGLE_MMAP: FeatureFlags = FeatureFlags(1 << 0);
    /// No completion is lost where the completion ring is full.
    pub const NODROP: FeatureFlags = FeatureFlags(1 << 1);
    /// What an entry points to may change once it is taken.
    pub const SUBMIT_STABLE: FeatureFlags = FeatureFlags(1 << 2);
    /// Offset -1 means the current position of a file.
    pub const RW_CUR_POS: FeatureFlags = FeatureFlags(1 << 3);
    /// An entry runs with the rights of the thread that submits it.
    pub const CUR_PERSONALITY: FeatureFlags = FeatureFlags(1 << 4);
    /// The partner waits for readiness by itself.
    pub const FAST_POLL: FeatureFlags = FeatureFlags(1 << 5);
    /// A poll takes 32 bits of events.
    pub const POLL_32BITS: FeatureFlags = FeatureFlags(1 << 6);
    /// A thread that takes the entries serves files that aren't registered.
    pub const SQPOLL_NONFIXED: FeatureFlags = FeatureFlags(1 << 7);
    /// An enter may have a timeout and a signal mask.
    pub const EXT_ARG: FeatureFlags = FeatureFlags(1 << 8);
    /// The partner's workers are threads of the process.
    pub const NATIVE_WORKERS: FeatureFlags = FeatureFlags(1 << 9);
    /// Registered resources may have tags.
    pub const RSRC_TAGS: FeatureFlags = FeatureFlags(1 << 10);
    /// An entry may ask for no completion at success.
    pub const CQE_SKIP: FeatureFlags = FeatureFlags(1 << 11);
    /// The file of an entry is looked up when its turn in a chain comes.
    pub const LINKED_FILE: FeatureFlags = FeatureFlags(1 << 12);
    /// A ring may be registered by its own registered number.
    pub const REG_REG_RING: FeatureFlags = FeatureFlags(1 << 13);
    /// Receives and sends may be in bundles.
    pub const RECVSEND_BUNDLE: FeatureFlags = FeatureFlags(1 << 14);
    /// A wait may have a least time.
    pub const MIN_TIMEOUT: FeatureFlags = FeatureFlags(1 << 15);
    /// Waiting may be left out of the time of input and output.
    pub const NO_IOWAIT: FeatureFlags = FeatureFlags(1 << 17);

    const FLAGS: &'static [Flag<FeatureFlags>] =
        named_flags!(FeatureFlags: SINGLE_MMAP, NODROP, SUBMIT_STABLE, RW_CUR_POS, CUR_PERSONALITY, FAST_POLL, POLL_32BITS, SQPOLL_NONFIXED, EXT_ARG, NATIVE_WORKERS, RSRC_TAGS, CQE_SKIP, LINKED_FILE, REG_REG_RING, RECVSEND_BUNDLE, MIN_TIMEOUT, NO_IOWAIT);
}

impl Flags for FeatureFlags {
    type Bits = u32;

    ghost exact = { ⊤ };

    ghost table = { feature_table };

    ghost set_of = { λ flags. flags.0 };

    fn flags<'a>() -> &'a [Flag<FeatureFlags>] {
        FeatureFlags::FLAGS
    }

    fn bits(&self) -> u32 {
        self.0
    }

    fn from_bits_retain(bits: u32) -> FeatureFlags {
        FeatureFlags(bits)
    }
}
