//! What a ring was made with.

ghost use Rattle.std.specs.Prelude.{◌≡◌};
ghost use Rattle.ring_setup.specs.Setup.{told_entries, told_completions, is_setup, is_feature};
ghost use Rattle.ring_setup.specs.declared.feature_flags.TheConstants.FeatureFlags.{SINGLE_MMAP, NODROP, SUBMIT_STABLE, RW_CUR_POS, CUR_PERSONALITY, FAST_POLL, POLL_32BITS, SQPOLL_NONFIXED, EXT_ARG, NATIVE_WORKERS, RSRC_TAGS, CQE_SKIP, LINKED_FILE, REG_REG_RING, RECVSEND_BUNDLE, MIN_TIMEOUT, NO_IOWAIT};
ghost use Rattle.ring_setup.specs.declared.setup_flags.TheConstants.SetupFlags.{IOPOLL, SQPOLL, SINGLE_ISSUER};

use crate::feature_flags::FeatureFlags;
use crate::setup_flags::SetupFlags;
use bitflags::Flags as _;

/// What a ring was made with.
#[derive(Clone, Copy, PartialEq, Eq, Debug)]
pub struct Parameters {
    pub(crate) setup: u32,
    pub(crate) features: u32,
    pub(crate) sq_entries: u32,
    pub(crate) sq_thread_idle: u32,
    pub(crate) cq_entries: u32,
}

impl Parameters {
    /// Whether a thread of the partner's own takes the entries.
    pub fn is_setup_sqpoll(&self) -> bool
        ensures { result ≡ is_setup self.now SQPOLL }
    {
        SetupFlags::from_bits_retain(self.setup).contains(SetupFlags::SQPOLL)
    }

    /// Whether completions are polled for.
    pub fn is_setup_iopoll(&self) -> bool
        ensures { result ≡ is_setup self.now IOPOLL }
    {
        SetupFlags::from_bits_retain(self.setup).contains(SetupFlags::IOPOLL)
    }

    /// Whether one thread alone submits.
    pub fn is_setup_single_issuer(&self) -> bool
        ensures { result ≡ is_setup self.now SINGLE_ISSUER }
    {
        SetupFlags::from_bits_retain(self.setup).contains(SetupFlags::SINGLE_ISSUER)
    }

    /// Whether both rings lie in one mapping.
    pub fn is_feature_single_mmap(&self) -> bool
        ensures { result ≡ is_feature self.now SINGLE_MMAP }
    {
        FeatureFlags::from_bits_retain(self.features).contains(FeatureFlags::SINGLE_MMAP)
    }

    /// Whether no completion is lost where the completion ring is full.
    pub fn is_feature_nodrop(&self) -> bool
        ensures { result ≡ is_feature self.now NODROP }
    {
        FeatureFlags::from_bits_retain(self.features).contains(FeatureFlags::NODROP)
    }

    /// Whether what an entry points to may change once it is taken.
    pub fn is_feature_submit_stable(&self) -> bool
        ensures { result ≡ is_feature self.now SUBMIT_STABLE }
    {
        FeatureFlags::from_bits_retain(self.features).contains(FeatureFlags::SUBMIT_STABLE)
    }

    /// Whether offset -1 means the current position of a file.
    pub fn is_feature_rw_cur_pos(&self) -> bool
        ensures { result ≡ is_feature self.now RW_CUR_POS }
    {
        FeatureFlags::from_bits_retain(self.features).contains(FeatureFlags::RW_CUR_POS)
    }

    /// Whether an entry runs with the rights of the thread that submits it.
    pub fn is_feature_cur_personality(&self) -> bool
        ensures { result ≡ is_feature self.now CUR_PERSONALITY }
    {
        FeatureFlags::from_bits_retain(self.features).contains(FeatureFlags::CUR_PERSONALITY)
    }

    /// Whether the partner waits for readiness by itself.
    pub fn is_feature_fast_poll(&self) -> bool
        ensures { result ≡ is_feature self.now FAST_POLL }
    {
        FeatureFlags::from_bits_retain(self.features).contains(FeatureFlags::FAST_POLL)
    }

    /// Whether a poll takes 32 bits of events.
    pub fn is_feature_poll_32bits(&self) -> bool
        ensures { result ≡ is_feature self.now POLL_32BITS }
    {
        FeatureFlags::from_bits_retain(self.features).contains(FeatureFlags::POLL_32BITS)
    }

    /// Whether a thread that takes the entries serves files that aren't registered.
    pub fn is_feature_sqpoll_nonfixed(&self) -> bool
        ensures { result ≡ is_feature self.now SQPOLL_NONFIXED }
    {
        FeatureFlags::from_bits_retain(self.features).contains(FeatureFlags::SQPOLL_NONFIXED)
    }

    /// Whether an enter may have a timeout and a signal mask.
    pub fn is_feature_ext_arg(&self) -> bool
        ensures { result ≡ is_feature self.now EXT_ARG }
    {
        FeatureFlags::from_bits_retain(self.features).contains(FeatureFlags::EXT_ARG)
    }

    /// Whether the partner's workers are threads of the process.
    pub fn is_feature_native_workers(&self) -> bool
        ensures { result ≡ is_feature self.now NATIVE_WORKERS }
    {
        FeatureFlags::from_bits_retain(self.features).contains(FeatureFlags::NATIVE_WORKERS)
    }

    /// Whether registered resources may have tags.
    pub fn is_feature_resource_tagging(&self) -> bool
        ensures { result ≡ is_feature self.now RSRC_TAGS }
    {
        FeatureFlags::from_bits_retain(self.features).contains(FeatureFlags::RSRC_TAGS)
    }

    /// Whether an entry may ask for no completion at success.
    pub fn is_feature_skip_cqe_on_success(&self) -> bool
        ensures { result ≡ is_feature self.now CQE_SKIP }
    {
        FeatureFlags::from_bits_retain(self.features).contains(FeatureFlags::CQE_SKIP)
    }

    /// Whether the file of an entry is looked up when its turn in a chain comes.
    pub fn is_feature_linked_file(&self) -> bool
        ensures { result ≡ is_feature self.now LINKED_FILE }
    {
        FeatureFlags::from_bits_retain(self.features).contains(FeatureFlags::LINKED_FILE)
    }

    /// Whether a ring may be registered by its own registered number.
    pub fn is_feature_reg_reg_ring(&self) -> bool
        ensures { result ≡ is_feature self.now REG_REG_RING }
    {
        FeatureFlags::from_bits_retain(self.features).contains(FeatureFlags::REG_REG_RING)
    }

    /// Whether receives and sends may be in bundles.
    pub fn is_feature_recvsend_bundle(&self) -> bool
        ensures { result ≡ is_feature self.now RECVSEND_BUNDLE }
    {
        FeatureFlags::from_bits_retain(self.features).contains(FeatureFlags::RECVSEND_BUNDLE)
    }

    /// Whether a wait may have a least time.
    pub fn is_feature_min_timeout(&self) -> bool
        ensures { result ≡ is_feature self.now MIN_TIMEOUT }
    {
        FeatureFlags::from_bits_retain(self.features).contains(FeatureFlags::MIN_TIMEOUT)
    }

    /// Whether waiting may be left out of the time of input and output.
    pub fn is_feature_no_iowait(&self) -> bool
        ensures { result ≡ is_feature self.now NO_IOWAIT }
    {
        FeatureFlags::from_bits_retain(self.features).contains(FeatureFlags::NO_IOWAIT)
    }

    /// How many entries fit: a power of two.
    pub fn sq_entries(&self) -> u32
        ensures { result ≡ told_entries self.now }
    {
        self.sq_entries
    }

    /// After how many milliseconds without work a thread of the partner's own falls asleep.
    pub fn sq_thread_idle(&self) -> u32
        ensures { result ≡ self.now.sq_thread_idle }
    {
        self.sq_thread_idle
    }

    /// How many completions fit: a power of two.
    pub fn cq_entries(&self) -> u32
        ensures { result ≡ told_completions self.now }
    {
        self.cq_entries
    }
}
