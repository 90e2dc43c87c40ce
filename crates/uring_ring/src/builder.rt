//! What makes a ring.

ghost use Rattle.std.specs.Prelude.{◌≡◌, ◌↔◌, true, false, bit_or, IfOk, IfErr};
ghost use Rattle.uring_base.specs.Sizes.{rounded_up};
ghost use Rattle.ring_setup.specs.Setup.{default_settings, is_buildable, parameters_for, asked_entries, asked_completions, with_setup, with_cqsize, with_start, with_features, with_sqpoll, with_sqpoll_cpu, with_attach, with_dontfork};
ghost use Rattle.ring_setup.specs.declared.setup_flags.TheConstants.SetupFlags.{IOPOLL, CLAMP, R_DISABLED, SUBMIT_ALL, COOP_TASKRUN, TASKRUN_FLAG, SINGLE_ISSUER, DEFER_TASKRUN, NO_SQARRAY};
ghost use Rattle.uring_ring.specs.IoUring.{IsOpened, TellsSizes, parameters_of};

use crate::io_uring::IoUring;
use bitflags::Flags as _;
use ring_core::SetupError;
use ring_setup::{Parameters, Settings, SetupFlags};
use std::alloc::Global;
use std::marker::PhantomData;
use uring_large::squeue::EntryMarker;
use uring_large::{cqueue, squeue};

/// What a ring of entries `S` and completion entries `C` is to be made with.
#[derive(Clone, Copy, PartialEq, Eq, Debug)]
pub struct Builder<S = squeue::Entry, C = cqueue::Entry> {
    settings: Settings,
    sizes: PhantomData<(S, C)>,
}

impl<S: EntryMarker, C: cqueue::EntryMarker> IoUring<S, C> {
    /// What a ring is to be made with, as far as nothing is asked for but the sizes of its entries.
    pub fn builder() -> Builder<S, C>
        ensures { result.settings ≡ default_settings (bit_or S.BUILD_FLAGS C.BUILD_FLAGS) }
    {
        Builder {
            settings: Settings::new(S::BUILD_FLAGS | C::BUILD_FLAGS),
            sizes: PhantomData,
        }
    }
}

impl<S: EntryMarker, C: cqueue::EntryMarker> Builder<S, C> {
    /// The parameters of the ring that `build` makes.
    pub fn parameters(&self, entries: u32) -> Result<Parameters, SetupError>
        ensures ok { IfOk result (λ parameters. (is_buildable self.now.settings entries ≡ true) × (parameters ≡ parameters_for self.now.settings entries)) }
        ensures err { IfErr result (λ error. (is_buildable self.now.settings entries ≡ false) × (error ≡ SetupError.Invalid)) }
    {
        self.settings.parameters(entries)
    }

    /// Makes a ring.
    pub fn build(&self, alloc: Global, entries: u32) -> Result<IoUring<S, C>, SetupError>
        ensures ok { IfOk result (λ ring. IsOpened ring (rounded_up (asked_entries self.now.settings entries)) (rounded_up (asked_completions self.now.settings entries)) self.now.settings.start) }
        ensures parameters { IfOk result (λ ring. parameters_of ring ≡ parameters_for self.now.settings entries) }
        ensures sizes { IfOk result TellsSizes }
        ensures valid { IfOk result (λ _. is_buildable self.now.settings entries ≡ true) }
        ensures invalid { IfErr result (λ error. (error ≡ SetupError.Invalid) ↔ (is_buildable self.now.settings entries ≡ false)) }
    {
        let parameters = self.settings.parameters(entries)?;
        let ring = IoUring::open(alloc, parameters, self.settings.start)?;
        Ok(ring)
    }

    /// Asks that the rings aren't shared with a forked process.
    pub fn dontfork(&mut self) -> &mut Builder<S, C>
        ensures same { result.ghost_name ≡ self.entry.ghost_name }
        ensures settings { result.now.settings ≡ with_dontfork self.old.settings }
    {
        self.settings.dontfork = true;
        self
    }

    /// Asks that completions are polled for.
    pub fn setup_iopoll(&mut self) -> &mut Builder<S, C>
        ensures same { result.ghost_name ≡ self.entry.ghost_name }
        ensures settings { result.now.settings ≡ with_setup IOPOLL self.old.settings }
    {
        self.settings.setup |= SetupFlags::IOPOLL.bits();
        self
    }

    /// Asks for a thread of the partner's own that takes the entries, and falls asleep after so many
    /// milliseconds without work.
    pub fn setup_sqpoll(&mut self, idle: u32) -> &mut Builder<S, C>
        ensures same { result.ghost_name ≡ self.entry.ghost_name }
        ensures settings { result.now.settings ≡ with_sqpoll idle self.old.settings }
    {
        self.settings.setup |= SetupFlags::SQPOLL.bits();
        self.settings.sq_thread_idle = idle;
        self
    }

    /// Asks that this thread runs on one processor.
    pub fn setup_sqpoll_cpu(&mut self, cpu: u32) -> &mut Builder<S, C>
        ensures same { result.ghost_name ≡ self.entry.ghost_name }
        ensures settings { result.now.settings ≡ with_sqpoll_cpu cpu self.old.settings }
    {
        self.settings.setup |= SetupFlags::SQ_AFF.bits();
        self.settings.sq_thread_cpu = cpu;
        self
    }

    /// Asks for so many completions, rounded up to a power of two. Without it the
    /// completion ring has twice the size of the submission ring.
    pub fn setup_cqsize(&mut self, count: u32) -> &mut Builder<S, C>
        ensures same { result.ghost_name ≡ self.entry.ghost_name }
        ensures settings { result.now.settings ≡ with_cqsize count self.old.settings }
    {
        self.settings.cq_entries = Some(count);
        self
    }

    /// Asks that a count above its maximum is cut to the maximum.
    pub fn setup_clamp(&mut self) -> &mut Builder<S, C>
        ensures same { result.ghost_name ≡ self.entry.ghost_name }
        ensures settings { result.now.settings ≡ with_setup CLAMP self.old.settings }
    {
        self.settings.setup |= SetupFlags::CLAMP.bits();
        self
    }

    /// Asks that the workers of the ring with this descriptor serve this one too.
    pub fn setup_attach_wq(&mut self, fd: i32) -> &mut Builder<S, C>
        ensures same { result.ghost_name ≡ self.entry.ghost_name }
        ensures settings { result.now.settings ≡ with_attach fd self.old.settings }
    {
        self.settings.setup |= SetupFlags::ATTACH_WQ.bits();
        self.settings.wq_fd = fd;
        self
    }

    /// Asks for a ring that starts disabled.
    pub fn setup_r_disabled(&mut self) -> &mut Builder<S, C>
        ensures same { result.ghost_name ≡ self.entry.ghost_name }
        ensures settings { result.now.settings ≡ with_setup R_DISABLED self.old.settings }
    {
        self.settings.setup |= SetupFlags::R_DISABLED.bits();
        self
    }

    /// Asks that the entries behind a wrong one are taken too.
    pub fn setup_submit_all(&mut self) -> &mut Builder<S, C>
        ensures same { result.ghost_name ≡ self.entry.ghost_name }
        ensures settings { result.now.settings ≡ with_setup SUBMIT_ALL self.old.settings }
    {
        self.settings.setup |= SetupFlags::SUBMIT_ALL.bits();
        self
    }

    /// Asks that the partner's work waits for the next call.
    pub fn setup_coop_taskrun(&mut self) -> &mut Builder<S, C>
        ensures same { result.ghost_name ≡ self.entry.ghost_name }
        ensures settings { result.now.settings ≡ with_setup COOP_TASKRUN self.old.settings }
    {
        self.settings.setup |= SetupFlags::COOP_TASKRUN.bits();
        self
    }

    /// Asks that waiting work is shown by the submission ring's flags.
    pub fn setup_taskrun_flag(&mut self) -> &mut Builder<S, C>
        ensures same { result.ghost_name ≡ self.entry.ghost_name }
        ensures settings { result.now.settings ≡ with_setup TASKRUN_FLAG self.old.settings }
    {
        self.settings.setup |= SetupFlags::TASKRUN_FLAG.bits();
        self
    }

    /// Asks that the partner's work waits for an enter that wants completions.
    pub fn setup_defer_taskrun(&mut self) -> &mut Builder<S, C>
        ensures same { result.ghost_name ≡ self.entry.ghost_name }
        ensures settings { result.now.settings ≡ with_setup DEFER_TASKRUN self.old.settings }
    {
        self.settings.setup |= SetupFlags::DEFER_TASKRUN.bits();
        self
    }

    /// Promises that one thread alone submits.
    pub fn setup_single_issuer(&mut self) -> &mut Builder<S, C>
        ensures same { result.ghost_name ≡ self.entry.ghost_name }
        ensures settings { result.now.settings ≡ with_setup SINGLE_ISSUER self.old.settings }
    {
        self.settings.setup |= SetupFlags::SINGLE_ISSUER.bits();
        self
    }

    /// Asks for a submission ring without an index of its slots.
    pub fn setup_no_sqarray(&mut self) -> &mut Builder<S, C>
        ensures same { result.ghost_name ≡ self.entry.ghost_name }
        ensures settings { result.now.settings ≡ with_setup NO_SQARRAY self.old.settings }
    {
        self.settings.setup |= SetupFlags::NO_SQARRAY.bits();
        self
    }

    /// The position at which both rings begin. Without it they begin at 0.
    pub fn start(&mut self, start: u32) -> &mut Builder<S, C>
        ensures same { result.ghost_name ≡ self.entry.ghost_name }
        ensures settings { result.now.settings ≡ with_start start self.old.settings }
    {
        self.settings.start = start;
        self
    }

    /// The feature flags of the ring. Without it the ring has each feature that has a name.
    pub fn features(&mut self, features: u32) -> &mut Builder<S, C>
        ensures same { result.ghost_name ≡ self.entry.ghost_name }
        ensures settings { result.now.settings ≡ with_features features self.old.settings }
    {
        self.settings.features = features;
        self
    }
}
