//! The calls that let a partner enter.

ghost use Rattle.std.specs.Prelude.{◌≡◌, ◌^◌, ◌<◌, ℕ, true, IfErr, IfOk, IfSome, IsTrue, Contains, if◌then◌else◌, length};
ghost use Rattle.uring_base.specs.Causes.{HasCause};
ghost use Rattle.partner_traits.specs.Calls.{later_plan};
ghost use Rattle.uring_submit.specs.Decisions.{call_of, decision, enters, has_events, gets_events, waiting, Enter, Submit, SubmitAndWait, SubmitWithArgs, SqueueWait};
ghost use Rattle.uring_submit.specs.Errors.{KeepsSubmitErrno, is_of_partner, is_submit_fault};
ghost use Rattle.uring_submit.specs.Submits.{params_of, registered_of, EntersAsAsked, Submits};

use crate::error::SubmitError;
use crate::flags::EnterFlags;
use bitflags::Flags;
use partner_traits::{EnterCall, Partner};
use ring_setup::{Parameters, SubmissionFlags};
use ring_traits::PartnerSide;
use std::alloc::Global;
use uring_types::SubmitArgs;

/// Lets a partner enter, with the values that a ring's parameters and flags ask for.
#[derive(Clone, Copy, PartialEq, Eq, Debug)]
pub struct Submitter {
    pub(crate) params: Parameters,
    // The index of the ring's registered descriptor, where one is registered.
    pub(crate) registered: Option<i32>,
}

impl Submitter {
    /// A submitter of a ring with these parameters.
    pub fn new(params: &Parameters) -> Submitter
        ensures params { params_of result ≡ params.now }
        ensures registered { registered_of result ≡ None }
    {
        Submitter {
            params: *params,
            registered: None,
        }
    }

    /// Has the partner enter with these values, and answers how many entries were taken.
    pub fn enter<P: Partner, Q: PartnerSide>(
        &mut self,
        alloc: Global,
        side: &mut Q,
        partner: &mut P,
        to_submit: u32,
        min_complete: u32,
        flag: u32,
        args: Option<SubmitArgs>,
    ) -> Result<usize, SubmitError>
        ensures submits { EntersAsAsked P.machine P.log P.state Q.lists Q.ready Q.space Q.moved P.calls (decision 0 (Q.flags_word side.old) (params_of self.old) (registered_of self.old) (Enter to_submit min_complete flag args)) partner.old partner.new side.old side.new result }
        ensures cause { HasCause is_submit_fault (P.faults partner.old) (P.faults partner.new) result }
        ensures planned { IfSome (P.state partner.old) (λ _. IfErr result (λ e. IsTrue (is_submit_fault e) → Contains (P.plan partner.old) 1)) }
        ensures counted { IfSome (P.state partner.old) (λ _. ¬ Contains (P.plan partner.old) 1 → P.faults partner.new ≡ P.faults partner.old) }
        ensures plan { P.plan partner.new ≡ later_plan (P.plan partner.old) }
        ensures errno { KeepsSubmitErrno result (P.errno partner.old) (P.errno partner.new) }
        ensures errors { IfErr result (λ e. is_of_partner e ≡ true) }
        ensures fits { IfOk result (λ n. n < 2 ^ 32) }
        ensures same { self.new ≡ self.old }
    {
        let call = self.call_of(to_submit, min_complete, flag, args);
        let entries = partner.enter(alloc, &call, side)?;
        Ok(entries as usize)
    }

    /// Has the partner take what is published, as [`Submitter::submit_and_wait`] for none.
    pub fn submit<P: Partner, Q: PartnerSide>(
        &mut self,
        alloc: Global,
        side: &mut Q,
        partner: &mut P,
    ) -> Result<usize, SubmitError>
        ensures submits { (published : ℕ) × IfSome (Q.lists side.old) (λ l. published ≡ length l.published)
            × Submits P.machine P.log P.state Q.lists Q.ready Q.space Q.moved P.calls (decision published (Q.flags_word side.old) (params_of self.old) (registered_of self.old) Submit) published partner.old partner.new side.old side.new result }
        ensures cause { HasCause is_submit_fault (P.faults partner.old) (P.faults partner.new) result }
        ensures planned { IfSome (P.state partner.old) (λ _. IfErr result (λ e. IsTrue (is_submit_fault e) → Contains (P.plan partner.old) 1)) }
        ensures counted { IfSome (P.state partner.old) (λ _. ¬ Contains (P.plan partner.old) 1 → P.faults partner.new ≡ P.faults partner.old) }
        ensures plan { P.plan partner.new ≡ (if enters (Q.flags_word side.old) (params_of self.old) 0 then later_plan (P.plan partner.old) else P.plan partner.old) }
        ensures errno { KeepsSubmitErrno result (P.errno partner.old) (P.errno partner.new) }
        ensures errors { IfErr result (λ e. is_of_partner e ≡ true) }
        ensures fits { IfOk result (λ n. n < 2 ^ 32) }
        ensures same { self.new ≡ self.old }
    {
        self.submit_waiting(alloc, side, partner, 0, None)
    }

    /// Has the partner take what is published, and wait for `want` completions. It answers how
    /// many entries were taken, or how many are published where the partner's own thread takes
    /// them unasked.
    pub fn submit_and_wait<P: Partner, Q: PartnerSide>(
        &mut self,
        alloc: Global,
        side: &mut Q,
        partner: &mut P,
        want: usize,
    ) -> Result<usize, SubmitError>
        requires { want < 2 ^ 32 }
        ensures submits { (published : ℕ) × IfSome (Q.lists side.old) (λ l. published ≡ length l.published)
            × Submits P.machine P.log P.state Q.lists Q.ready Q.space Q.moved P.calls (decision published (Q.flags_word side.old) (params_of self.old) (registered_of self.old) (SubmitAndWait want)) published partner.old partner.new side.old side.new result }
        ensures cause { HasCause is_submit_fault (P.faults partner.old) (P.faults partner.new) result }
        ensures planned { IfSome (P.state partner.old) (λ _. IfErr result (λ e. IsTrue (is_submit_fault e) → Contains (P.plan partner.old) 1)) }
        ensures counted { IfSome (P.state partner.old) (λ _. ¬ Contains (P.plan partner.old) 1 → P.faults partner.new ≡ P.faults partner.old) }
        ensures plan { P.plan partner.new ≡ (if enters (Q.flags_word side.old) (params_of self.old) want then later_plan (P.plan partner.old) else P.plan partner.old) }
        ensures errno { KeepsSubmitErrno result (P.errno partner.old) (P.errno partner.new) }
        ensures errors { IfErr result (λ e. is_of_partner e ≡ true) }
        ensures fits { IfOk result (λ n. n < 2 ^ 32) }
        ensures same { self.new ≡ self.old }
    {
        self.submit_waiting(alloc, side, partner, want as u32, None)
    }

    /// As [`Submitter::submit_and_wait`], with what else the partner is told while it waits.
    pub fn submit_with_args<P: Partner, Q: PartnerSide>(
        &mut self,
        alloc: Global,
        side: &mut Q,
        partner: &mut P,
        want: usize,
        args: SubmitArgs,
    ) -> Result<usize, SubmitError>
        requires { want < 2 ^ 32 }
        ensures submits { (published : ℕ) × IfSome (Q.lists side.old) (λ l. published ≡ length l.published)
            × Submits P.machine P.log P.state Q.lists Q.ready Q.space Q.moved P.calls (decision published (Q.flags_word side.old) (params_of self.old) (registered_of self.old) (SubmitWithArgs want args)) published partner.old partner.new side.old side.new result }
        ensures cause { HasCause is_submit_fault (P.faults partner.old) (P.faults partner.new) result }
        ensures planned { IfSome (P.state partner.old) (λ _. IfErr result (λ e. IsTrue (is_submit_fault e) → Contains (P.plan partner.old) 1)) }
        ensures counted { IfSome (P.state partner.old) (λ _. ¬ Contains (P.plan partner.old) 1 → P.faults partner.new ≡ P.faults partner.old) }
        ensures plan { P.plan partner.new ≡ (if enters (Q.flags_word side.old) (params_of self.old) want then later_plan (P.plan partner.old) else P.plan partner.old) }
        ensures errno { KeepsSubmitErrno result (P.errno partner.old) (P.errno partner.new) }
        ensures errors { IfErr result (λ e. is_of_partner e ≡ true) }
        ensures fits { IfOk result (λ n. n < 2 ^ 32) }
        ensures same { self.new ≡ self.old }
    {
        self.submit_waiting(alloc, side, partner, want as u32, Some(args))
    }

    /// Waits until an entry fits into the submission ring that the partner's own thread empties.
    pub fn squeue_wait<P: Partner, Q: PartnerSide>(
        &mut self,
        alloc: Global,
        side: &mut Q,
        partner: &mut P,
    ) -> Result<usize, SubmitError>
        ensures submits { EntersAsAsked P.machine P.log P.state Q.lists Q.ready Q.space Q.moved P.calls (decision 0 (Q.flags_word side.old) (params_of self.old) (registered_of self.old) SqueueWait) partner.old partner.new side.old side.new result }
        ensures cause { HasCause is_submit_fault (P.faults partner.old) (P.faults partner.new) result }
        ensures planned { IfSome (P.state partner.old) (λ _. IfErr result (λ e. IsTrue (is_submit_fault e) → Contains (P.plan partner.old) 1)) }
        ensures counted { IfSome (P.state partner.old) (λ _. ¬ Contains (P.plan partner.old) 1 → P.faults partner.new ≡ P.faults partner.old) }
        ensures plan { P.plan partner.new ≡ later_plan (P.plan partner.old) }
        ensures errno { KeepsSubmitErrno result (P.errno partner.old) (P.errno partner.new) }
        ensures errors { IfErr result (λ e. is_of_partner e ≡ true) }
        ensures fits { IfOk result (λ n. n < 2 ^ 32) }
        ensures same { self.new ≡ self.old }
    {
        self.enter(alloc, side, partner, 0, 0, EnterFlags::SQ_WAIT.bits(), None)
    }

    /// One enter over what is published, or none where there is to be none.
    fn submit_waiting<P: Partner, Q: PartnerSide>(
        &mut self,
        alloc: Global,
        side: &mut Q,
        partner: &mut P,
        want: u32,
        args: Option<SubmitArgs>,
    ) -> Result<usize, SubmitError>
        ensures submits { (published : ℕ) × IfSome (Q.lists side.old) (λ l. published ≡ length l.published)
            × Submits P.machine P.log P.state Q.lists Q.ready Q.space Q.moved P.calls (waiting published (Q.flags_word side.old) (params_of self.old) (registered_of self.old) want args) published partner.old partner.new side.old side.new result }
        ensures cause { HasCause is_submit_fault (P.faults partner.old) (P.faults partner.new) result }
        ensures planned { IfSome (P.state partner.old) (λ _. IfErr result (λ e. IsTrue (is_submit_fault e) → Contains (P.plan partner.old) 1)) }
        ensures counted { IfSome (P.state partner.old) (λ _. ¬ Contains (P.plan partner.old) 1 → P.faults partner.new ≡ P.faults partner.old) }
        ensures plan { P.plan partner.new ≡ (if enters (Q.flags_word side.old) (params_of self.old) want then later_plan (P.plan partner.old) else P.plan partner.old) }
        ensures errno { KeepsSubmitErrno result (P.errno partner.old) (P.errno partner.new) }
        ensures errors { IfErr result (λ e. is_of_partner e ≡ true) }
        ensures fits { IfOk result (λ n. n < 2 ^ 32) }
        ensures same { self.new ≡ self.old }
    {
        let shown = SubmissionFlags::from_bits_retain(side.sq_flags());
        let published = side.published();
        let Some(call) = self.decide(published, shown, want, args) else {
            return Ok(published as usize);
        };
        let taken = partner.enter(alloc, &call, side)?;
        Ok(taken as usize)
    }

    /// The values of the one enter, or none where there is to be no enter.
    fn decide(
        &self,
        published: u32,
        shown: SubmissionFlags,
        want: u32,
        args: Option<SubmitArgs>,
    ) -> Option<EnterCall>
        ensures { result ≡ waiting published shown.0 (params_of self.now) (registered_of self.now) want args }
    {
        let polled = self.params.is_setup_sqpoll();
        let wakes = polled && shown.contains(SubmissionFlags::NEED_WAKEUP);
        if polled && !wakes && want == 0 && !self.has_events(shown) {
            return None;
        }
        let mut flags = EnterFlags::empty();
        if self.gets_events(shown, want) {
            flags |= EnterFlags::GETEVENTS;
        }
        if wakes {
            flags |= EnterFlags::SQ_WAKEUP;
        }
        let more = match args {
            None => EnterFlags::empty(),
            Some(_) => EnterFlags::EXT_ARG,
        };
        Some(self.call_of(published, want, (flags | more).bits(), args))
    }

    /// An enter of the registered ring, where there is one, and else of the raw descriptor.
    fn call_of(&self, to_submit: u32, want: u32, flags: u32, args: Option<SubmitArgs>) -> EnterCall
        ensures { result ≡ call_of (registered_of self.now) to_submit want flags args }
    {
        match self.registered {
            None => EnterCall {
                ring: -1,
                to_submit,
                want,
                flags,
                args,
            },
            Some(index) => EnterCall {
                ring: index,
                to_submit,
                want,
                flags: flags | EnterFlags::REGISTERED_RING.bits(),
                args,
            },
        }
    }

    /// Whether only an enter brings completions that are held back, or runs tasks that wait.
    fn has_events(&self, shown: SubmissionFlags) -> bool
        ensures { result ≡ has_events shown.0 (params_of self.now) }
    {
        shown.contains(SubmissionFlags::CQ_OVERFLOW) && self.params.is_feature_nodrop()
            || shown.contains(SubmissionFlags::TASKRUN)
    }

    fn gets_events(&self, shown: SubmissionFlags, want: u32) -> bool
        ensures { result ≡ gets_events shown.0 (params_of self.now) want }
    {
        want > 0
            || self.params.is_setup_iopoll()
            || shown.contains(SubmissionFlags::CQ_OVERFLOW)
            || shown.contains(SubmissionFlags::TASKRUN)
    }
}
