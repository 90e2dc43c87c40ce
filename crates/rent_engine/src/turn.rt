//! One turn with a partner.

ghost use Rattle.std.specs.Prelude.{◌≡◌, ◌≤◌, ◌^◌, ◌<◌, true, IfErr, IfOk, IfSome, IsTrue, OnOk, Contains};
ghost use Rattle.uring_base.specs.Causes.{HasCause};
ghost use Rattle.partner_traits.specs.Calls.{later_plan};
ghost use Rattle.uring_submit.specs.Errors.{KeepsSubmitErrno, is_of_partner, is_submit_fault};
ghost use Rattle.rent_engine.specs.Faults.{KeepsEngineErrno, is_engine_fault};
ghost use Rattle.rent_engine.specs.Turns.{EngineTurned, Submitted};

use crate::engine::Engine;
use crate::fault::EngineFault;
use crate::ops::TurnReport;
use partner_traits::Partner;
use ring_traits::{PartnerSide, UserEnds};
use std::alloc::Global;
use uring_submit::{SubmitError, Submitter};

impl<R: UserEnds + PartnerSide> Engine<R> {
    /// Shows the partner what was offered, has it enter once and wait for one completion, and
    /// completes what it posted, as `pump` does.
    pub fn turn<P: Partner>(
        &mut self,
        alloc: Global,
        partner: &mut P,
    ) -> Result<TurnReport, EngineFault>
        ensures turned { EngineTurned P.machine P.log P.state R.lists R.ready R.space R.moved R.flags_word R.used R.room R.waiting self.old.params partner.old partner.new self.old.ring self.new.ring self.old.ops self.new.ops self.old.steps self.new.steps result }
        ensures none_left { OnOk result (R.waiting self.new.ring ≡ 0) }
        ensures cause { HasCause is_engine_fault (P.faults partner.old) (P.faults partner.new) result }
        ensures planned { IfSome (P.state partner.old) (λ _. IfErr result (λ fault. IsTrue (is_engine_fault fault) → Contains (P.plan partner.old) 1)) }
        ensures counted { IfSome (P.state partner.old) (λ _. ¬ Contains (P.plan partner.old) 1 → P.faults partner.new ≡ P.faults partner.old) }
        ensures plan { P.plan partner.new ≡ later_plan (P.plan partner.old) }
        ensures errno { KeepsEngineErrno result (P.errno partner.old) (P.errno partner.new) }
        ensures handles { self.new.handles ≡ self.old.handles }
        ensures spare { self.old.spare ≤ self.new.spare }
        ensures params { self.new.params ≡ self.old.params }
    {
        let taken = self.submit(alloc, partner)?;
        let report = self.pump(alloc)?;
        Ok(TurnReport {
            taken: taken as u32,
            ..report
        })
    }

    /// Shows the partner what was offered, and has it enter once.
    fn submit<P: Partner>(&mut self, alloc: Global, partner: &mut P) -> Result<usize, SubmitError>
        ensures submitted { Submitted P.machine P.log P.state R.lists R.ready R.space R.moved R.flags_word R.used self.old.params partner.old partner.new self.old.ring self.new.ring result }
        ensures cause { HasCause is_submit_fault (P.faults partner.old) (P.faults partner.new) result }
        ensures planned { IfSome (P.state partner.old) (λ _. IfErr result (λ e. IsTrue (is_submit_fault e) → Contains (P.plan partner.old) 1)) }
        ensures counted { IfSome (P.state partner.old) (λ _. ¬ Contains (P.plan partner.old) 1 → P.faults partner.new ≡ P.faults partner.old) }
        ensures plan { P.plan partner.new ≡ later_plan (P.plan partner.old) }
        ensures errno { KeepsSubmitErrno result (P.errno partner.old) (P.errno partner.new) }
        ensures errors { IfErr result (λ e. is_of_partner e ≡ true) }
        ensures fits { IfOk result (λ n. n < 2 ^ 32) }
        ensures ops { self.new.ops ≡ self.old.ops }
        ensures steps { self.new.steps ≡ self.old.steps }
        ensures handles { self.new.handles ≡ self.old.handles }
        ensures spare { self.new.spare ≡ self.old.spare }
        ensures params { self.new.params ≡ self.old.params }
    {
        self.ring.publish();
        let mut submitter = Submitter::new(&self.params);
        submitter.submit_and_wait(alloc, &mut self.ring, partner, 1)
    }
}
