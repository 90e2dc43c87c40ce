//! Registrations at the partners, and the calls that the memory partner keeps.

use crate::answering::{given_after, how_answered, number_of, numbers_left};
use crate::hostile::HostilePartner;
use crate::kept_calls::{nth_enter, nth_request};
use crate::logging::push_known;
use crate::memory::MemoryPartner;
use partner_traits::{EnterCall, PartnerCall, PartnerError, Registrar, Request};
use std::alloc::Global;
use uring_base::errno::EINVAL;

impl Registrar for MemoryPartner {
    ghost use Rattle.std.specs.Prelude.{◌≡◌, IfOk, is_ok};
    ghost use Rattle.partner_traits.specs.Calls.{KeepsErrno, is_fault};
    ghost use Rattle.partner_traits.specs.Requests.{KeepsShape, calls_after};
    ghost use Rattle.uring_base.specs.Causes.{HasCause};
    ghost use Rattle.uring_partner.specs.Answering.{Answers, FailsBy, answering_to, number_of, plain_code};
    ghost use Rattle.uring_partner.specs.Told.{given_by, told_calls, told_errno, told_faults, told_log, told_plan, told_state};

    ghost answers = { Answers };

    fn register(&mut self, alloc: Global, request: &mut Request) -> Result<u32, PartnerError>
        ensures answers { IfOk result (λ n. Answers self.old request.old n request.new.nums self.new) }
        ensures shape { KeepsShape request.old request.new }
        ensures calls { told_calls self.new ≡ calls_after (is_ok result) (PartnerCall.Requested request.old) (told_calls self.old) }
        ensures log { told_log self.new ≡ told_log self.old }
        ensures state { told_state self.new ≡ told_state self.old }
        ensures plan { told_plan self.new ≡ told_plan self.old }
        ensures fails { FailsBy (number_of (answering_to (plain_code request.old.code)) request.old.nr (given_by self.old)) result (told_faults self.old) (told_faults self.new) }
        ensures cause { HasCause is_fault (told_faults self.old) (told_faults self.new) result }
        ensures errno { KeepsErrno result (told_errno self.old) (told_errno self.new) }
    {
        let how = how_answered(request.code);
        let Some(number) = number_of(how, request.nr, self.ledger.personalities) else {
            return Err(self.ledger.fault(EINVAL));
        };
        let kept = request.try_clone(alloc)?;
        let left = numbers_left(alloc, how, request.nums.as_slice())?;
        self.ledger.calls.try_reserve(1)?;
        request.nums = left;
        self.ledger.personalities = given_after(how, self.ledger.personalities);
        push_known(&mut self.ledger.calls, PartnerCall::Requested(kept));
        Ok(number)
    }
}

impl Registrar for HostilePartner {
    ghost use Rattle.std.specs.Prelude.{◌≡◌, Ok};
    ghost use Rattle.uring_partner.specs.Logs.{LeavesAll};

    ghost answers = { LeavesAll };

    /// Answers 0 to each, and leaves the numbers as they are.
    fn register(&mut self, _alloc: Global, _request: &mut Request) -> Result<u32, PartnerError>
        ensures ok { result ≡ Ok 0 }
        ensures nothing { self.new ≡ self.old }
        ensures request { _request.new ≡ _request.old }
    {
        Ok(0)
    }
}

impl MemoryPartner {
    ghost use Rattle.std.specs.Prelude.{◌≡◌, option_copied, slice_get};
    ghost use Rattle.uring_partner.specs.Told.{entered_of, requested_of};

    /// The enter in this place of those that were answered with a number.
    pub fn enter_call(&self, place: usize) -> Option<&EnterCall>
        ensures { option_copied result ≡ slice_get (entered_of self.now) place }
    {
        nth_enter(&self.ledger.calls, place)
    }

    /// The registration in this place of those that were answered with a number, as it came.
    pub fn request(&self, place: usize) -> Option<&Request>
        ensures { option_copied result ≡ slice_get (requested_of self.now) place }
    {
        nth_request(&self.ledger.calls, place)
    }
}
