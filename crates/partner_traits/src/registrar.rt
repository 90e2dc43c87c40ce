//! A partner that takes registrations.

use crate::call::PartnerError;
use crate::request::Request;
use crate::traits::Partner;
use std::alloc::Global;

/// A partner that takes registrations. Each impl says as `answers` what it may make of one.
pub trait Registrar: Partner {
    ghost use Rattle.std.specs.Prelude.{◌≡◌, ℕ, List, IfOk, is_ok};
    ghost use Rattle.uring_base.specs.Causes.{HasCause};
    ghost use Rattle.partner_traits.specs.Calls.{KeepsErrno, is_fault};
    ghost use Rattle.partner_traits.specs.Requests.{KeepsShape, calls_after};
    ghost use Rattle.partner_traits.specs.declared.request.Request.{Request};
    ghost use Rattle.partner_traits.specs.declared.request.PartnerCall.TheVariants.{Requested};

    // What it may answer to a request: the number, the numbers that it leaves in the request, and
    // what it is then.
    ghost answers: { Self → Request → ℕ → List ℕ → Self → Type 0 };

    /// Answers one registration with a number. It may change the request's numbers, and changes
    /// nothing else of it; it adds no event.
    fn register(&mut self, alloc: Global, request: &mut Request) -> Result<u32, PartnerError>
        ensures answers { IfOk result (λ n. answers self.old request.old n request.new.nums self.new) }
        ensures shape { KeepsShape request.old request.new }
        ensures calls { Self.calls self.new ≡ calls_after (is_ok result) (Requested request.old) (Self.calls self.old) }
        ensures log { Self.log self.new ≡ Self.log self.old }
        ensures state { Self.state self.new ≡ Self.state self.old }
        ensures plan { Self.plan self.new ≡ Self.plan self.old }
        ensures cause { HasCause is_fault (Self.faults self.old) (Self.faults self.new) result }
        ensures errno { KeepsErrno result (Self.errno self.old) (Self.errno self.new) };
}
