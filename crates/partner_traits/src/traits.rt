//! What a partner is.

use crate::call::{EnterCall, PartnerError};
use ring_traits::PartnerSide;
use std::alloc::Global;
use uring_base::{Buf, Event};

/// Whatever counts its faults. The count never falls.
pub trait Counts {
    ghost use Rattle.std.specs.Prelude.{ℕ};

    ghost faults: { Self → ℕ };
}

/// What stands in the kernel's place. Where it tells its log, the log is kept, with a copy of
/// each posted loan; where it tells its files, the clauses say what each call made of them.
pub trait Partner: Counts {
    ghost use Rattle.std.specs.Prelude.{◌≡◌, ◌<◌, ℕ, List, Option, Some, OnOk, IfOk, IfErr, IfSome, IsTrue, Contains, is_ok, length, min, slice_get};
    ghost use Rattle.std.specs.Option.{option_map};
    ghost use Rattle.uring_base.specs.declared.events.LogEvent.{LogEvent};
    ghost use Rattle.uring_base.specs.Causes.{HasCause};
    ghost use Rattle.uring_model.specs.Moves.{Move, event_of, took};
    ghost use Rattle.uring_model.specs.Machine.{Files};
    ghost use Rattle.uring_model.specs.Partner.{file_machine};
    ghost use Rattle.uring_model.specs.Schedule.{Machine, State};
    ghost use Rattle.uring_model.specs.Refines.{Refines};
    ghost use Rattle.uring_model.specs.Asks.{IsJobEntry};
    ghost use Rattle.partner_traits.specs.Calls.{Enters, IsCall, IsFullTurn, IsPlannedFailure, KeepsErrno, Puts, is_fault, later_plan};
    ghost use Rattle.partner_traits.specs.Requests.{calls_after};
    ghost use Rattle.partner_traits.specs.declared.request.PartnerCall.{PartnerCall};
    ghost use Rattle.partner_traits.specs.declared.request.PartnerCall.TheVariants.{Entered};

    // The events of all calls, where the partner tells them, and how many there are.
    ghost log: { Self → Option (List LogEvent) };

    ghost log_count: { Self → ℕ };

    // What it works on, and how it answers there.
    ghost World: { Type 0 };

    ghost machine: { Machine World };

    // Its world, what is taken and unsettled, and the choices left, where it tells them.
    ghost state: { Self → Option (State World) };

    // The files of the world. While it is plain, and nothing is asked but the six operations, it goes as the files do.
    ghost view: { World → Files };

    ghost Plain: { World → Type 0 };

    ghost refines: { Refines machine file_machine view Plain IsJobEntry };

    // What a file put in makes of the world.
    ghost put: { ℕ → List ℕ → World → World };

    ghost puts: { Puts view Plain put };

    // Which of the next enters fail by plan, counted from 1.
    ghost plan: { Self → List ℕ };

    // The error number of its last fault.
    ghost errno: { Self → ℕ };

    // The enters and registrations that it answered with a number, where it tells them.
    ghost calls: { Self → Option (List PartnerCall) };

    /// One turn over the side: takes entries from the front of what is published, at most
    /// `to_submit`, and posts completions only where they fit. Answers how many were taken. After a
    /// failure the log keeps what was added before it. The flags and counters of the rings stay as
    /// they were.
    fn enter<Q: PartnerSide>(
        &mut self,
        alloc: Global,
        call: &EnterCall,
        side: &mut Q,
    ) -> Result<u32, PartnerError>
        ensures moves { (ms : List Move) × Enters machine log state Q.moved self.old self.new side.old side.new ms
            × IsCall (is_ok result) call.now.to_submit (Q.lists side.old) ms
            × IfOk result (λ n. n ≡ length (took ms))
            × OnOk result (IsFullTurn machine (state self.old) (min call.now.to_submit (Q.ready side.old)) (Q.space side.old) (Q.lists side.old) ms) }
        ensures cause { HasCause is_fault (Self.faults self.old) (Self.faults self.new) result }
        ensures planned { IfSome (state self.old) (λ _. IfErr result (λ e. IsTrue (is_fault e) → Contains (plan self.old) 1)) }
        ensures counted { IfSome (state self.old) (λ _. ¬ Contains (plan self.old) 1 → Self.faults self.new ≡ Self.faults self.old) }
        ensures failure { IfSome (state self.old) (λ _. Contains (plan self.old) 1 → IsPlannedFailure log state Self.faults self.old self.new result × (side.new ≡ side.old)) }
        ensures plan { plan self.new ≡ later_plan (plan self.old) }
        ensures errno { KeepsErrno result (errno self.old) (errno self.new) }
        ensures calls { calls self.new ≡ calls_after (is_ok result) (Entered call.now) (calls self.old) };

    /// The number of events in the log.
    fn log_len(&self) -> usize
        ensures { result ≡ log_count self.now };

    /// One event of the log, without its entry and loan.
    fn log_event(&self, place: usize) -> Event
        requires { place < log_count self.now }
        ensures { IfSome (log self.now) (λ l. option_map event_of (slice_get l place) ≡ Some result) };

    ghost counts_log: { (partner : Self) → IfSome (log partner) (λ l. log_count partner ≡ length l) };
}

/// A partner that can be given files and choices.
pub trait Seedable: Partner {
    ghost use Rattle.std.specs.Prelude.{◌≡◌, OnOk, OnErr, IfSome, IfErr, false};
    ghost use Rattle.uring_base.specs.Causes.{HasCause};
    ghost use Rattle.partner_traits.specs.Calls.{KeepsErrno, StateBecomes, is_fault, with_choice, with_file};

    /// Puts a file with these bytes under the number, in place of what stood there. A partner
    /// that tells its files is never at fault here.
    fn put_file(&mut self, alloc: Global, number: u32, bytes: Buf) -> Result<(), PartnerError>
        ensures ok { OnOk result (StateBecomes (Self.state self.old) (with_file Self.put number bytes) (Self.state self.new)) }
        ensures err { OnErr result (Self.state self.new ≡ Self.state self.old) }
        ensures log { Self.log self.new ≡ Self.log self.old }
        ensures plan { Self.plan self.new ≡ Self.plan self.old }
        ensures cause { HasCause is_fault (Self.faults self.old) (Self.faults self.new) result }
        ensures no_fault { IfSome (Self.state self.old) (λ _. IfErr result (λ e. is_fault e ≡ false) × (Self.faults self.new ≡ Self.faults self.old)) }
        ensures errno { KeepsErrno result (Self.errno self.old) (Self.errno self.new) }
        ensures calls { Self.calls self.new ≡ Self.calls self.old };

    /// Adds a choice behind those that are left: which of the ready entries settles after as many
    /// settlings, and whether the turn goes on after it. A partner that tells its choices is never
    /// at fault here.
    fn add_choice(&mut self, alloc: Global, choice: u32) -> Result<(), PartnerError>
        ensures ok { OnOk result (StateBecomes (Self.state self.old) (with_choice choice) (Self.state self.new)) }
        ensures err { OnErr result (Self.state self.new ≡ Self.state self.old) }
        ensures log { Self.log self.new ≡ Self.log self.old }
        ensures plan { Self.plan self.new ≡ Self.plan self.old }
        ensures cause { HasCause is_fault (Self.faults self.old) (Self.faults self.new) result }
        ensures no_fault { IfSome (Self.state self.old) (λ _. IfErr result (λ e. is_fault e ≡ false) × (Self.faults self.new ≡ Self.faults self.old)) }
        ensures errno { KeepsErrno result (Self.errno self.old) (Self.errno self.new) }
        ensures calls { Self.calls self.new ≡ Self.calls self.old };
}
