//! Completions of operations.

ghost use Rattle.std.specs.Prelude.{◌≡◌, ◌+◌, ◌^◌, ◌-◌, ◌<◌, ◌≤◌, ℕ, not, true, false, min, Some, OnOk, IfErr, IfOk, is_ok, is_some, if◌then◌else◌};
ghost use Rattle.uring_base.specs.Loans.{loan_buf};
ghost use Rattle.uring_base.specs.Completions.{is_final};
ghost use Rattle.rent_table.specs.Ops.{flight_at, next_at};
ghost use Rattle.rent_engine.specs.Ops.{is_stranger, has_strange_loan, completed, step_of, kept_of};
ghost use Rattle.rent_engine.specs.Engines.{Pumped, finals_in};
ghost use Rattle.rent_engine.specs.Faults.{ending, is_engine_fault};

use crate::engine::Engine;
use crate::fault::EngineFault;
use crate::ops::TurnReport;
use rent_table::{OpDone, Step};
use ring_traits::UserEnds;
use std::alloc::Global;
use uring_base::{Buf, Completion, Loan, cqueue};

impl<R: UserEnds> Engine<R> {
    /// Takes one completion. A final one resolves its operation, and all that hang on it; another
    /// is a step of it, and isn't kept. One that no operation in flight may have is dropped. It
    /// takes no memory.
    pub fn complete(&mut self, completion: Completion) -> Result<Option<Step>, EngineFault>
        ensures stranger { is_ok result ≡ not (is_stranger self.old.ops completion) }
        ensures fault { IfErr result (λ fault. fault ≡ EngineFault.Stranger completion.user_data) }
        ensures step { IfOk result (λ step. step ≡ step_of completion) }
        ensures ops { self.new.ops ≡ completed self.old.ops completion }
        ensures steps { self.new.steps ≡ self.old.steps }
        ensures handles { self.new.handles ≡ self.old.handles }
        ensures closed { (n m : ℕ) → next_at self.new.ops n ≡ Some m → is_some (flight_at self.old.ops m) ≡ true → is_some (flight_at self.new.ops m) ≡ true }
        ensures ring { self.new.ring ≡ self.old.ring }
        ensures spare { self.old.spare ≤ self.new.spare }
        ensures step_room { self.old.step_room ≤ self.new.step_room }
        ensures params { self.new.params ≡ self.old.params }
    {
        let Completion {
            user_data: number,
            result,
            flags,
            big: _,
            large: _,
            loan,
        } = completion;
        let Some(flight) = self.operations.flight(number) else {
            return Err(EngineFault::Stranger(number));
        };
        let more = cqueue::more(flags);
        if is_strange_loan(flight.lent, number, !more, &loan) {
            return Err(EngineFault::Stranger(number));
        }
        if more {
            return Ok(Some(Step {
                number,
                result,
                flags,
            }));
        }
        let buf = buf_of(loan);
        let outcome = OpDone {
            result,
            flags,
            buf,
            quiet: false,
        };
        self.operations.resolve(number, flight, outcome);
        Ok(None)
    }

    /// Shows the partner what was offered, sees what it posted, and completes all that it reaps
    /// until nothing is left or a stranger comes. Steps are kept. Where memory lacks for the next
    /// step, what was reaped is completed, and the rest stays in the ring.
    pub fn pump(&mut self, _alloc: Global) -> Result<TurnReport, EngineFault>
        ensures pumped { (p : Pumped R.used R.lists R.room R.waiting self.old.ring self.new.ring self.old.ops self.new.ops self.old.steps self.new.steps (ending result))
            × IfOk result (λ report. (report.taken ≡ 0) × (report.finals ≡ finals_in p.completions)) }
        ensures none_left { OnOk result (R.waiting self.new.ring ≡ 0) }
        ensures faults { IfErr result (λ fault. is_engine_fault fault ≡ false) }
        ensures handles { self.new.handles ≡ self.old.handles }
        ensures spare { self.old.spare ≤ self.new.spare }
        ensures params { self.new.params ≡ self.old.params }
    {
        self.ring.publish();
        self.ring.refresh();
        let mut finals = 0;
        'reaps: loop {
            self.operations.reserve_step()?;
            let Some(completion) = self.ring.reap() else {
                return Ok(TurnReport { taken: 0, finals });
            };
            let is_final = self.take_in(completion)?;
            finals = one_more_if(finals, is_final);
        }
    }

    /// Takes one completion, and keeps its step. Answers whether it was a final one.
    fn take_in(&mut self, completion: Completion) -> Result<bool, EngineFault>
        requires { 0 < self.old.step_room }
        ensures stranger { is_ok result ≡ not (is_stranger self.old.ops completion) }
        ensures fault { IfErr result (λ fault. fault ≡ EngineFault.Stranger completion.user_data) }
        ensures last { IfOk result (λ last. last ≡ is_final completion.flags) }
        ensures ops { self.new.ops ≡ completed self.old.ops completion }
        ensures steps { self.new.steps ≡ kept_of self.old.ops completion self.old.steps }
        ensures handles { self.new.handles ≡ self.old.handles }
        ensures ring { self.new.ring ≡ self.old.ring }
        ensures spare { self.old.spare ≤ self.new.spare }
        ensures params { self.new.params ≡ self.old.params }
    {
        match self.complete(completion)? {
            Some(step) => {
                self.operations.keep_step(step);
                Ok(false)
            }
            None => Ok(true),
        }
    }
}

fn one_more_if(count: u32, counts: bool) -> u32
    ensures { result ≡ min (count + (if counts then 1 else 0)) (2 ^ 32 - 1) }
{
    if counts {
        count.saturating_add(1)
    } else {
        count
    }
}

fn buf_of(loan: Option<Loan>) -> Option<Buf>
    ensures { result ≡ loan_buf loan }
{
    match loan {
        None => None,
        Some(loan) => Some(loan.buf),
    }
}

/// Whether no operation that lent a buffer, or didn't, may get this loan back.
fn is_strange_loan(lent: bool, number: u64, last: bool, loan: &Option<Loan>) -> bool
    ensures { result ≡ has_strange_loan lent number last loan.now }
{
    match loan {
        None => lent && last,
        Some(loan) => !lent || loan.number != number || !last,
    }
}
