//! What the partner keeps of its turns.

ghost use Rattle.std.specs.Prelude.{◌≡◌, ◌+◌, ◌-◌, ◌^◌, ◌<◌, ◌≤◌, ◌++◌, ◌∷◌, [], None, Some, OnErr, OnOk, IfOk, IfSome, length, min, slice_get, true, vec_capacity, vec_len};
ghost use Rattle.std.specs.Option.{option_map};
ghost use Rattle.uring_base.specs.Words.{bits_of};
ghost use Rattle.uring_model.specs.Moves.{Turned, Took, event_of};
ghost use Rattle.uring_model.specs.Partner.{cut_of};
ghost use Rattle.partner_traits.specs.declared.call.PartnerError.TheVariants.{Fault};
ghost use Rattle.uring_std.specs.Turns.{LogsBy};

use partner_traits::PartnerError;
use ring_traits::PartnerSide;
use std::alloc::{AllocError, Global};
use uring_base::{Event, LogEvent, Taken};

/// The log, the end of the open chain, and the faults.
#[derive(Drop)]
pub struct Ledger {
    pub log: Vec<LogEvent>,
    // None where the entry that ended last has no link, else whether the next one is cut.
    pub tail: Option<bool>,
    // An entry that was taken, and for whose end there was no memory. It ends before another is taken.
    pub waiting: Option<Taken>,
    pub faults: u64,
    // The error number of the last fault, and 0 before the first.
    pub errno: u32,
}

impl Ledger {
    /// Nothing was done.
    pub fn new(alloc: Global) -> Ledger
        ensures log { result.log.items ≡ [] }
        ensures tail { result.tail ≡ None }
        ensures waiting { result.waiting ≡ None }
        ensures faults { result.faults ≡ 0 }
        ensures errno { result.errno ≡ 0 }
    {
        Ledger {
            log: Vec::new(alloc),
            tail: None,
            waiting: None,
            faults: 0,
            errno: 0,
        }
    }

    /// Counts a fault with this error number, and gives it. The count stays at its last value once
    /// there.
    pub fn fault(&mut self, errno: i32) -> PartnerError
        ensures error { result ≡ Fault (bits_of errno) }
        ensures counted { self.new.faults ≡ min (self.old.faults + 1) (2 ^ 64 - 1) }
        ensures later { self.old.faults ≤ self.new.faults }
        ensures kept { self.new.errno ≡ bits_of errno }
        ensures log { self.new.log ≡ self.old.log }
        ensures tail { self.new.tail ≡ self.old.tail }
        ensures waiting { self.new.waiting ≡ self.old.waiting }
    {
        self.faults = self.faults.saturating_add(1);
        self.errno = errno.cast_unsigned();
        PartnerError::Fault(self.errno)
    }

    /// Begins a turn, over the smaller of what is asked and what is published.
    pub fn begin_turn<Q: PartnerSide>(
        &mut self,
        side: &mut Q,
        to_submit: u32,
    ) -> Result<u32, AllocError>
        ensures ok { IfOk result (λ p. LogsBy Q.moved self.old.log.items self.new.log.items side.old side.new (Turned p ∷ [])) }
        ensures fits { IfOk result (λ p. (p ≤ to_submit) × (p ≤ Q.ready side.new)) }
        ensures told { IfOk result (λ p. IfSome (Q.lists side.old) (λ l. p ≡ min to_submit (length l.published))) }
        ensures err { OnErr result (LogsBy Q.moved self.old.log.items self.new.log.items side.old side.new []) }
        ensures faults { (self.new.faults ≡ self.old.faults) × (self.new.errno ≡ self.old.errno) }
    {
        let turn = side.published().min(to_submit);
        self.log.try_reserve(1)?;
        push_known(&mut self.log, LogEvent::Turn(turn));
        Ok(turn)
    }

    /// Takes the entry in front.
    pub fn take_one<Q: PartnerSide>(&mut self, side: &mut Q) -> Result<Taken, AllocError>
        requires { 0 < Q.ready side.old }
        ensures ok { IfOk result (λ t. LogsBy Q.moved self.old.log.items self.new.log.items side.old side.new (Took t ∷ [])) }
        ensures ready { OnOk result (Q.ready side.old ≤ Q.ready side.new + 1) }
        ensures space { Q.space side.new ≡ Q.space side.old }
        ensures tail { self.new.tail ≡ self.old.tail }
        ensures err { OnErr result (LogsBy Q.moved self.old.log.items self.new.log.items side.old side.new []) }
        ensures faults { (self.new.faults ≡ self.old.faults) × (self.new.errno ≡ self.old.errno) }
    {
        self.log.try_reserve(1)?;
        let Some(taken) = side.take() else {
            unreachable!();
        };
        let job = taken.entry.user_data;
        let entry = taken.entry;
        push_known(&mut self.log, LogEvent::Take { job, entry });
        Ok(taken)
    }

    /// Whether the entry that is taken next is cut.
    pub fn is_cut(&self) -> bool
        ensures { result ≡ cut_of self.now.tail }
    {
        match self.tail {
            Some(cut) => cut,
            None => false,
        }
    }

    /// One event of the log, without its entry and loan.
    pub fn event_at(&self, place: usize) -> Event
        requires { place < length self.now.log.items }
        ensures { option_map event_of (slice_get self.now.log.items place) ≡ Some result }
    {
        match &self.log[place] {
            LogEvent::Turn(published) => Event::Turn(*published),
            LogEvent::Take { job, .. } => Event::Take(*job),
            LogEvent::Post {
                job,
                result,
                fin,
                ..
            } => Event::Post {
                job: *job,
                result: *result,
                fin: *fin,
            },
            LogEvent::Quiet(job) => Event::Quiet(*job),
        }
    }
}

/// Adds an item where memory for it is at hand.
pub fn push_known<T: Drop>(items: &mut Vec<T>, item: T)
    requires { vec_len items.old < vec_capacity items.old }
    ensures { items.new.items ≡ items.old.items ++ item ∷ [] }
{
    if let Err(_refused) = items.push(item) {
        unreachable!();
    }
}
