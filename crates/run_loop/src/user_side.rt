//! The user's side of a run, beside a partner that takes its turns elsewhere.

use crate::job_table::JobTable;
use crate::offers::OfferQueue;
use crate::user_rounds::user_round;
use partner_serving::{End, Gate, StopFlags};
use rent_engine::Engine;
use ring_setup::Parameters;
use ring_traits::UserEnds;
use std::alloc::{AllocError, Global};
use std::sync::Wait;
use std::thread;
use uring_model::{Job, RunFault};

/// The user's side of a run: an engine on its ends of the rings, the jobs that are still to be
/// offered, and what came of the others.
#[derive(Drop)]
pub struct UserSide<R: UserEnds> {
    engine: Engine<R>,
    todo: OfferQueue,
    table: JobTable,
    // How many rounds it made. It stays at 2^64 - 1 once there.
    rounds: u64,
}

impl<R: UserEnds + Drop> UserSide<R> {
    ghost use Rattle.std.specs.Prelude.{◌≡◌, ◌+◌, ◌≤◌, ◌↔◌, List, [], false, IfOk, IfErr, OnOk, IsTrue, length};
    ghost use Rattle.run_loop.specs.declared.entries.Offer.{Offer};
    ghost use Rattle.run_loop.specs.declared.slot.Slot.{Slot};
    ghost use Rattle.run_loop.specs.Entries.{AllValid, all_taken, offers_from};
    ghost use Rattle.run_loop.specs.Flights.{IsSettled};
    ghost use Rattle.run_loop.specs.Rounds.{is_partner_fault};
    ghost use Rattle.run_loop.specs.Slots.{count_open, slots_from};
    ghost use Rattle.run_loop.specs.UserRounds.{UserRounds, EndsBy};

    /// Before the first round of valid jobs.
    pub fn new(
        alloc: Global,
        ring: R,
        params: Parameters,
        jobs: Vec<Job>,
    ) -> Result<UserSide<R>, AllocError>
        requires { AllValid jobs.items }
        ensures rounds { IfOk result (λ side. UserRounds R.used ring side.engine.ring (offers_from 0 jobs.items) (all_taken side.todo R.offers_large) side.table.started side.table.slots.items) }
        ensures inside { IfOk result (λ side. side.table.started + length side.todo ≤ length side.table.slots.items) }
        ensures settled { IfOk result (λ side. IsSettled side.engine.ops side.table.started side.table.slots.items side.table.in_flight.items side.todo) }
    {
        let table = JobTable::new(alloc, &jobs)?;
        let todo = OfferQueue::new(jobs);
        let engine = Engine::new(alloc, ring, params);
        Ok(UserSide {
            engine,
            todo,
            table,
            rounds: 0,
        })
    }

    /// Whether each job has its outcome.
    pub fn is_whole(&self) -> bool
        ensures { IsTrue result ↔ (count_open self.now.table.slots.items ≡ 0) }
    {
        self.table.is_whole()
    }

    /// One more round, behind the gate. Answers whether a completion was final.
    pub fn round<G: Gate>(&mut self, alloc: Global, gate: &G) -> Result<bool, RunFault>
        requires inside { self.old.table.started + length self.old.todo ≤ length self.old.table.slots.items }
        requires settled { IsSettled self.old.engine.ops self.old.table.started self.old.table.slots.items self.old.table.in_flight.items self.old.todo }
        ensures rounds { OnOk result ((first : R) (offers : List Offer) → UserRounds R.used first self.old.engine.ring offers (all_taken self.old.todo R.offers_large) self.old.table.started self.old.table.slots.items
            → UserRounds R.used first self.new.engine.ring offers (all_taken self.new.todo R.offers_large) self.new.table.started self.new.table.slots.items) }
        ensures inside { OnOk result (self.new.table.started + length self.new.todo ≤ length self.new.table.slots.items) }
        ensures settled { OnOk result (IsSettled self.new.engine.ops self.new.table.started self.new.table.slots.items self.new.table.in_flight.items self.new.todo) }
        ensures own { IfErr result (λ e. is_partner_fault e ≡ false) }
        ensures err { IfErr result (λ e. (first : R) (offers : List Offer) → UserRounds R.used first self.old.engine.ring offers (all_taken self.old.todo R.offers_large) self.old.table.started self.old.table.slots.items
            → EndsBy R.used first self.new.engine.ring offers e) }
    {
        gate.pass(End::Engine, self.rounds);
        self.rounds = self.rounds.saturating_add(1);
        user_round(alloc, &mut self.engine, &mut self.todo, &mut self.table)
    }

    /// Rounds until each job has its outcome, or the partner's rounds have ended.
    pub fn rounds_beside<W: Wait, G: Gate>(
        &mut self,
        rt: &W,
        alloc: Global,
        gate: &G,
        stops: &StopFlags,
    ) -> Result<(), RunFault>
        requires inside { self.old.table.started + length self.old.todo ≤ length self.old.table.slots.items }
        requires settled { IsSettled self.old.engine.ops self.old.table.started self.old.table.slots.items self.old.table.in_flight.items self.old.todo }
        ensures rounds { OnOk result ((first : R) (offers : List Offer) → UserRounds R.used first self.old.engine.ring offers (all_taken self.old.todo R.offers_large) self.old.table.started self.old.table.slots.items
            → UserRounds R.used first self.new.engine.ring offers (all_taken self.new.todo R.offers_large) self.new.table.started self.new.table.slots.items) }
        ensures inside { OnOk result (self.new.table.started + length self.new.todo ≤ length self.new.table.slots.items) }
        ensures settled { OnOk result (IsSettled self.new.engine.ops self.new.table.started self.new.table.slots.items self.new.table.in_flight.items self.new.todo) }
        ensures own { IfErr result (λ e. is_partner_fault e ≡ false) }
        ensures err { IfErr result (λ e. (first : R) (offers : List Offer) → UserRounds R.used first self.old.engine.ring offers (all_taken self.old.todo R.offers_large) self.old.table.started self.old.table.slots.items
            → EndsBy R.used first self.new.engine.ring offers e) }
    {
        'rounds: for _ in rt.forever() {
            if self.is_whole() || stops.has_stopped() {
                return Ok(());
            }
            let went = self.round(alloc, gate)?;
            if !went {
                thread::yield_now();
            }
        }
        unreachable!()
    }

    /// The ring, and the table of the jobs.
    pub fn into_parts(self) -> (R, JobTable)
        ensures { (result.0 ≡ self.engine.ring) × (result.1 ≡ self.table) }
    {
        let UserSide { engine, table, .. } = self;
        (engine.into_ring(), table)
    }
}
