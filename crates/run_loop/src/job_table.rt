//! The jobs of a run: which are started, and what came of them.

ghost use Rattle.std.specs.Prelude.{◌≡◌, ◌≤◌, IfOk, vec_len};
ghost use Rattle.run_loop.specs.Slots.{count_open, open_slot, open_slots};

use crate::flights::InFlight;
use crate::job_op::{JobOp, JobPoll};
use crate::polls::poll_job;
use crate::slot::{Slot, reply_for};
use rent_engine::Engine;
use ring_traits::UserEnds;
use std::alloc::{AllocError, Global};
use std::collections::VecDeque;
use uring_model::{Job, Outcome};

/// A slot for each job. The first `started` jobs are started, `unfinished` have no outcome, and
/// those that are started and have none are in flight.
#[derive(Drop)]
pub struct JobTable {
    slots: Vec<Slot>,
    started: usize,
    unfinished: usize,
    in_flight: VecDeque<InFlight>,
    ghost counted: { unfinished ≡ count_open slots.items },
    ghost within: { started ≤ vec_len slots },
}

impl JobTable {
    ghost use Rattle.std.specs.Prelude.{◌≡◌, ◌+◌, ◌<◌, ◌↔◌, ◌++◌, ◌∷◌, [], IsTrue, IfOk, OnOk, IfSome, Some, ℕ, Bool, map, slice_get, slice_set};
    ghost use Rattle.std.specs.List.{AllByRecursion};
    ghost use Rattle.rent_table.specs.Ops.{done_at, taken_out};
    ghost use Rattle.rent_engine.specs.Ops.{polled};
    ghost use Rattle.run_loop.specs.Slots.{open_slots};
    ghost use Rattle.run_loop.specs.Flights.{AreOperated, NoneResolved, all_polled, with_polled, left_by, jobs_in_flight, AreReplied};
    ghost use Rattle.run_loop.specs.JobOps.{key_of, reply_of, TellsFor};
    ghost use Rattle.run_loop.specs.declared.slot.Reply.{Reply};
    ghost use Rattle.run_loop.specs.Steps.{CanBePolled};

    /// A table of open slots.
    pub fn new(alloc: Global, jobs: &[Job]) -> Result<JobTable, AllocError>
        ensures slots { IfOk result (λ table. table.slots.items ≡ open_slots jobs.now) }
        ensures started { IfOk result (λ table. table.started ≡ 0) }
        ensures none { IfOk result (λ table. table.in_flight.items ≡ []) }
    {
        Ok(JobTable {
            slots: all_open(alloc, jobs)?,
            started: 0,
            unfinished: jobs.len(),
            in_flight: VecDeque::new(alloc),
        })
    }

    /// Whether each job has its outcome.
    pub fn is_whole(&self) -> bool
        ensures { IsTrue result ↔ (count_open self.now.slots.items ≡ 0) }
    {
        self.unfinished == 0
    }

    /// The outcomes, where each job has one.
    pub fn into_outcomes(self, alloc: Global) -> Result<Vec<Outcome>, AllocError>
        requires { count_open self.slots.items ≡ 0 }
        ensures { IfOk result (λ outcomes. map (λ o. Slot.Done o) outcomes.items ≡ self.slots.items) }
    {
        let mut outcomes = Vec::with_capacity(alloc, self.slots.len())?;
        let mut left = VecDeque::from_vec(self.slots);
        while let Some(slot) = left.pop_front() {
            match slot {
                Slot::Done(outcome) => outcomes.push(outcome)?,
                Slot::Open { .. } => unreachable!(),
            }
        }
        Ok(outcomes)
    }

    /// One more job is started, with this operation.
    pub fn start(&mut self, op: JobOp) -> Result<(), AllocError>
        requires inside { self.old.started < vec_len self.old.slots }
        requires named { key_of op ≡ Some self.old.started }
        ensures started { OnOk result (self.new.started ≡ self.old.started + 1) }
        ensures slots { self.new.slots.items ≡ self.old.slots.items }
        ensures in_flight { OnOk result (jobs_in_flight self.new.in_flight.items ≡ jobs_in_flight self.old.in_flight.items ++ self.old.started ∷ []) }
        ensures replied { (reply : Reply) (quiet : Bool) → AreReplied self.old.slots.items self.old.in_flight.items → slice_get self.old.slots.items self.old.started ≡ Some (Slot.Open reply quiet) → TellsFor reply quiet op → OnOk result (AreReplied self.new.slots.items self.new.in_flight.items) }
    {
        let job = self.started;
        self.in_flight.push_back(InFlight { job, op })?;
        self.started += 1;
        Ok(())
    }

    fn finish(&mut self, place: usize, outcome: Outcome)
        requires { (reply : Reply) × (quiet : Bool) × (slice_get self.old.slots.items place ≡ Some (Slot.Open reply quiet)) }
        ensures slots { self.new.slots.items ≡ slice_set self.old.slots.items place (Slot.Done outcome) }
        ensures started { self.new.started ≡ self.old.started }
        ensures in_flight { self.new.in_flight.items ≡ self.old.in_flight.items }
    {
        self.slots[place] = Slot::Done(outcome);
        self.unfinished -= 1;
    }

    /// Polls the operation of a job. What it gives is kept in the job's slot; while it is in
    /// flight, the job goes behind.
    fn poll_one<R: UserEnds>(
        &mut self,
        alloc: Global,
        engine: &mut Engine<R>,
        flight: InFlight,
    ) -> Result<(), AllocError>
        requires polls { CanBePolled engine.old.ops flight.job flight.op }
        requires resolved { IfSome (done_at engine.old.ops flight.job) (λ _. (quiet : Bool) × (slice_get self.old.slots.items flight.job ≡ Some (Slot.Open (reply_of flight.op) quiet))) }
        ensures uses { R.used engine.old.ring [] [] engine.new.ring }
        ensures lists { R.lists engine.new.ring ≡ R.lists engine.old.ring }
        ensures room { R.room engine.new.ring ≡ R.room engine.old.ring }
        ensures waiting { R.waiting engine.new.ring ≡ R.waiting engine.old.ring }
        ensures ops { engine.new.ops ≡ taken_out flight.job engine.old.ops }
        ensures slots { self.new.slots.items ≡ with_polled (reply_of flight.op) flight.job (polled engine.old.ops flight.job) self.old.slots.items }
        ensures started { self.new.started ≡ self.old.started }
        ensures in_flight { OnOk result (jobs_in_flight self.new.in_flight.items ≡ jobs_in_flight self.old.in_flight.items ++ left_by (polled engine.old.ops flight.job) flight.job) }
        ensures replied { (replies : ℕ → Reply) (quiets : ℕ → Bool) → AllByRecursion (λ f. TellsFor (replies f.job) (quiets f.job) f.op) self.old.in_flight.items → TellsFor (replies flight.job) (quiets flight.job) flight.op → OnOk result (AllByRecursion (λ f. TellsFor (replies f.job) (quiets f.job) f.op) self.new.in_flight.items) }
    {
        let InFlight { job, op } = flight;
        match poll_job(alloc, engine, op) {
            JobPoll::Ready(outcome) => self.finish(job, outcome),
            JobPoll::Pending(op) => self.in_flight.push_back(InFlight { job, op })?,
        }
        Ok(())
    }

    /// Polls each job in flight once, and keeps what those that are resolved give.
    pub fn poll_all<R: UserEnds>(
        &mut self,
        alloc: Global,
        engine: &mut Engine<R>,
    ) -> Result<(), AllocError>
        requires operated { AreOperated engine.old.ops self.old.started self.old.slots.items (jobs_in_flight self.old.in_flight.items) }
        requires replied { AreReplied self.old.slots.items self.old.in_flight.items }
        ensures uses { R.used engine.old.ring [] [] engine.new.ring }
        ensures lists { R.lists engine.new.ring ≡ R.lists engine.old.ring }
        ensures room { R.room engine.new.ring ≡ R.room engine.old.ring }
        ensures waiting { R.waiting engine.new.ring ≡ R.waiting engine.old.ring }
        ensures started { self.new.started ≡ self.old.started }
        ensures slots { OnOk result (self.new.slots.items ≡ all_polled engine.old.ops self.old.slots.items) }
        ensures operated { OnOk result (AreOperated engine.new.ops self.new.started self.new.slots.items (jobs_in_flight self.new.in_flight.items)) }
        ensures replied { OnOk result (AreReplied self.new.slots.items self.new.in_flight.items) }
        ensures none { OnOk result (NoneResolved engine.new.ops) }
    {
        let mut left = self.in_flight.len();
        while left > 0 {
            left -= 1;
            match self.in_flight.pop_front() {
                Some(flight) => self.poll_one(alloc, engine, flight)?,
                None => unreachable!(),
            }
        }
        Ok(())
    }
}

fn open_slot(job: &Job) -> Slot
    ensures { result ≡ open_slot job.now }
{
    Slot::Open {
        reply: reply_for(&job.kind),
        quiet: job.quiet,
    }
}

fn all_open(alloc: Global, jobs: &[Job]) -> Result<Vec<Slot>, AllocError>
    ensures { IfOk result (λ slots. slots.items ≡ open_slots jobs.now) }
{
    jobs.iter().map(open_slot).collect(alloc)
}
