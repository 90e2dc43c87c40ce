//! One round of a run.

ghost use Rattle.std.specs.Prelude.{◌≡◌, ◌+◌, ◌⊎◌, ◌<◌, ◌≤◌, ◌^◌, ◌++◌, ◌∷◌, ◌||◌, nat_lt, [], List, Some, IfOk, IfErr, IfSome, OnOk, OnErr, IsTrue, Contains, true, false, ℕ, length, vec_len};
ghost use Rattle.uring_base.specs.declared.events.Taken.{Taken};
ghost use Rattle.uring_base.specs.Causes.{HasCause};
ghost use Rattle.uring_model.specs.Moves.{posted};
ghost use Rattle.ring_traits.specs.Lists.{Lists, Becomes, as_offered};
ghost use Rattle.run_loop.specs.Rounds.{pushed_more, IsCalm, PlacesGoOn, Round, engine_fault, is_partner_fault};
ghost use Rattle.run_loop.specs.UserRounds.{UserSent};
ghost use Rattle.uring_model.specs.Jobs.{model_job, is_valid_job};
ghost use Rattle.run_loop.specs.Entries.{all_taken, job_entry, job_loan, offer_of};
ghost use Rattle.run_loop.specs.Flights.{IsAhead, IsSettled, AreOperated, AreReplied, NoneResolved, jobs_in_flight};

use crate::job_table::JobTable;
use crate::offers::{Due, OfferQueue};
use crate::starts::start_job;
use partner_traits::Partner;
use rent_engine::{Engine, EngineFault, TurnReport};
use ring_traits::{PartnerSide, UserEnds};
use std::alloc::Global;
use uring_model::RunFault;

/// Starts the job in front, as an operation of the engine.
fn start<R: UserEnds>(
    alloc: Global,
    engine: &mut Engine<R>,
    next: Due,
    table: &mut JobTable,
) -> Result<(), RunFault>
    requires operated { AreOperated engine.old.ops table.old.started table.old.slots.items (jobs_in_flight table.old.in_flight.items) }
    requires replied { AreReplied table.old.slots.items table.old.in_flight.items }
    requires none { NoneResolved engine.old.ops }
    requires valid { is_valid_job false (model_job next.job) ≡ true }
    requires bound { next.number + 1 < 2 ^ 64 }
    requires ahead { IsAhead table.old.started table.old.slots.items (offer_of next.number next.job) }
    requires room { 0 < R.room engine.old.ring }
    requires inside { table.old.started < vec_len table.old.slots }
    ensures uses { OnOk result (R.used engine.old.ring (as_offered R.offers_large (job_entry next.number next.job) (job_loan next.number next.job.kind) ∷ []) [] engine.new.ring) }
    ensures told { OnOk result (Becomes (R.lists engine.old.ring) (pushed_more (as_offered R.offers_large (job_entry next.number next.job) (job_loan next.number next.job.kind) ∷ [])) (R.lists engine.new.ring)) }
    ensures room { OnOk result (R.room engine.old.ring ≡ R.room engine.new.ring + 1) }
    ensures waiting { OnOk result (R.waiting engine.new.ring ≡ R.waiting engine.old.ring) }
    ensures operated { OnOk result (AreOperated engine.new.ops table.new.started table.new.slots.items (jobs_in_flight table.new.in_flight.items)) }
    ensures replied { OnOk result (AreReplied table.new.slots.items table.new.in_flight.items) }
    ensures none { OnOk result (NoneResolved engine.new.ops) }
    ensures started { OnOk result (table.new.started ≡ table.old.started + 1) }
    ensures slots { table.new.slots.items ≡ table.old.slots.items }
    ensures memory { IfErr result (λ e. e ≡ RunFault.NoMemory) }
    ensures lacking { OnErr result (UserSent R.used engine.old.ring engine.new.ring (as_offered R.offers_large (job_entry next.number next.job) (job_loan next.number next.job.kind) ∷ [])) }
{
    let op = start_job(alloc, engine, next.number, next.job)?;
    match table.start(op) {
        Ok(()) => Ok(()),
        Err(_) => Err(RunFault::NoMemory),
    }
}

/// Starts jobs until the ring is full or none is left.
pub fn start_some<R: UserEnds>(
    alloc: Global,
    engine: &mut Engine<R>,
    todo: &mut OfferQueue,
    table: &mut JobTable,
) -> Result<(), RunFault>
    requires inside { table.old.started + length todo.old ≤ vec_len table.old.slots }
    requires settled { IsSettled engine.old.ops table.old.started table.old.slots.items table.old.in_flight.items todo.old }
    ensures offered { OnOk result ((ts : List Taken) × (all_taken todo.old R.offers_large ≡ ts ++ all_taken todo.new R.offers_large)
        × R.used engine.old.ring ts [] engine.new.ring
        × Becomes (R.lists engine.old.ring) (pushed_more ts) (R.lists engine.new.ring)
        × (R.room engine.old.ring ≡ R.room engine.new.ring + length ts)
        × (table.new.started ≡ table.old.started + length ts)) }
    ensures full { OnOk result ((todo.new ≡ []) ⊎ (R.room engine.new.ring ≡ 0)) }
    ensures inside { OnOk result (table.new.started + length todo.new ≡ table.old.started + length todo.old) }
    ensures slots { table.new.slots.items ≡ table.old.slots.items }
    ensures waiting { OnOk result (R.waiting engine.new.ring ≡ R.waiting engine.old.ring) }
    ensures settled { OnOk result (IsSettled engine.new.ops table.new.started table.new.slots.items table.new.in_flight.items todo.new) }
    ensures memory { IfErr result (λ e. e ≡ RunFault.NoMemory) }
    ensures lacking { OnErr result (UserSent R.used engine.old.ring engine.new.ring (all_taken todo.old R.offers_large)) }
{
    'starts: while engine.free() > 0 {
        let Some(next) = todo.pop_front() else {
            return Ok(());
        };
        start(alloc, engine, next, table)?;
    }
    Ok(())
}

/// The fault of a run, by an engine's.
pub fn as_run_fault(fault: EngineFault) -> RunFault
    ensures { result ≡ engine_fault fault }
{
    match fault {
        EngineFault::Stranger(number) => RunFault::Stranger(number),
        EngineFault::Fault(_) => RunFault::PartnerFault,
        EngineFault::NoMemory => RunFault::NoMemory,
    }
}

/// Whether an entry was taken in a turn, or a completion was final.
fn goes_on(report: &TurnReport) -> bool
    ensures { result ≡ (nat_lt 0 report.now.taken || nat_lt 0 report.now.finals) }
{
    report.taken > 0 || report.finals > 0
}

/// Starts jobs until the ring is full or none is left, takes one turn with the partner, and polls
/// each job in flight. Answers whether an entry was taken or a completion was final. Where memory
/// lacks for a start, the partner isn't called.
pub fn round<R: UserEnds + PartnerSide, P: Partner>(
    alloc: Global,
    engine: &mut Engine<R>,
    partner: &mut P,
    todo: &mut OfferQueue,
    table: &mut JobTable,
) -> Result<bool, RunFault>
    requires calm { (l : Lists) × (R.lists engine.old.ring ≡ Some l) × IsCalm l (R.room engine.old.ring) }
    requires inside { table.old.started + length todo.old ≤ vec_len table.old.slots }
    requires settled { IsSettled engine.old.ops table.old.started table.old.slots.items table.old.in_flight.items todo.old }
    ensures round { OnOk result ((r : Round P.machine P.log P.state R.lists R.kept partner.old partner.new engine.old.ring engine.new.ring (all_taken todo.old R.offers_large) (all_taken todo.new R.offers_large) table.new.started table.old.slots.items table.new.slots.items result)
        × PlacesGoOn R.offer_place R.reap_place engine.old.ring engine.new.ring (length r.ts) (length (posted r.ms))) }
    ensures inside { OnOk result (table.new.started + length todo.new ≡ table.old.started + length todo.old) }
    ensures calm { IfOk result (λ _. (l : Lists) × (R.lists engine.new.ring ≡ Some l) × IsCalm l (R.room engine.new.ring)) }
    ensures settled { OnOk result (IsSettled engine.new.ops table.new.started table.new.slots.items table.new.in_flight.items todo.new) }
    ensures err { IfErr result (λ e. ((e ≡ RunFault.NoMemory) × (partner.new ≡ partner.old))
        ⊎ (Round P.machine P.log P.state R.lists R.kept partner.old partner.new engine.old.ring engine.new.ring (all_taken todo.old R.offers_large) (all_taken todo.new R.offers_large) table.new.started table.old.slots.items table.new.slots.items result
        × (table.new.started + length todo.new ≡ table.old.started + length todo.old))) }
    ensures cause { HasCause is_partner_fault (P.faults partner.old) (P.faults partner.new) result }
    ensures planned { IfSome (P.state partner.old) (λ _. IfErr result (λ e. IsTrue (is_partner_fault e) → Contains (P.plan partner.old) 1)) }
    ensures counted { IfSome (P.state partner.old) (λ _. ¬ Contains (P.plan partner.old) 1 → P.faults partner.new ≡ P.faults partner.old) }
    ensures plan { P.plan partner.old ≡ [] → P.plan partner.new ≡ [] }
{
    start_some(alloc, engine, todo, table)?;
    let report = match engine.turn(alloc, partner) {
        Ok(report) => report,
        Err(fault) => return Err(as_run_fault(fault)),
    };
    if table.poll_all(alloc, engine).is_err() {
        return Err(RunFault::NoMemory);
    }
    Ok(goes_on(&report))
}
