//! Jobs, run with the partner on a thread of its own.

ghost use Rattle.std.specs.Prelude.{◌≡◌, ◌+◌, ◌≤◌, List, [], IfOk, IfErr, IfNone, IfSome, MatchResult, OnOk, Option, Some, true, false, map, drop, length};
ghost use Rattle.uring_base.specs.Causes.{HasCause};
ghost use Rattle.uring_base.specs.declared.limits.TheConstants.{MAX_ENTRIES};
ghost use Rattle.ring_core.specs.Positions.{is_ring_size};
ghost use Rattle.ring_setup.specs.Setup.{told_entries, told_completions};
ghost use Rattle.uring_model.specs.Moves.{event_of};
ghost use Rattle.uring_shared.specs.Seats.{IsPartnerOf, PartnerMoves};
ghost use Rattle.partner_traits.specs.declared.call.PartnerError.{PartnerError};
ghost use Rattle.partner_serving.specs.Rows.{RoundsServe};
ghost use Rattle.run_loop.specs.declared.entries.Offer.{Offer};
ghost use Rattle.run_loop.specs.declared.slot.Slot.{Slot};
ghost use Rattle.run_loop.specs.Entries.{AllInRange, AllValid, all_taken};
ghost use Rattle.run_loop.specs.Flights.{IsSettled};
ghost use Rattle.run_loop.specs.Rounds.{is_partner_fault};
ghost use Rattle.run_loop.specs.Runs.{IsValidRun, refusal};
ghost use Rattle.run_loop.specs.SharedRounds.{AreEndedBy};
ghost use Rattle.run_loop.specs.SharedRuns.{SharedSays};
ghost use Rattle.run_loop.specs.Slots.{count_open};
ghost use Rattle.run_loop.specs.UserRounds.{UserRounds, RunGoes};

use crate::entries::first_bad_job;
use crate::in_turn::{last_look, rounds_in_turn};
use crate::job_table::JobTable;
use crate::laws::model_laws;
use crate::run::{parameters_of, report_of};
use crate::slot::Slot;
use crate::two_threads::{Joined, on_two_threads};
use crate::user_side::UserSide;
use partner_serving::laws::{servings_join, two_sides_are_one_run};
use partner_serving::{Gate, Served};
use partner_traits::{Partner, PendingCount};
use ring_setup::Parameters;
use ring_traits::UserEnds;
use std::alloc::Global;
use std::sync::Wait;
use std::thread::Threads;
use uring_model::{Job, Report, RunFault};
use uring_shared::{PartnerSeats, SharedPair};

/// Both sides of a run once their rounds are over, and how these ended.
#[derive(Drop)]
struct BothEnded<R: UserEnds, P> {
    user: UserSide<R>,
    went: Result<(), RunFault>,
    seats: PartnerSeats,
    partner: P,
}

/// The rounds of both sides until each job has its outcome: on two threads, and what is left then in
/// one.
fn both_sides<
    W: Threads + Wait + Sync,
    R: UserEnds + Drop,
    P: Partner + PendingCount + Send + Drop,
    G: Gate + Sync,
>(
    rt: &W,
    alloc: Global,
    pair: &SharedPair,
    user: UserSide<R>,
    seats: PartnerSeats,
    partner: P,
    gate: &G,
) -> BothEnded<R, P>
    requires own { IsPartnerOf pair.now seats }
    requires inside { user.table.started + length user.todo ≤ length user.table.slots.items }
    requires settled { IsSettled user.engine.ops user.table.started user.table.slots.items user.table.in_flight.items user.todo }
    ensures own { IsPartnerOf pair.now result.seats }
    ensures user { (first : R) (offers : List Offer) → UserRounds R.used first user.engine.ring offers (all_taken user.todo R.offers_large) user.table.started user.table.slots.items
        → RunGoes R.used first result.user.engine.ring offers (all_taken result.user.todo R.offers_large) result.user.table.started result.user.table.slots.items result.went }
    ensures whole { OnOk result.went (count_open result.user.table.slots.items ≡ 0) }
    ensures partner { (ended : Option PartnerError) × RoundsServe P.machine P.Plain P.log P.state P.plan P.faults P.errno PartnerMoves seats partner result.seats result.partner ended × AreEndedBy ended result.went }
{
    servings_join::<P>();
    let Joined { user, went, served } = on_two_threads(rt, alloc, pair, user, seats, partner, gate);
    let Served {
        seats,
        partner,
        ended,
        rounds,
    } = served;
    let (mut user, mut partner) = (user, partner);
    if let Err(fault) = last_look(alloc, &mut user, went, ended, gate) {
        let went = Err(fault);
        return BothEnded {
            user,
            went,
            seats,
            partner,
        };
    }
    let mut side = seats.on(pair);
    let went = rounds_in_turn(rt, alloc, &mut user, &mut side, &mut partner, rounds, gate);
    BothEnded {
        user,
        went,
        seats: side.into_seats(),
        partner,
    }
}

/// How many events the partner's log has.
fn log_start<P: Partner>(partner: &P) -> usize
    ensures { IfSome (P.log partner.now) (λ log. result ≡ length log) }
{
    partner.log_len()
}

/// What a run answers whose rounds ended so, over the table of its jobs.
fn told<P: Partner>(
    alloc: Global,
    went: Result<(), RunFault>,
    table: JobTable,
    partner: &P,
    before: usize,
) -> Result<Report, RunFault>
    requires { OnOk went (count_open table.slots.items ≡ 0) }
    ensures fault { MatchResult went (λ _. IfErr result (λ e. e ≡ RunFault.NoMemory)) (λ e. result ≡ Err e) }
    ensures outcomes { IfOk result (λ report. map (λ o. Slot.Done o) report.outcomes.items ≡ table.slots.items) }
    ensures journal { IfOk result (λ report. IfSome (P.log partner.now) (λ log. report.journal.items ≡ map event_of (drop before log))) }
{
    match went {
        Ok(()) => report_of(alloc, table, partner, before),
        Err(fault) => Err(fault),
    }
}

/// `run_shared` after its tests of the sizes and the jobs.
fn run_valid<W: Threads + Wait + Sync, P: Partner + PendingCount + Send + Drop, G: Gate + Sync>(
    rt: &W,
    alloc: Global,
    parameters: Parameters,
    start: u32,
    partner: P,
    jobs: Vec<Job>,
    gate: &G,
) -> (Result<Report, RunFault>, P)
    requires sizes { (is_ring_size (told_entries parameters) ≡ true) × (is_ring_size (told_completions parameters) ≡ true) × (told_entries parameters ≤ MAX_ENTRIES) }
    requires valid { AllValid jobs.items }
    requires in_range { AllInRange jobs.items }
    ensures run { SharedSays P.machine P.view P.Plain P.log P.state partner result.1 jobs.items result.0 }
    ensures cause { HasCause is_partner_fault (P.faults partner) (P.faults result.1) result.0 }
    ensures unplanned { IfSome (P.state partner) (λ _. P.plan partner ≡ [] → IfErr result.0 (λ e. is_partner_fault e ≡ false)) }
    ensures plan { P.plan partner ≡ [] → P.plan result.1 ≡ [] }
    ensures calm { IfSome (P.state partner) (λ _. P.plan partner ≡ [] → P.faults result.1 ≡ P.faults partner) }
{
    model_laws::<P>();
    servings_join::<P>();
    two_sides_are_one_run::<P>();
    let (entries, completions) = (parameters.sq_entries(), parameters.cq_entries());
    let Ok((pair, engine, seats)) = SharedPair::new(alloc, entries, completions, start) else {
        return (Err(RunFault::NoMemory), partner);
    };
    let Ok(user) = UserSide::new(alloc, engine.on(&pair), parameters, jobs) else {
        return (Err(RunFault::NoMemory), partner);
    };
    let before = log_start(&partner);
    let ended = both_sides(rt, alloc, &pair, user, seats, partner, gate);
    let BothEnded {
        user,
        went,
        seats,
        partner,
    } = ended;
    let (ends, table) = user.into_parts();
    let _left = pair.meet(ends.into_seats(), seats);
    let result = told(alloc, went, table, &partner, before);
    (result, partner)
}

/// Runs the jobs over a pair of rings of these sizes and the partner, which takes its turns on a
/// thread of its own; where none can be started, or the partner's rounds end early, both sides go on
/// in turn in the caller's thread. Sizes, `start`, outcomes and journal are those of `run_jobs`; how
/// many rounds a run has is not bounded. Each side passes the gate before each of its rounds. The
/// partner comes back beside the report.
pub fn run_shared<
    W: Threads + Wait + Sync,
    P: Partner + PendingCount + Send + Drop,
    G: Gate + Sync,
>(
    rt: &W,
    alloc: Global,
    sq: u32,
    cq: u32,
    start: u32,
    partner: P,
    jobs: Vec<Job>,
    gate: &G,
) -> (Result<Report, RunFault>, Option<P>)
    ensures refused { IfSome (refusal sq cq jobs.items) (λ fault. result ≡ (Err fault, Some partner)) }
    ensures back { IfNone result.1 (result.0 ≡ Err RunFault.NoMemory) }
    ensures run { IfSome result.1 (λ after. IsValidRun sq cq jobs.items → SharedSays P.machine P.view P.Plain P.log P.state partner after jobs.items result.0) }
    ensures cause { IfSome result.1 (λ after. HasCause is_partner_fault (P.faults partner) (P.faults after) result.0) }
    ensures unplanned { IfSome (P.state partner) (λ _. P.plan partner ≡ [] → IfErr result.0 (λ e. is_partner_fault e ≡ false)) }
    ensures plan { IfSome result.1 (λ after. P.plan partner ≡ [] → P.plan after ≡ []) }
    ensures calm { IfSome result.1 (λ after. IfSome (P.state partner) (λ _. P.plan partner ≡ [] → P.faults after ≡ P.faults partner)) }
{
    let Ok(parameters) = parameters_of(sq, cq) else {
        return (Err(RunFault::BadSize), Some(partner));
    };
    if let Some(job) = first_bad_job(&jobs) {
        return (Err(RunFault::BadJob(job)), Some(partner));
    }
    let (result, partner) = run_valid(rt, alloc, parameters, start, partner, jobs, gate);
    (result, Some(partner))
}
