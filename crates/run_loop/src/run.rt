//! Jobs, run from one end to the other.

ghost use Rattle.std.specs.Prelude.{◌≡◌, ◌<◌, ◌≤◌, ◌↔◌, ◌∷◌, [], List, IfOk, IfErr, IfSome, IsSome, IsTrue, OnOk, Option, Some, None, true, false, is_none, map, drop, length};
ghost use Rattle.uring_base.specs.Causes.{HasCause};
ghost use Rattle.uring_base.specs.Sizes.{rounded_up, is_valid_size};
ghost use Rattle.uring_base.specs.declared.limits.TheConstants.{MAX_ENTRIES};
ghost use Rattle.ring_core.specs.Positions.{is_ring_size};
ghost use Rattle.ring_setup.specs.Setup.{told_entries, told_completions};
ghost use Rattle.uring_model.specs.Moves.{event_of};
ghost use Rattle.ring_traits.specs.Lists.{Lists};
ghost use Rattle.run_loop.specs.Entries.{AllValid, AllInRange};
ghost use Rattle.run_loop.specs.Rounds.{IsCalm, is_partner_fault, is_refusal};
ghost use Rattle.run_loop.specs.Slots.{count_open};
ghost use Rattle.run_loop.specs.declared.slot.Slot.{Slot};
ghost use Rattle.run_loop.specs.Runs.{RunSays, PlacesRanOn, IsValidRun, report_in, refusal};
ghost use Rattle.run_loop.specs.Turns.{RanInTurns};

use crate::drive::drive;
use crate::entries::first_bad_job;
use crate::job_table::JobTable;
use crate::laws::model_laws;
use crate::offers::OfferQueue;
use crate::slot::Slot;
use partner_traits::Partner;
use rent_engine::Engine;
use ring_core::SetupError;
use ring_setup::{Parameters, Settings};
use ring_traits::{PartnerSide, UserEnds};
use std::alloc::{AllocError, Global};
use uring_base::Event;
use uring_model::{Job, Report, RunFault};
use uring_shared::SharedRings;

/// The events that a partner's log has from `start` on.
fn journal_since<P: Partner>(
    alloc: Global,
    partner: &P,
    start: usize,
) -> Result<Vec<Event>, AllocError>
    ensures { IfOk result (λ journal. IfSome (P.log partner.now) (λ log. journal.items ≡ map event_of (drop start log))) }
{
    let end = partner.log_len();
    let mut journal = Vec::with_capacity(alloc, end.saturating_sub(start))?;
    for place in start..end {
        journal.push(partner.log_event(place))?;
    }
    Ok(journal)
}

/// The outcomes of a table in which each job has one, and the events that the log has from
/// `start` on.
pub fn report_of<P: Partner>(
    alloc: Global,
    table: JobTable,
    partner: &P,
    start: usize,
) -> Result<Report, RunFault>
    requires { count_open table.slots.items ≡ 0 }
    ensures outcomes { IfOk result (λ report. map (λ o. Slot.Done o) report.outcomes.items ≡ table.slots.items) }
    ensures journal { IfOk result (λ report. IfSome (P.log partner.now) (λ log. report.journal.items ≡ map event_of (drop start log))) }
    ensures err { IfErr result (λ e. e ≡ RunFault.NoMemory) }
{
    let Ok(outcomes) = table.into_outcomes(alloc) else {
        return Err(RunFault::NoMemory);
    };
    let Ok(journal) = journal_since(alloc, partner, start) else {
        return Err(RunFault::NoMemory);
    };
    Ok(Report { outcomes, journal })
}

/// Runs valid jobs over a ring in which nothing stands, as `run_jobs` does, and gives the ring
/// back. `params` are those of a builder for the ring's two capacities. `first_bad_job` tells
/// whether the jobs are valid. At a fault the ring is dropped.
pub fn run_on<R: UserEnds + PartnerSide + Drop, P: Partner>(
    alloc: Global,
    ring: R,
    params: Parameters,
    idle: u32,
    partner: &mut P,
    jobs: Vec<Job>,
) -> Result<(Report, R), RunFault>
    requires idle { 0 < idle }
    requires empty { (l : Lists) × (R.lists ring ≡ Some l) × IsCalm l (R.room ring) × (l.published ≡ []) }
    requires holds { (0 < R.entries_fit ring) × (0 < R.completions_fit ring) }
    requires valid { AllValid jobs.items }
    requires in_range { AllInRange jobs.items }
    ensures says { RunSays P.machine P.view P.Plain P.log P.state partner.old partner.new jobs.items (R.entries_fit ring) idle (report_in result) }
    ensures turns { OnOk result (IfSome (P.state partner.old) (λ a. RanInTurns P.machine P.Plain P.log (R.entries_fit ring) (R.completions_fit ring) a partner.old partner.new)) }
    ensures places { IfOk result (λ ran. PlacesRanOn R.offer_place R.reap_place P.log partner.old ring ran.1 (length jobs.items) ran.0.journal.items) }
    ensures cause { HasCause is_partner_fault (P.faults partner.old) (P.faults partner.new) result }
    ensures unplanned { IfSome (P.state partner.old) (λ _. P.plan partner.old ≡ [] → IfErr result (λ e. is_partner_fault e ≡ false)) }
    ensures plan { P.plan partner.old ≡ [] → P.plan partner.new ≡ [] }
    ensures calm { IfSome (P.state partner.old) (λ _. P.plan partner.old ≡ [] → P.faults partner.new ≡ P.faults partner.old) }
    ensures run_fault { IfErr result (λ e. is_refusal e ≡ false) }
{
    model_laws::<P>();
    let start = partner.log_len();
    let Ok(mut table) = JobTable::new(alloc, &jobs) else {
        return Err(RunFault::NoMemory);
    };
    let mut todo = OfferQueue::new(jobs);
    let mut engine = Engine::new(alloc, ring, params);
    drive(alloc, idle, &mut engine, partner, &mut todo, &mut table)?;
    let report = report_of(alloc, table, partner, start)?;
    Ok((report, engine.into_ring()))
}

/// The parameters of rings of these sizes, as a builder gives them without other options.
pub fn parameters_of(sq: u32, cq: u32) -> Result<Parameters, SetupError>
    ensures ok { IfOk result (λ parameters. (is_valid_size sq cq ≡ true) × (told_entries parameters ≡ rounded_up sq) × (told_completions parameters ≡ rounded_up cq)) }
    ensures sizes { IfOk result (λ parameters. (is_ring_size (told_entries parameters) ≡ true) × (is_ring_size (told_completions parameters) ≡ true) × (told_entries parameters ≤ MAX_ENTRIES)) }
    ensures err { IfErr result (λ _. is_valid_size sq cq ≡ false) }
{
    let settings = Settings {
        cq_entries: Some(cq),
        ..Settings::new(0)
    };
    settings.parameters(sq)
}

/// Runs the jobs over a ring of these sizes and the partner, and tells each outcome and the
/// journal of what the partner took and posted. It offers entries until the submission ring is
/// full or none is left, and then takes a turn, until all have settled; an empty list takes no
/// turn. `sq` is 1 to 32768 and `cq` 1 to 65536; both are rounded up to powers of two, and then
/// `cq` is at least `sq`. Positions begin at `start`. It gives up as `Stalled` where `idle` turns
/// in a row had neither a take nor a final post.
pub fn run_jobs<P: Partner>(
    alloc: Global,
    sq: u32,
    cq: u32,
    start: u32,
    idle: u32,
    partner: &mut P,
    jobs: Vec<Job>,
) -> Result<Report, RunFault>
    requires { 0 < idle }
    ensures refused { IfSome (refusal sq cq jobs.items) (λ fault. (result ≡ Err fault) × (partner.new ≡ partner.old)) }
    ensures turns { OnOk result (IfSome (P.state partner.old) (λ a. RanInTurns P.machine P.Plain P.log (rounded_up sq) (rounded_up cq) a partner.old partner.new)) }
    ensures run { IsValidRun sq cq jobs.items → RunSays P.machine P.view P.Plain P.log P.state partner.old partner.new jobs.items (rounded_up sq) idle result }
    ensures cause { HasCause is_partner_fault (P.faults partner.old) (P.faults partner.new) result }
    ensures unplanned { IfSome (P.state partner.old) (λ _. P.plan partner.old ≡ [] → IfErr result (λ e. is_partner_fault e ≡ false)) }
    ensures plan { P.plan partner.old ≡ [] → P.plan partner.new ≡ [] }
    ensures calm { IfSome (P.state partner.old) (λ _. P.plan partner.old ≡ [] → P.faults partner.new ≡ P.faults partner.old) }
{
    let Ok(parameters) = parameters_of(sq, cq) else {
        return Err(RunFault::BadSize);
    };
    if let Some(job) = first_bad_job(&jobs) {
        return Err(RunFault::BadJob(job));
    }
    model_laws::<P>();
    let (entries, completions) = (parameters.sq_entries(), parameters.cq_entries());
    let Ok(ring) = SharedRings::new(alloc, entries, completions, start) else {
        return Err(RunFault::NoMemory);
    };
    let (report, _ring) = run_on(alloc, ring, parameters, idle, partner, jobs)?;
    Ok(report)
}
