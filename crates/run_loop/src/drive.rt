//! A run, round by round.

ghost use Rattle.std.specs.Prelude.{◌≡◌, ◌+◌, ◌<◌, ◌≤◌, ◌^◌, ℕ, cond, false, List, [], None, Some, MatchResult, IfErr, IfSome, IsTrue, OnOk, Contains, length};
ghost use Rattle.uring_base.specs.Causes.{HasCause};
ghost use Rattle.uring_model.specs.Moves.{posted, log_of};
ghost use Rattle.uring_model.specs.Schedule.{State};
ghost use Rattle.uring_model.specs.Refines.{IsPlainAndIdle};
ghost use Rattle.uring_model.specs.Progress.{turns};
ghost use Rattle.uring_model.specs.Strange.{nothing_seen, first_strange};
ghost use Rattle.ring_traits.specs.Lists.{Lists};
ghost use Rattle.run_loop.specs.Entries.{offers_from, lends_in, quiets_in, AllValid, AllInRange};
ghost use Rattle.uring_model.specs.declared.jobs.Job.{Job};
ghost use Rattle.run_loop.specs.Rounds.{IsCalm, PlacesGoOn, is_partner_fault, is_stall};
ghost use Rattle.run_loop.specs.Driven.{Driven, IsGivenUp};
ghost use Rattle.run_loop.specs.Slots.{count_open, slots_from};
ghost use Rattle.run_loop.specs.Flights.{IsSettled};
ghost use Rattle.run_loop.specs.Turns.{RanInTurns};

use crate::job_table::JobTable;
use crate::laws::model_laws;
use crate::offers::OfferQueue;
use crate::round::round;
use partner_traits::Partner;
use rent_engine::Engine;
use ring_traits::{PartnerSide, UserEnds};
use std::alloc::Global;
use uring_model::RunFault;

/// How many turns in a row had neither a take nor a final post.
fn idle_after(went: bool, idled: u32) -> u32
    requires { idled + 1 < 2 ^ 32 }
    ensures { result ≡ cond went 0 (idled + 1) }
{
    if went { 0 } else { idled + 1 }
}

/// Goes on in rounds until each job has its outcome, or `idle` turns in a row had neither a take
/// nor a final post.
pub fn drive<R: UserEnds + PartnerSide, P: Partner>(
    alloc: Global,
    idle: u32,
    engine: &mut Engine<R>,
    partner: &mut P,
    todo: &mut OfferQueue,
    table: &mut JobTable,
) -> Result<(), RunFault>
    requires idle { 0 < idle }
    requires jobs { (jobs : List Job) × (todo.old ≡ offers_from 0 jobs) × AllValid jobs × AllInRange jobs }
    requires empty { (l : Lists) × (R.lists engine.old.ring ≡ Some l) × IsCalm l (R.room engine.old.ring) × (l.published ≡ []) }
    requires holds { (0 < R.entries_fit engine.old.ring) × (0 < R.completions_fit engine.old.ring) }
    requires slots { (table.old.slots.items ≡ slots_from 0 todo.old []) × (table.old.started ≡ 0) }
    requires settled { IsSettled engine.old.ops table.old.started table.old.slots.items table.old.in_flight.items todo.old }
    ensures run { (r : Driven P.machine P.log P.state partner.old partner.new todo.old (R.entries_fit engine.old.ring) idle)
        × MatchResult result
        (λ _. (count_open table.new.slots.items ≡ 0) × (table.new.slots.items ≡ slots_from 0 todo.old (posted r.ran.moves)) × (first_strange (lends_in todo.old) (quiets_in todo.old) nothing_seen (log_of r.ran.moves) ≡ None)
        × ((a : State P.World) → P.state partner.old ≡ Some a → IsPlainAndIdle P.Plain a → turns r.ran.moves ≤ length todo.old)
        × PlacesGoOn R.offer_place R.reap_place engine.old.ring engine.new.ring (length todo.old) (length (posted r.ran.moves)))
        (λ e. IsGivenUp todo.old idle (log_of r.ran.moves) e) }
    ensures cause { HasCause is_partner_fault (P.faults partner.old) (P.faults partner.new) result }
    ensures unplanned { IfSome (P.state partner.old) (λ _. P.plan partner.old ≡ [] → IfErr result (λ e. is_partner_fault e ≡ false)) }
    ensures plan { P.plan partner.old ≡ [] → P.plan partner.new ≡ [] }
    ensures calm { IfSome (P.state partner.old) (λ _. P.plan partner.old ≡ [] → P.faults partner.new ≡ P.faults partner.old) }
    ensures turns { OnOk result (IfSome (P.state partner.old) (λ a. RanInTurns P.machine P.Plain P.log (R.entries_fit engine.old.ring) (R.completions_fit engine.old.ring) a partner.old partner.new)) }
    ensures unstalled { IfSome (P.state partner.old) (λ a. IsPlainAndIdle P.Plain a → IfErr result (λ e. is_stall e ≡ false)) }
{
    model_laws::<P>();
    let mut idled = 0;
    'rounds: while !table.is_whole() {
        let went = round(alloc, engine, partner, todo, table)?;
        idled = idle_after(went, idled);
        if idled == idle {
            return Err(RunFault::Stalled);
        }
    }
    Ok(())
}
