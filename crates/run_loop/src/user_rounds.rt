//! The rounds of a run from the user's side alone, over a ring that may tell no lists.

ghost use Rattle.std.specs.Prelude.{◌≡◌, ◌+◌, ◌⊎◌, ◌≤◌, true, IfErr, OnOk, length, vec_len};
ghost use Rattle.run_loop.specs.Entries.{all_taken};
ghost use Rattle.run_loop.specs.Flights.{IsSettled};
ghost use Rattle.run_loop.specs.Rounds.{is_stranger_fault};
ghost use Rattle.run_loop.specs.UserRounds.{UserRound, UserSent};

use crate::job_table::JobTable;
use crate::offers::OfferQueue;
use crate::round::{as_run_fault, start_some};
use rent_engine::Engine;
use ring_traits::UserEnds;
use std::alloc::Global;
use uring_model::RunFault;

/// Starts jobs until the ring is full or none is left, shows them to the partner and reaps what it
/// has posted, and polls each job in flight. Answers whether a completion was final. The partner
/// isn't called.
pub fn user_round<R: UserEnds>(
    alloc: Global,
    engine: &mut Engine<R>,
    todo: &mut OfferQueue,
    table: &mut JobTable,
) -> Result<bool, RunFault>
    requires inside { table.old.started + length todo.old ≤ vec_len table.old.slots }
    requires settled { IsSettled engine.old.ops table.old.started table.old.slots.items table.old.in_flight.items todo.old }
    ensures round { OnOk result (UserRound R.used R.room R.waiting engine.old.ring engine.new.ring (all_taken todo.old R.offers_large) (all_taken todo.new R.offers_large) table.old.started table.new.started table.old.slots.items table.new.slots.items result) }
    ensures inside { OnOk result (table.new.started + length todo.new ≡ table.old.started + length todo.old) }
    ensures settled { OnOk result (IsSettled engine.new.ops table.new.started table.new.slots.items table.new.in_flight.items todo.new) }
    ensures err { IfErr result (λ e. ((e ≡ RunFault.NoMemory) × UserSent R.used engine.old.ring engine.new.ring (all_taken todo.old R.offers_large))
        ⊎ ((is_stranger_fault e ≡ true)
        × UserRound R.used R.room R.waiting engine.old.ring engine.new.ring (all_taken todo.old R.offers_large) (all_taken todo.new R.offers_large) table.old.started table.new.started table.old.slots.items table.new.slots.items result)) }
{
    start_some(alloc, engine, todo, table)?;
    let report = match engine.pump(alloc) {
        Ok(report) => report,
        Err(fault) => return Err(as_run_fault(fault)),
    };
    if table.poll_all(alloc, engine).is_err() {
        return Err(RunFault::NoMemory);
    }
    Ok(report.finals > 0)
}
