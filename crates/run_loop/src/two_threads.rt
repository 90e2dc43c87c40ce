//! Both sides of a run, each on a thread of its own where one can be started.

ghost use Rattle.std.specs.Prelude.{◌≡◌, ◌+◌, ◌≤◌, List, IfErr, MatchResult, OnOk, false, length};
ghost use Rattle.uring_shared.specs.Seats.{IsPartnerOf, PartnerMoves};
ghost use Rattle.partner_serving.specs.Rows.{RoundsServe};
ghost use Rattle.run_loop.specs.declared.entries.Offer.{Offer};
ghost use Rattle.run_loop.specs.Entries.{all_taken};
ghost use Rattle.run_loop.specs.Flights.{IsSettled};
ghost use Rattle.run_loop.specs.Rounds.{is_partner_fault};
ghost use Rattle.run_loop.specs.UserRounds.{UserRounds, EndsBy};

use crate::user_side::UserSide;
use partner_serving::{Gate, Served, ServesFrom, StopFlags, serve_rounds};
use partner_traits::{Partner, PendingCount};
use ring_traits::UserEnds;
use std::alloc::Global;
use std::snapshot::Snapshot;
use std::sync::Wait;
use std::thread;
use std::thread::Threads;
use uring_model::RunFault;
use uring_shared::{PartnerSeats, SharedPair};

/// The user's side after its rounds beside the partner's, how these ended, and what the partner's
/// end gave back.
#[derive(Drop)]
pub struct Joined<R: UserEnds, P> {
    pub user: UserSide<R>,
    pub went: Result<(), RunFault>,
    pub served: Served<P>,
}

/// The user's rounds beside the partner's, which are asked to stop then.
fn user_beside<W: Wait, R: UserEnds + Drop, G: Gate>(
    rt: &W,
    alloc: Global,
    user: UserSide<R>,
    gate: &G,
    stops: &StopFlags,
) -> (UserSide<R>, Result<(), RunFault>)
    requires inside { user.table.started + length user.todo ≤ length user.table.slots.items }
    requires settled { IsSettled user.engine.ops user.table.started user.table.slots.items user.table.in_flight.items user.todo }
    ensures rounds { (first : R) (offers : List Offer) → UserRounds R.used first user.engine.ring offers (all_taken user.todo R.offers_large) user.table.started user.table.slots.items
        → MatchResult result.1 (λ _. UserRounds R.used first result.0.engine.ring offers (all_taken result.0.todo R.offers_large) result.0.table.started result.0.table.slots.items) (λ e. EndsBy R.used first result.0.engine.ring offers e) }
    ensures own { IfErr result.1 (λ e. is_partner_fault e ≡ false) }
    ensures inside { OnOk result.1 (result.0.table.started + length result.0.todo ≤ length result.0.table.slots.items) }
    ensures settled { OnOk result.1 (IsSettled result.0.engine.ops result.0.table.started result.0.table.slots.items result.0.table.in_flight.items result.0.todo) }
{
    let mut user = user;
    let went = user.rounds_beside(rt, alloc, gate, stops);
    stops.ask();
    (user, went)
}

/// The rounds of both sides, each side's on a thread of its own, until each job has its outcome or
/// one side's have ended. Where no thread can be started, no round of either is made.
pub fn on_two_threads<
    W: Threads + Wait + Sync,
    R: UserEnds + Drop,
    P: Partner + PendingCount + Send + Drop,
    G: Gate + Sync,
>(
    rt: &W,
    alloc: Global,
    pair: &SharedPair,
    user: UserSide<R>,
    seats: PartnerSeats,
    partner: P,
    gate: &G,
) -> Joined<R, P>
    requires own { IsPartnerOf pair.now seats }
    requires inside { user.table.started + length user.todo ≤ length user.table.slots.items }
    requires settled { IsSettled user.engine.ops user.table.started user.table.slots.items user.table.in_flight.items user.todo }
    ensures rounds { (first : R) (offers : List Offer) → UserRounds R.used first user.engine.ring offers (all_taken user.todo R.offers_large) user.table.started user.table.slots.items
        → MatchResult result.went (λ _. UserRounds R.used first result.user.engine.ring offers (all_taken result.user.todo R.offers_large) result.user.table.started result.user.table.slots.items) (λ e. EndsBy R.used first result.user.engine.ring offers e) }
    ensures own { IfErr result.went (λ e. is_partner_fault e ≡ false) }
    ensures inside { OnOk result.went (result.user.table.started + length result.user.todo ≤ length result.user.table.slots.items) }
    ensures settled { OnOk result.went (IsSettled result.user.engine.ops result.user.table.started result.user.table.slots.items result.user.table.in_flight.items result.user.todo) }
    ensures partner { RoundsServe P.machine P.Plain P.log P.state P.plan P.faults P.errno PartnerMoves seats partner result.served.seats result.served.partner result.served.ended }
{
    let stops = StopFlags::new();
    let stops = &stops;
    thread::scope(
        thread::scope_env(),
        rt,
        |scope| -> Joined<R, P>
            requires { IsPartnerOf pair.now seats × (user.table.started + length user.todo ≤ length user.table.slots.items) × IsSettled user.engine.ops user.table.started user.table.slots.items user.table.in_flight.items user.todo }
            ensures { ((first : R) (offers : List Offer) → UserRounds R.used first user.engine.ring offers (all_taken user.todo R.offers_large) user.table.started user.table.slots.items
                → MatchResult result.went (λ _. UserRounds R.used first result.user.engine.ring offers (all_taken result.user.todo R.offers_large) result.user.table.started result.user.table.slots.items) (λ e. EndsBy R.used first result.user.engine.ring offers e))
                × IfErr result.went (λ e. is_partner_fault e ≡ false)
                × OnOk result.went (result.user.table.started + length result.user.todo ≤ length result.user.table.slots.items)
                × OnOk result.went (IsSettled result.user.engine.ops result.user.table.started result.user.table.slots.items result.user.table.in_flight.items result.user.todo)
                × RoundsServe P.machine P.Plain P.log P.state P.plan P.faults P.errno PartnerMoves seats partner result.served.seats result.served.partner result.served.ended }
        {
            let promise = ServesFrom(Snapshot::of(&seats), Snapshot::of(&partner));
            let started = scope.spawn_with(
                promise,
                || -> Served<P>
                    requires { IsPartnerOf pair.now seats }
                    ensures { RoundsServe P.machine P.Plain P.log P.state P.plan P.faults P.errno PartnerMoves seats partner result.seats result.partner result.ended }
                { serve_rounds(rt, alloc, pair, seats, partner, gate, stops) },
            );
            match started {
                Ok(handle) => {
                    let (user, went) = user_beside(rt, alloc, user, gate, stops);
                    let served = handle.join(rt);
                    Joined { user, went, served }
                }
                Err(refused) => {
                    stops.ask();
                    let served = (refused.value)();
                    Joined {
                        user,
                        went: Ok(()),
                        served,
                    }
                }
            }
        },
    )
}
