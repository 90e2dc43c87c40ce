//! Rounds of both sides of a run in turn, in one thread.

ghost use Rattle.std.specs.Prelude.{◌≡◌, ◌+◌, ◌≤◌, List, Option, IfErr, MatchResult, OnOk, false, length};
ghost use Rattle.partner_traits.specs.declared.call.PartnerError.{PartnerError};
ghost use Rattle.partner_serving.specs.Rows.{RoundsServe};
ghost use Rattle.run_loop.specs.declared.entries.Offer.{Offer};
ghost use Rattle.run_loop.specs.Entries.{all_taken};
ghost use Rattle.run_loop.specs.Flights.{IsSettled};
ghost use Rattle.run_loop.specs.Rounds.{is_partner_fault, run_fault_of};
ghost use Rattle.run_loop.specs.SharedRounds.{AreEndedBy};
ghost use Rattle.run_loop.specs.Slots.{count_open};
ghost use Rattle.run_loop.specs.UserRounds.{UserRounds, EndsBy, RunGoes};

use crate::user_side::UserSide;
use partner_serving::laws::servings_join;
use partner_serving::{End, Gate, serve_round};
use partner_traits::{Partner, PartnerError, PendingCount};
use ring_traits::{PartnerSide, UserEnds};
use std::alloc::Global;
use std::sync::Wait;
use uring_model::RunFault;

/// The fault of a run, by a partner's error.
fn fault_of(error: PartnerError) -> RunFault
    ensures { result ≡ run_fault_of error }
{
    match error {
        PartnerError::Fault(_) => RunFault::PartnerFault,
        PartnerError::NoMemory => RunFault::NoMemory,
    }
}

/// Rounds of both sides in turn until each job has its outcome, the partner's first. `made` is how
/// many the partner's side made before.
pub fn rounds_in_turn<
    W: Wait,
    R: UserEnds + Drop,
    Q: PartnerSide,
    P: Partner + PendingCount,
    G: Gate,
>(
    rt: &W,
    alloc: Global,
    user: &mut UserSide<R>,
    side: &mut Q,
    partner: &mut P,
    made: u64,
    gate: &G,
) -> Result<(), RunFault>
    requires inside { user.old.table.started + length user.old.todo ≤ length user.old.table.slots.items }
    requires settled { IsSettled user.old.engine.ops user.old.table.started user.old.table.slots.items user.old.table.in_flight.items user.old.todo }
    ensures user { (first : R) (offers : List Offer) → UserRounds R.used first user.old.engine.ring offers (all_taken user.old.todo R.offers_large) user.old.table.started user.old.table.slots.items
        → RunGoes R.used first user.new.engine.ring offers (all_taken user.new.todo R.offers_large) user.new.table.started user.new.table.slots.items result }
    ensures whole { OnOk result (count_open user.new.table.slots.items ≡ 0) }
    ensures partner { (ended : Option PartnerError) × RoundsServe P.machine P.Plain P.log P.state P.plan P.faults P.errno Q.moved side.old partner.old side.new partner.new ended × AreEndedBy ended result }
{
    servings_join::<P>();
    let mut made = made;
    'rounds: for _ in rt.forever() {
        if user.is_whole() {
            return Ok(());
        }
        gate.pass(End::Partner, made);
        made = made.saturating_add(1);
        if let Err(error) = serve_round(alloc, side, partner) {
            return Err(fault_of(error));
        }
        user.round(alloc, gate)?;
    }
    unreachable!()
}

/// One more round of the user's, once the partner's are over, and the refusal in which these ended.
fn look_again<R: UserEnds + Drop, G: Gate>(
    alloc: Global,
    user: &mut UserSide<R>,
    ended: Option<PartnerError>,
    gate: &G,
) -> Result<(), RunFault>
    requires inside { user.old.table.started + length user.old.todo ≤ length user.old.table.slots.items }
    requires settled { IsSettled user.old.engine.ops user.old.table.started user.old.table.slots.items user.old.table.in_flight.items user.old.todo }
    ensures user { (first : R) (offers : List Offer) → UserRounds R.used first user.old.engine.ring offers (all_taken user.old.todo R.offers_large) user.old.table.started user.old.table.slots.items
        → RunGoes R.used first user.new.engine.ring offers (all_taken user.new.todo R.offers_large) user.new.table.started user.new.table.slots.items result }
    ensures inside { OnOk result (user.new.table.started + length user.new.todo ≤ length user.new.table.slots.items) }
    ensures settled { OnOk result (IsSettled user.new.engine.ops user.new.table.started user.new.table.slots.items user.new.table.in_flight.items user.new.todo) }
    ensures ended { AreEndedBy ended result }
{
    user.round(alloc, gate)?;
    match ended {
        Some(error) => Err(fault_of(error)),
        None => Ok(()),
    }
}

/// One more round of the user's, where its rounds went well beside the partner's, which are over;
/// and the fault in which one side's ended.
pub fn last_look<R: UserEnds + Drop, G: Gate>(
    alloc: Global,
    user: &mut UserSide<R>,
    went: Result<(), RunFault>,
    ended: Option<PartnerError>,
    gate: &G,
) -> Result<(), RunFault>
    requires inside { OnOk went (user.old.table.started + length user.old.todo ≤ length user.old.table.slots.items) }
    requires settled { OnOk went (IsSettled user.old.engine.ops user.old.table.started user.old.table.slots.items user.old.table.in_flight.items user.old.todo) }
    requires own { IfErr went (λ e. is_partner_fault e ≡ false) }
    ensures user { (first : R) (offers : List Offer) → MatchResult went (λ _. UserRounds R.used first user.old.engine.ring offers (all_taken user.old.todo R.offers_large) user.old.table.started user.old.table.slots.items) (λ e. EndsBy R.used first user.old.engine.ring offers e)
        → RunGoes R.used first user.new.engine.ring offers (all_taken user.new.todo R.offers_large) user.new.table.started user.new.table.slots.items result }
    ensures inside { OnOk result (user.new.table.started + length user.new.todo ≤ length user.new.table.slots.items) }
    ensures settled { OnOk result (IsSettled user.new.engine.ops user.new.table.started user.new.table.slots.items user.new.table.in_flight.items user.new.todo) }
    ensures ended { AreEndedBy ended result }
{
    match went {
        Ok(()) => look_again(alloc, user, ended, gate),
        Err(fault) => Err(fault),
    }
}
