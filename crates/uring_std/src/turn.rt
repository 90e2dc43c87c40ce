//! A turn: each entry is taken where its completion has room, performed, and posted.

ghost use Rattle.std.specs.Prelude.{◌≡◌, ◌+◌, ◌<◌, ◌≤◌, ◌∷◌, [], List, IfOk, OnErr, OnOk, Some, is_ok, length, vec_capacity, vec_len};
ghost use Rattle.uring_model.specs.Moves.{Move, took};
ghost use Rattle.uring_model.specs.Partner.{job_of};
ghost use Rattle.uring_model.specs.Progress.{turns};
ghost use Rattle.uring_model.specs.Jobs.{ends_quietly};
ghost use Rattle.partner_traits.specs.Calls.{IsCall};
ghost use Rattle.uring_std.specs.Turns.{EndsBy, LogsBy, ends_as};

use crate::chain::tail_after;
use crate::folder::Folder;
use crate::ledger::{Ledger, push_known};
use crate::settle::settle;
use ring_traits::PartnerSide;
use std::alloc::{AllocError, Global};
use std::rt::Files;
use uring_base::{Completion, Loan, LogEvent, Taken};
use uring_model::is_quiet;

/// Whether nothing is posted for an entry with this result.
fn ends_quietly(taken: &Taken, outcome: i32) -> bool
    ensures { result ≡ ends_quietly (job_of taken.now) outcome }
{
    is_quiet(taken) && 0 <= outcome
}

/// Posts where there is room.
fn post_known<Q: PartnerSide>(side: &mut Q, completion: Completion)
    requires { 0 < Q.space side.old }
    ensures moved { Q.moved side.old [] (completion ∷ []) side.new }
    ensures ready { Q.ready side.new ≡ Q.ready side.old }
{
    if let Err(_back) = side.post(completion) {
        unreachable!();
    }
}

/// Ends an entry with its result: adds that to the log, and posts a completion, unless the entry is
/// quiet and succeeds. `copy` is what the log keeps of its loan.
fn end_with<Q: PartnerSide>(
    log: &mut Vec<LogEvent>,
    side: &mut Q,
    taken: Taken,
    outcome: i32,
    copy: Option<Loan>,
)
    requires copied { copy ≡ taken.loan }
    requires memory { vec_len log.old < vec_capacity log.old }
    requires room { 0 < Q.space side.old }
    ensures moves { LogsBy Q.moved log.old.items log.new.items side.old side.new (ends_as taken outcome ∷ []) }
    ensures ready { Q.ready side.new ≡ Q.ready side.old }
{
    let job = taken.entry.user_data;
    if ends_quietly(&taken, outcome) {
        push_known(log, LogEvent::Quiet(job));
        return;
    }
    push_known(
        log,
        LogEvent::Post {
            job,
            result: outcome,
            fin: true,
            loan: copy,
        },
    );
    post_known(
        side,
        Completion {
            user_data: job,
            result: outcome,
            flags: 0,
            big: [0, 0],
            large: taken.large,
            loan: taken.loan,
        },
    );
}

/// Performs an entry that was taken, and ends it. Where there is no memory it has neither been
/// performed nor ended, and waits.
fn end_entry<R: Files + Drop, Q: PartnerSide>(
    ledger: &mut Ledger,
    folder: &mut Folder<R>,
    alloc: Global,
    side: &mut Q,
    mut taken: Taken,
) -> Result<(), AllocError>
    requires { 0 < Q.space side.old }
    ensures ok { OnOk result ((m : Move) × LogsBy Q.moved ledger.old.log.items ledger.new.log.items side.old side.new (m ∷ []) × EndsBy ledger.old.tail taken m ledger.new.tail) }
    ensures err { OnErr result (LogsBy Q.moved ledger.old.log.items ledger.new.log.items side.old side.new [] × (ledger.new.waiting ≡ Some taken) × (ledger.new.tail ≡ ledger.old.tail)) }
    ensures ready { Q.ready side.new ≡ Q.ready side.old }
    ensures faults { (ledger.new.faults ≡ ledger.old.faults) × (ledger.new.errno ≡ ledger.old.errno) }
{
    let cut = ledger.is_cut();
    if ledger.log.try_reserve(1).is_err() {
        ledger.waiting = Some(taken);
        return Err(AllocError);
    }
    match settle(folder, alloc, &mut taken, cut) {
        Err(error) => {
            ledger.waiting = Some(taken);
            Err(error)
        }
        Ok(settled) => {
            ledger.tail = tail_after(&taken, cut, settled.result);
            end_with(&mut ledger.log, side, taken, settled.result, settled.copy);
            Ok(())
        }
    }
}

/// Ends the entry that waits for memory, if one does and there is room.
fn end_waiting<R: Files + Drop, Q: PartnerSide>(
    ledger: &mut Ledger,
    folder: &mut Folder<R>,
    alloc: Global,
    side: &mut Q,
) -> Result<(), AllocError>
    ensures moves { (ms : List Move) × LogsBy Q.moved ledger.old.log.items ledger.new.log.items side.old side.new ms × (took ms ≡ []) × (turns ms ≡ 0) }
    ensures ready { Q.ready side.new ≡ Q.ready side.old }
    ensures faults { (ledger.new.faults ≡ ledger.old.faults) × (ledger.new.errno ≡ ledger.old.errno) }
{
    if side.room() == 0 {
        return Ok(());
    }
    match ledger.waiting.take() {
        None => Ok(()),
        Some(taken) => {
            end_entry(ledger, folder, alloc, side, taken)?;
            Ok(())
        }
    }
}

/// Takes the entry in front, performs it, and ends it.
fn serve_one<R: Files + Drop, Q: PartnerSide>(
    ledger: &mut Ledger,
    folder: &mut Folder<R>,
    alloc: Global,
    side: &mut Q,
) -> Result<(), AllocError>
    requires ready { 0 < Q.ready side.old }
    requires room { 0 < Q.space side.old }
    ensures moves { (ms : List Move) × LogsBy Q.moved ledger.old.log.items ledger.new.log.items side.old side.new ms × (length (took ms) ≤ 1) × (turns ms ≡ 0) × OnOk result (length (took ms) ≡ 1) }
    ensures ready { OnOk result (Q.ready side.old ≤ Q.ready side.new + 1) }
    ensures faults { (ledger.new.faults ≡ ledger.old.faults) × (ledger.new.errno ≡ ledger.old.errno) }
{
    let taken = ledger.take_one(side)?;
    end_entry(ledger, folder, alloc, side, taken)?;
    Ok(())
}

/// Serves up to `count` entries, each where there is room. Answers how many were taken.
fn serve_all<R: Files + Drop, Q: PartnerSide>(
    ledger: &mut Ledger,
    folder: &mut Folder<R>,
    alloc: Global,
    side: &mut Q,
    count: u32,
) -> Result<u32, AllocError>
    requires { count ≤ Q.ready side.old }
    ensures moves { (ms : List Move) × LogsBy Q.moved ledger.old.log.items ledger.new.log.items side.old side.new ms × (length (took ms) ≤ count) × (turns ms ≡ 0) × IfOk result (λ n. n ≡ length (took ms)) }
    ensures faults { (ledger.new.faults ≡ ledger.old.faults) × (ledger.new.errno ≡ ledger.old.errno) }
{
    for i in 0..count {
        if ledger.waiting.is_some() {
            return Ok(i);
        }
        if side.room() == 0 {
            return Ok(i);
        }
        serve_one(ledger, folder, alloc, side)?;
    }
    Ok(count)
}

/// One turn over the side.
pub fn run_turn<R: Files + Drop, Q: PartnerSide>(
    ledger: &mut Ledger,
    folder: &mut Folder<R>,
    alloc: Global,
    side: &mut Q,
    to_submit: u32,
) -> Result<u32, AllocError>
    ensures moves { (ms : List Move) × LogsBy Q.moved ledger.old.log.items ledger.new.log.items side.old side.new ms × IsCall (is_ok result) to_submit (Q.lists side.old) ms × IfOk result (λ n. n ≡ length (took ms)) }
    ensures faults { (ledger.new.faults ≡ ledger.old.faults) × (ledger.new.errno ≡ ledger.old.errno) }
{
    let turn = ledger.begin_turn(side, to_submit)?;
    end_waiting(ledger, folder, alloc, side)?;
    let taken = serve_all(ledger, folder, alloc, side, turn)?;
    Ok(taken)
}
