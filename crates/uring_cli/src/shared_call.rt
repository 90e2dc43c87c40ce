//! The command whose partner has a thread of its own, from its words to its status.

ghost use Rattle.std.specs.Prelude.{◌≡◌, ◌≢◌, false, ◌+◌, ◌<◌, ◌≤◌, ◌↔◌, ◌⊎◌, [], None, Some, Ok, Err, IfOk, IfErr, IfNone, IfSome};
ghost use Rattle.uring_base.specs.Causes.{HasCause, Rose};
ghost use Rattle.uring_model.specs.declared.jobs.Report.{Report};
ghost use Rattle.uring_streams.specs.declared.read.TheConstants.{INPUT_LIMIT};
ghost use Rattle.uring_text.specs.Report.{text_of};
ghost use Rattle.uring_text.specs.Script.{told_by};
ghost use Rattle.uring_text.specs.declared.status.Status.TheVariants.{Done, NoMemory, PartnerFault, TooLong, Usage};
ghost use Rattle.uring_cli.specs.Words.{shared_options_of};
ghost use Rattle.uring_cli.specs.Input.{GaveScript};
ghost use Rattle.uring_cli.specs.Runs.{ends_in_partner_fault};
ghost use Rattle.uring_cli.specs.Ends.{Reads, Writes, IsGoodCall};
ghost use Rattle.uring_cli.specs.SharedEnds.{SharedExecuted, SharedFailed, SharedRuns};

use crate::execute::{seed_all, status_after};
use crate::input::read_input;
use crate::words::{Options, Word, shared_options_of};
use partner_serving::Gate;
use partner_traits::{PendingCount, Seedable};
use run_loop::run_shared;
use std::alloc::Global;
use std::sync::Wait;
use std::thread::Threads;
use uring_base::Buf;
use uring_streams::{Sink, Source, write_all};
use uring_text::{Script, Status, report_text};

/// Puts the script's files and choices in, runs its jobs with the partner on a thread of its own,
/// and gives the report as text.
fn execute_shared<
    R: Threads + Wait + Sync,
    P: Seedable + PendingCount + Send + Drop,
    G: Gate + Sync,
>(
    rt: &R,
    alloc: Global,
    options: Options,
    script: Script,
    partner: P,
    gate: &G,
) -> (Result<Buf, Status>, Option<P>)
    ensures back { IfNone result.1 (result.0 ≡ Err NoMemory) }
    ensures ok { IfSome result.1 (λ after. IfOk result.0 (λ text. (report : Report) × (text ≡ text_of report.outcomes.items report.journal.items)
        × SharedExecuted P.machine P.view P.Plain P.put P.log P.state P.plan (told_by script) options partner after (Ok report))) }
    ensures err { IfSome result.1 (λ after. IfErr result.0 (SharedFailed P.machine P.view P.Plain P.put P.log P.state P.plan (told_by script) options partner after)) }
    ensures cause { IfSome result.1 (λ after. HasCause ends_in_partner_fault (P.faults partner) (P.faults after) result.0) }
    ensures unplanned { IfSome (P.state partner) (λ _. P.plan partner ≡ [] → IfErr result.0 (λ e. ends_in_partner_fault e ≡ false)) }
    ensures plan { IfSome result.1 (λ after. P.plan partner ≡ [] → P.plan after ≡ []) }
    ensures calm { IfSome result.1 (λ after. IfSome (P.state partner) (λ _. P.plan partner ≡ [] → P.faults after ≡ P.faults partner)) }
{
    let mut given = partner;
    let Options {
        sq,
        cq,
        start,
        idle: _,
    } = options;
    let Script {
        files,
        choices,
        jobs,
    } = script;
    if let Err(error) = seed_all(alloc, &mut given, files, choices) {
        return (Err(status_after(error)), Some(given));
    }
    let (result, after) = run_shared(rt, alloc, sq, cq, start, given, jobs, gate);
    match result {
        Ok(report) => match report_text(alloc, &report) {
            Ok(text) => (Ok(text), after),
            Err(fault) => (Err(Status::from(fault)), after),
        },
        Err(fault) => (Err(Status::from(fault)), after),
    }
}

/// Reads a script from the input, runs it with the partner on a thread of its own, and writes its
/// report. The words are those after the program's name: `shared`, and then options, which are
/// those of `run` but `--idle`. Other words do nothing. Each side passes the gate before each of its
/// rounds. It may wait, since a run is never given up.
pub fn shared_main<
    R: Threads + Wait + Sync,
    I: Source,
    O: Sink,
    P: Seedable + PendingCount + Send + Drop,
    G: Gate + Sync,
>(
    rt: &R,
    alloc: Global,
    words: &[Word],
    input: &mut I,
    out: &mut O,
    partner: P,
    gate: &G,
) -> (Status, Option<P>)
    ensures usage { (result.0 ≡ Usage) ↔ (shared_options_of words.now ≡ None) }
    ensures unread { result.0 ≡ Usage → input.new ≡ input.old }
    ensures reads { Reads (I.left input.old) (I.left input.new) (I.taken input.old) (I.taken input.new) (I.faults input.old) (I.faults input.new) result.0 }
    ensures too_long { (result.0 ≡ TooLong) ↔ (I.taken input.old + INPUT_LIMIT < I.taken input.new) }
    ensures back { IfNone result.1 (result.0 ≡ NoMemory) }
    ensures runs { IfSome (shared_options_of words.now) (λ options. IfSome result.1 (λ after. SharedRuns P.machine P.view P.Plain P.put P.log P.state P.plan (GaveScript (I.left input.old) (I.left input.new) (I.taken input.old) (I.taken input.new)) (O.written out.old) (O.written out.new) options partner after result.0)) }
    ensures untouched { result.0 ≡ Usage → result.1 ≡ Some partner }
    ensures writes { Writes out.old out.new (O.faults out.old) (O.faults out.new) result.0 }
    ensures cause { IfSome result.1 (λ after. (P.faults partner ≤ P.faults after) × (result.0 ≡ PartnerFault → Rose (P.faults partner) (P.faults after))) }
    ensures unplanned { IfSome (P.state partner) (λ _. P.plan partner ≡ [] → result.0 ≢ PartnerFault) }
    ensures plan { IfSome result.1 (λ after. P.plan partner ≡ [] → P.plan after ≡ []) }
    ensures calm { IfSome result.1 (λ after. IfSome (P.state partner) (λ _. P.plan partner ≡ [] → P.faults after ≡ P.faults partner)) }
    ensures complete { IfSome (shared_options_of words.now) (λ options. IfSome (I.left input.old) (λ text. IfSome (P.state partner) (λ before. IsGoodCall P.Plain options text before (P.plan partner) (I.faults input.old) (I.faults input.new) (O.faults out.old) (O.faults out.new) → (result.0 ≡ Done) ⊎ (result.0 ≡ NoMemory)))) }
{
    let Some(options) = shared_options_of(words) else {
        return (Status::Usage, Some(partner));
    };
    let script = match read_input(alloc, input) {
        Ok(script) => script,
        Err(status) => return (status, Some(partner)),
    };
    let (text, after) = execute_shared(rt, alloc, options, script, partner, gate);
    let text = match text {
        Ok(text) => text,
        Err(status) => return (status, after),
    };
    match write_all(out, text.as_slice()) {
        Ok(()) => (Status::Done, after),
        Err(_) => (Status::WriteFault, after),
    }
}
