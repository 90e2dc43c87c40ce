//! Running a script over a partner.

ghost use Rattle.std.specs.Prelude.{◌≡◌, ◌<◌, [], false, IfOk, IfErr, IfSome, OnOk, OnErr, Ok};
ghost use Rattle.uring_base.specs.Causes.{HasCause};
ghost use Rattle.uring_model.specs.declared.jobs.Report.{Report};
ghost use Rattle.partner_traits.specs.Calls.{is_fault};
ghost use Rattle.run_loop.specs.Rounds.{run_fault_of};
ghost use Rattle.uring_text.specs.Report.{text_of};
ghost use Rattle.uring_text.specs.Script.{told_by};
ghost use Rattle.uring_text.specs.Status.{status_of};
ghost use Rattle.uring_cli.specs.Seeds.{IsSeeded, IsPartSeeded};
ghost use Rattle.uring_cli.specs.Runs.{Executed, FailedRun, ends_in_partner_fault};

use crate::words::Options;
use partner_traits::{PartnerError, Seedable};
use run_loop::run_jobs;
use std::alloc::Global;
use uring_base::Buf;
use uring_text::{Script, Seed, Status, report_text};

/// Puts the files in, in their order. After a refusal those before it are in.
fn seed_files<P: Seedable>(
    alloc: Global,
    partner: &mut P,
    files: Vec<Seed>,
) -> Result<(), PartnerError>
    ensures ok { OnOk result (IsSeeded P.put P.log P.state P.plan files.items [] partner.old partner.new) }
    ensures err { OnErr result (IsPartSeeded P.put P.log P.state P.plan files.items [] partner.old partner.new) }
    ensures plan { P.plan partner.new ≡ P.plan partner.old }
    ensures cause { HasCause is_fault (P.faults partner.old) (P.faults partner.new) result }
    ensures calm { IfSome (P.state partner.old) (λ _. IfErr result (λ e. is_fault e ≡ false) × (P.faults partner.new ≡ P.faults partner.old)) }
{
    for seed in files {
        partner.put_file(alloc, seed.number, seed.bytes)?;
    }
    Ok(())
}

/// Puts the choices in, in their order. After a refusal those before it are in.
fn seed_choices<P: Seedable>(
    alloc: Global,
    partner: &mut P,
    choices: Vec<u32>,
) -> Result<(), PartnerError>
    ensures ok { OnOk result (IsSeeded P.put P.log P.state P.plan [] choices.items partner.old partner.new) }
    ensures err { OnErr result (IsPartSeeded P.put P.log P.state P.plan [] choices.items partner.old partner.new) }
    ensures plan { P.plan partner.new ≡ P.plan partner.old }
    ensures cause { HasCause is_fault (P.faults partner.old) (P.faults partner.new) result }
    ensures calm { IfSome (P.state partner.old) (λ _. IfErr result (λ e. is_fault e ≡ false) × (P.faults partner.new ≡ P.faults partner.old)) }
{
    for choice in choices {
        partner.add_choice(alloc, choice)?;
    }
    Ok(())
}

/// Puts a script's files in, and then its choices.
pub fn seed_all<P: Seedable>(
    alloc: Global,
    partner: &mut P,
    files: Vec<Seed>,
    choices: Vec<u32>,
) -> Result<(), PartnerError>
    ensures ok { OnOk result (IsSeeded P.put P.log P.state P.plan files.items choices.items partner.old partner.new) }
    ensures err { OnErr result (IsPartSeeded P.put P.log P.state P.plan files.items choices.items partner.old partner.new) }
    ensures plan { P.plan partner.new ≡ P.plan partner.old }
    ensures cause { HasCause is_fault (P.faults partner.old) (P.faults partner.new) result }
    ensures calm { IfSome (P.state partner.old) (λ _. IfErr result (λ e. is_fault e ≡ false) × (P.faults partner.new ≡ P.faults partner.old)) }
{
    seed_files(alloc, partner, files)?;
    seed_choices(alloc, partner, choices)
}

/// The status of a partner that failed.
pub(crate) fn status_after(error: PartnerError) -> Status
    ensures { result ≡ status_of (run_fault_of error) }
{
    match error {
        PartnerError::Fault(_) => Status::PartnerFault,
        PartnerError::NoMemory => Status::NoMemory,
    }
}

/// Puts the script's files and choices in, runs its jobs, and gives the report as text.
pub fn execute<P: Seedable>(
    alloc: Global,
    options: Options,
    script: Script,
    partner: &mut P,
) -> Result<Buf, Status>
    requires { 0 < options.idle }
    ensures ok { IfOk result (λ text. (report : Report) × (text ≡ text_of report.outcomes.items report.journal.items)
        × Executed P.machine P.view P.Plain P.put P.log P.state P.plan (told_by script) options partner.old partner.new (Ok report)) }
    ensures err { IfErr result (λ status. FailedRun P.machine P.view P.Plain P.put P.log P.state P.plan (told_by script) options partner.old partner.new status) }
    ensures cause { HasCause ends_in_partner_fault (P.faults partner.old) (P.faults partner.new) result }
    ensures unplanned { IfSome (P.state partner.old) (λ _. P.plan partner.old ≡ [] → IfErr result (λ e. ends_in_partner_fault e ≡ false)) }
    ensures plan { P.plan partner.old ≡ [] → P.plan partner.new ≡ [] }
    ensures calm { IfSome (P.state partner.old) (λ _. P.plan partner.old ≡ [] → P.faults partner.new ≡ P.faults partner.old) }
{
    let Options {
        sq,
        cq,
        start,
        idle,
    } = options;
    let Script {
        files,
        choices,
        jobs,
    } = script;
    if let Err(error) = seed_all(alloc, partner, files, choices) {
        return Err(status_after(error));
    }
    let report = run_jobs(alloc, sq, cq, start, idle, partner, jobs)?;
    Ok(report_text(alloc, &report)?)
}
