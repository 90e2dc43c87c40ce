//! The jobs of a number, run over a new partner.

ghost use Rattle.std.specs.Prelude.{◌≡◌, ◌↔◌, ◌⊎◌, [], None, Some, IfOk, IfErr, IfSome, OnOk};
ghost use Rattle.uring_base.specs.Causes.{Rose};
ghost use Rattle.uring_model.specs.Partner.{idle};
ghost use Rattle.file_tree.specs.Worlds.{empty_world};
ghost use Rattle.uring_partner.specs.Told.{told_state, told_log, told_plan};
ghost use Rattle.uring_text.specs.declared.status.Status.TheVariants.{NoMemory, Usage, WriteFault};
ghost use Rattle.uring_cli.specs.Generated.{count_of, seeded_world, IsNew, RanGenerated, GeneratedAs};

use crate::gen_words::count_of;
use crate::summary::{all_bytes, summary_text};
use job_generator::{generate, jobs_are_valid, runs_go_in_groups};
use partner_traits::{PartnerError, Seedable};
use run_loop::run_jobs;
use std::alloc::Global;
use uring_base::Buf;
use uring_partner::MemoryPartner;
use uring_streams::{Sink, write_all};
use uring_text::Status;

/// Puts files 0 to 3 in, without bytes.
fn put_empty_files(alloc: Global, partner: &mut MemoryPartner) -> Result<(), PartnerError>
    requires { told_state partner.old ≡ Some (idle empty_world []) }
    ensures ok { OnOk result (told_state partner.new ≡ Some (idle seeded_world [])) }
    ensures log { told_log partner.new ≡ told_log partner.old }
    ensures plan { told_plan partner.new ≡ told_plan partner.old }
    ensures memory { IfErr result (λ e. e ≡ PartnerError.NoMemory) }
{
    partner.put_file(alloc, 0, Buf::new(alloc))?;
    partner.put_file(alloc, 1, Buf::new(alloc))?;
    partner.put_file(alloc, 2, Buf::new(alloc))?;
    partner.put_file(alloc, 3, Buf::new(alloc))
}

/// Runs this many jobs of the generator over a new partner, and tells of the run: how many there
/// were, how many of their results were negative, how many turns the run took, and how many bytes
/// the files have then. The command has a limit of its own, and this call none.
pub fn run_generated(alloc: Global, count: u32, partner: &mut MemoryPartner) -> Result<Buf, Status>
    requires { IsNew partner.old }
    ensures ok { IfOk result (λ text. RanGenerated (λ bytes. text ≡ bytes) count partner.new) }
    ensures err { IfErr result (λ status. status ≡ NoMemory) }
{
    runs_go_in_groups();
    jobs_are_valid();
    let Ok(()) = put_empty_files(alloc, partner) else {
        return Err(Status::NoMemory);
    };
    let Ok(jobs) = generate(alloc, count) else {
        return Err(Status::NoMemory);
    };
    let report = run_jobs(alloc, 64, 128, 0, 16, partner, jobs)?;
    match summary_text(alloc, count, &report, all_bytes(partner)) {
        Ok(text) => Ok(text),
        Err(_) => Err(Status::NoMemory),
    }
}

/// Runs a list of jobs that a number makes, over the partner, and writes how many there were, how
/// many of their results were negative, how many turns the run took, and how many bytes the files
/// have then. The words are `gen` and the number. It reads nothing.
pub fn gen_main<O: Sink>(
    alloc: Global,
    words: &[Buf],
    out: &mut O,
    partner: &mut MemoryPartner,
) -> Status
    requires { IsNew partner.old }
    ensures usage { (result ≡ Usage) ↔ (count_of words.now ≡ None) }
    ensures untouched { result ≡ Usage → partner.new ≡ partner.old }
    ensures runs { IfSome (count_of words.now) (λ count. GeneratedAs (O.written out.old) (O.written out.new) count partner.new result) }
    ensures unwritten { (result ≡ Usage) ⊎ (result ≡ NoMemory) → out.new ≡ out.old }
    ensures cause { result ≡ WriteFault → Rose (O.faults out.old) (O.faults out.new) }
{
    let Some(count) = count_of(words) else {
        return Status::Usage;
    };
    let text = match run_generated(alloc, count, partner) {
        Ok(text) => text,
        Err(status) => return status,
    };
    match write_all(out, text.as_slice()) {
        Ok(()) => Status::Done,
        Err(_) => Status::WriteFault,
    }
}
