//! The program: from its words and the bytes of a script to a status and the bytes of a report.
#![tactic(auto)]

ghost use Rattle.std.specs.Prelude.{◌≡◌, ◌≢◌, ◌⊎◌, ◌↔◌, None, false};
ghost use Rattle.uring_text.specs.declared.status.Status.TheVariants.{NoMemory, PartnerFault, Usage};
ghost use Rattle.uring_cli.specs.Words.{asks_for_folder, options_of, shared_options_of};
ghost use Rattle.uring_cli.specs.Generated.{count_of};

mod execute;
mod gen_words;
mod generated;
mod input;
mod laws;
mod main_call;
mod shared_call;
mod summary;
#[cfg(test)]
mod tests;
mod words;

use gen_words::asks_for_jobs;
pub use gen_words::{MOST_JOBS, count_of};
pub use generated::gen_main;
pub use laws::options_are_as_said;
pub use main_call::ring_main;
use partner_serving::NoGate;
pub use shared_call::shared_main;
use std::env;
use std::io::{self, BufReader};
use std::process::ExitCode;
use std::sync::Wait;
use std::thread::Threads;
use uring_base::Buf;
use uring_partner::MemoryPartner;
use uring_std::StdPartner;
pub use uring_streams::{MemorySink, MemorySource, Sink, Source, StdSink, StdSource};
pub use uring_text::{Status, status_text};
use words::{asks_for_folder, asks_for_threads};
pub use words::{
    DEFAULT_ENTRIES, DEFAULT_IDLE, MAX_NUMBER, Options, Word, options_of, shared_options_of,
};

/// The words after the program's name.
fn words_after_name(rt: &HostRuntime) -> io::Result<Vec<Word>> {
    let mut words = Vec::new(rt.alloc());
    for word in env::args(rt)?.skip(1) {
        words.push(Buf::from(word.into_bytes()))?;
    }
    Ok(words)
}

/// Runs a script over standard input and output, and a new partner.
fn run_script(rt: &HostRuntime, words: &[Word]) -> Status
    ensures usage { result ≡ Usage → options_of words.now ≡ None }
    ensures others { options_of words.now ≡ None → (result ≡ Usage) ⊎ (result ≡ NoMemory) }
    ensures unplanned { result ≢ PartnerFault }
{
    let alloc = rt.alloc();
    let Ok(reader) = BufReader::new(alloc, rt.stdin()) else {
        return Status::NoMemory;
    };
    let mut input = StdSource::new(reader);
    let mut out = StdSink::new(rt.stdout());
    let mut partner = MemoryPartner::new(alloc);
    ring_main(alloc, words, &mut input, &mut out, &mut partner)
}

/// Runs a script over standard input and output, and a new partner over the files of the folder in
/// which the program was started.
fn run_in_folder(rt: &HostRuntime, words: &[Word]) -> Status
    ensures usage { result ≡ Usage → options_of words.now ≡ None }
    ensures others { options_of words.now ≡ None → (result ≡ Usage) ⊎ (result ≡ NoMemory) }
{
    let alloc = rt.alloc();
    let Ok(reader) = BufReader::new(alloc, rt.stdin()) else {
        return Status::NoMemory;
    };
    let Ok(folder) = Buf::from_slice(alloc, b".") else {
        return Status::NoMemory;
    };
    let mut input = StdSource::new(reader);
    let mut out = StdSink::new(rt.stdout());
    let mut partner = StdPartner::new(alloc, *rt, folder);
    ring_main(alloc, words, &mut input, &mut out, &mut partner)
}

/// Runs a script over standard input and output, and a new partner that has a thread of its own.
fn run_on_threads<R: Threads + Wait + Sync>(rt: &HostRuntime, threads: &R, words: &[Word]) -> Status
    ensures usage { result ≡ Usage → shared_options_of words.now ≡ None }
    ensures others { shared_options_of words.now ≡ None → (result ≡ Usage) ⊎ (result ≡ NoMemory) }
    ensures unplanned { result ≢ PartnerFault }
{
    let alloc = rt.alloc();
    let Ok(reader) = BufReader::new(alloc, rt.stdin()) else {
        return Status::NoMemory;
    };
    let mut input = StdSource::new(reader);
    let mut out = StdSink::new(rt.stdout());
    let partner = MemoryPartner::new(alloc);
    let (status, _partner) = shared_main(
        threads, alloc, words, &mut input, &mut out, partner, &NoGate,
    );
    status
}

/// Runs the jobs of a number over standard output and a new partner.
fn run_number(rt: &HostRuntime, words: &[Word]) -> Status
    ensures usage { (result ≡ Usage) ↔ (count_of words.now ≡ None) }
    ensures unplanned { result ≢ PartnerFault }
{
    let alloc = rt.alloc();
    let mut out = StdSink::new(rt.stdout());
    let mut partner = MemoryPartner::new(alloc);
    gen_main(alloc, words, &mut out, &mut partner)
}

/// Runs the command that the words say. Over files in memory no partner fails.
fn run<R: Threads + Wait + Sync>(rt: &HostRuntime, threads: &R, words: &[Word]) -> Status
    ensures usage { result ≡ Usage → (options_of words.now ≡ None) × (shared_options_of words.now ≡ None) × (count_of words.now ≡ None) }
    ensures others { options_of words.now ≡ None → shared_options_of words.now ≡ None → count_of words.now ≡ None → (result ≡ Usage) ⊎ (result ≡ NoMemory) }
    ensures unplanned { asks_for_folder words.now ≡ false → result ≢ PartnerFault }
{
    if asks_for_jobs(words) {
        run_number(rt, words)
    } else if asks_for_threads(words) {
        run_on_threads(rt, threads, words)
    } else if asks_for_folder(words) {
        run_in_folder(rt, words)
    } else {
        run_script(rt, words)
    }
}

/// The status of a process whose words can't be had. A word that isn't text is none of the
/// command's.
fn status_without_words(error: io::Error) -> Status {
    match error.kind() {
        io::ErrorKind::OutOfMemory => Status::NoMemory,
        _ => Status::Usage,
    }
}

fn main(rt: HostRuntime) -> ExitCode {
    let status = match words_after_name(&rt) {
        Ok(words) => run(&rt, &rt, &words),
        Err(error) => status_without_words(error),
    };
    if status != Status::Done {
        // The text takes no memory. Where standard error fails, the exit status still tells.
        let _ = eprintln!(rt; "{status}");
    }
    ExitCode::from(status.code())
}
