//! What is told of a run, as text.

ghost use Rattle.std.specs.Prelude.{◌≡◌, ◌+◌, ◌++◌, IfOk, codes, decimal};
ghost use Rattle.uring_partner.specs.Told.{state_of};
ghost use Rattle.job_generator.specs.Journal.{line, bytes_of, bytes_in, turns_in};
ghost use Rattle.uring_cli.specs.Generated.{summary_told, negative_outcomes};

use std::alloc::{AllocError, Global};
use std::fmt::Write;
use uring_base::{Buf, Event};
use uring_model::{Outcome, Report};
use uring_partner::MemoryPartner;

/// How many outcomes have a negative result.
fn count_negative(outcomes: &[Outcome]) -> usize
    ensures { result ≡ negative_outcomes outcomes.now }
{
    let mut count = 0;
    for outcome in outcomes {
        if outcome.result < 0 {
            count += 1;
        }
    }
    count
}

/// How many turns a journal has.
fn count_turns(journal: &[Event]) -> usize
    ensures { result ≡ turns_in journal.now }
{
    let mut count = 0;
    for event in journal {
        if matches!(event, Event::Turn(_)) {
            count += 1;
        }
    }
    count
}

/// How many bytes a file has.
fn count_bytes(partner: &MemoryPartner, number: u32) -> u64
    ensures { result ≡ bytes_of (state_of partner.now).world.files number }
{
    partner.file_len(number).unwrap_or(0) as u64
}

/// The four lines that tell of a run.
pub fn summary_text(
    alloc: Global,
    count: u32,
    report: &Report,
    bytes: u128,
) -> Result<Buf, AllocError>
    ensures { IfOk result (λ text. text ≡ summary_told count report.now bytes) }
{
    let negative = count_negative(&report.outcomes);
    let turns = count_turns(&report.journal);
    let mut out = String::new(alloc);
    writeln!(out, "jobs {count}")?;
    writeln!(out, "negative {negative}")?;
    writeln!(out, "turns {turns}")?;
    writeln!(out, "bytes {bytes}")?;
    Ok(Buf::from(out.into_bytes()))
}

/// How many bytes files 0 to 3 have.
pub fn all_bytes(partner: &MemoryPartner) -> u128
    ensures { result ≡ bytes_in (state_of partner.now).world.files }
{
    let first = count_bytes(partner, 0) as u128 + count_bytes(partner, 1) as u128;
    first + count_bytes(partner, 2) as u128 + count_bytes(partner, 3) as u128
}
