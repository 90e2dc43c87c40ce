//! Reports as text.

ghost use Rattle.std.specs.Prelude.{◌≡◌, ◌++◌, IfOk, OnOk, MatchResult, codes};
ghost use Rattle.uring_model.specs.declared.jobs.RunFault.TheVariants.{NoMemory};
ghost use Rattle.uring_text.specs.Report.{buffer_text, result_text, outcome_line, event_line, text_of};
ghost use Rattle.std.specs.Fmt.{decimal, signed_decimal};

use crate::digits::{put_number, put_signed};
use std::alloc::{AllocError, Global};
use uring_base::{Buf, Event};
use uring_model::{Outcome, Report, RunFault};

/// Writes a buffer's bytes as hex, or a dash where there are none.
fn put_buffer(alloc: Global, out: &mut Vec<u8>, buf: &Option<Buf>) -> Result<(), AllocError>
    ensures { OnOk result (out.new.items ≡ out.old.items ++ buffer_text buf.now) }
{
    match buf {
        Some(buf) if !buf.is_empty() => {
            let hex = hex::encode(alloc, buf.as_slice())?;
            out.extend_from_slice(hex.as_bytes())
        }
        _ => out.extend_from_slice(b"-".as_slice()),
    }
}

fn put_result(out: &mut Vec<u8>, outcome: &Outcome) -> Result<(), AllocError>
    ensures { OnOk result (out.new.items ≡ out.old.items ++ result_text outcome.now) }
{
    if outcome.quiet {
        out.extend_from_slice(b"quiet".as_slice())
    } else {
        put_signed(out, outcome.result)
    }
}

fn put_outcome(
    alloc: Global,
    out: &mut Vec<u8>,
    job: usize,
    outcome: &Outcome,
) -> Result<(), AllocError>
    ensures { OnOk result (out.new.items ≡ out.old.items ++ outcome_line job outcome.now) }
{
    out.extend_from_slice(b"out ".as_slice())?;
    put_number(out, job as u64)?;
    out.push(b' ')?;
    put_result(out, outcome)?;
    out.push(b' ')?;
    put_buffer(alloc, out, &outcome.buf)?;
    Ok(out.push(b'\n')?)
}

/// A line of a word and a number.
fn put_line(out: &mut Vec<u8>, word: &[u8], number: u64) -> Result<(), AllocError>
    ensures { OnOk result (out.new.items ≡ out.old.items ++ (word.now ++ decimal number ++ codes "\n")) }
{
    out.extend_from_slice(word)?;
    put_number(out, number)?;
    Ok(out.push(b'\n')?)
}

/// A line of a word, a job and a result.
fn put_post(out: &mut Vec<u8>, word: &[u8], job: u64, code: i32) -> Result<(), AllocError>
    ensures { OnOk result (out.new.items ≡ out.old.items ++ (word.now ++ decimal job ++ codes " " ++ signed_decimal code ++ codes "\n")) }
{
    out.extend_from_slice(word)?;
    put_number(out, job)?;
    out.push(b' ')?;
    put_signed(out, code)?;
    Ok(out.push(b'\n')?)
}

fn put_event(out: &mut Vec<u8>, event: Event) -> Result<(), AllocError>
    ensures { OnOk result (out.new.items ≡ out.old.items ++ event_line event) }
{
    match event {
        Event::Turn(entries) => put_line(out, b"turn ", entries as u64),
        Event::Take(job) => put_line(out, b"take ", job),
        Event::Post {
            job,
            result,
            fin: true,
        } => put_post(out, b"post ", job, result),
        Event::Post {
            job,
            result,
            fin: false,
        } => put_post(out, b"more ", job, result),
        Event::Quiet(job) => put_line(out, b"quiet ", job),
    }
}

fn lines_of_report(alloc: Global, report: &Report) -> Result<Vec<u8>, AllocError>
    ensures { IfOk result (λ text. text.items ≡ text_of report.now.outcomes.items report.now.journal.items) }
{
    let mut out = Vec::new(alloc);
    for (job, outcome) in report.outcomes.iter().enumerate() {
        put_outcome(alloc, &mut out, job, outcome)?;
    }
    for event in &report.journal {
        put_event(&mut out, *event)?;
    }
    out.extend_from_slice(b"end\n".as_slice())?;
    Ok(out)
}

/// The report as text: a line for each outcome, one for each event, and `end`.
pub fn report_text(alloc: Global, report: &Report) -> Result<Buf, RunFault>
    ensures { MatchResult result (λ text. text ≡ text_of report.now.outcomes.items report.now.journal.items) (λ fault. fault ≡ NoMemory) }
{
    let text = lines_of_report(alloc, report)?;
    Ok(Buf::from(text))
}
