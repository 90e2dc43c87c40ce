//! What one line of a script says: a reader for each line of the grammar.

ghost use Rattle.std.specs.Prelude.{◌≡◌, map, IfOk, false};
ghost use Rattle.uring_model.specs.Jobs.{model_job, may_be_quiet};
ghost use Rattle.uring_text.specs.Script.{file_line, choose_line, job_line, worded_line, line_says};

use crate::fields::{bytes_of, cut, fields_of, u32_of};
use crate::jobs::job_fields;
use crate::marks::{Marks, marks_of};
use crate::script::{Line, Seed};
use std::alloc::{AllocError, Global};
use uring_model::{Job, JobKind, Link};

/// `file N HEX`
#[tactic(auto, unfolding(crate::specs::Script::file_line))]
fn file_line(alloc: Global, fields: &[&[u8]]) -> Result<Option<Line>, AllocError>
    ensures { IfOk result (λ said. said ≡ file_line (map (λ x. x.now) fields.now)) }
{
    let [number, hex] = fields else {
        return Ok(None);
    };
    let Some(number) = u32_of(number) else {
        return Ok(None);
    };
    let Some(bytes) = bytes_of(alloc, hex)? else {
        return Ok(None);
    };
    Ok(Some(Line::File(Seed { number, bytes })))
}

/// `choose C`
#[tactic(auto, unfolding(crate::specs::Script::choose_line))]
fn choose_line(fields: &[&[u8]]) -> Option<Line>
    ensures { result ≡ choose_line (map (λ x. x.now) fields.now) }
{
    let [choice] = fields else {
        return None;
    };
    let choice = u32_of(choice)?;
    Some(Line::Choose(choice))
}

/// Whether a job may be quiet where another follows it: it moves no bytes, and has a link.
fn may_be_quiet(job: &Job) -> bool
    ensures { result ≡ may_be_quiet false (model_job job.now) }
{
    let moves_bytes = matches!(job.kind, JobKind::Read { .. } | JobKind::Write { .. });
    !moves_bytes && job.link != Link::Free
}

/// A job, by its kind and its marks.
#[tactic(auto, unfolding(crate::specs::Script::job_line))]
fn job_line(alloc: Global, word: &[u8], fields: &[&[u8]]) -> Result<Option<Line>, AllocError>
    ensures { IfOk result (λ said. said ≡ job_line word.now (map (λ x. x.now) fields.now)) }
{
    let Some((kind, marks)) = job_fields(alloc, word, fields)? else {
        return Ok(None);
    };
    let Some(Marks { drain, quiet, link }) = marks_of(marks) else {
        return Ok(None);
    };
    let job = Job {
        kind,
        drain,
        quiet,
        link,
    };
    if job.quiet && !may_be_quiet(&job) {
        return Ok(None);
    }
    Ok(Some(Line::Job(job)))
}

/// A line by its first field.
#[tactic(auto, unfolding(crate::specs::Script::worded_line))]
fn worded_line(alloc: Global, fields: &[&[u8]]) -> Result<Option<Line>, AllocError>
    ensures { IfOk result (λ said. said ≡ worded_line (map (λ x. x.now) fields.now)) }
{
    let Some((word, fields)) = fields.split_first() else {
        return Ok(None);
    };
    if *word == b"file".as_slice() {
        file_line(alloc, fields)
    } else if *word == b"choose".as_slice() {
        Ok(choose_line(fields))
    } else {
        job_line(alloc, word, fields)
    }
}

/// What a line says, if it says something.
#[tactic(auto, unfolding(crate::specs::Script::line_says))]
pub fn line_says(alloc: Global, line: &[u8]) -> Result<Option<Line>, AllocError>
    ensures { IfOk result (λ said. said ≡ line_says line.now) }
{
    if line.is_empty() || line[0] == b'#' {
        return Ok(Some(Line::Blank));
    }
    if cut(line, b' ').is_none() {
        return worded_line(alloc, &[line]);
    }
    let fields = fields_of(alloc, line)?;
    worded_line(alloc, &fields)
}
