//! Reading a script line by line.

ghost use Rattle.std.specs.Prelude.{◌≡◌, ◌∷◌, [], ◌<◌, ◌≤◌, MatchOption, MatchResult, IfSome, IfOk, Some, None, length, sum_by, if◌then◌else◌, Option};
ghost use Rattle.uring_text.specs.Lines.{lines_of};
ghost use Rattle.uring_text.specs.declared.limits.TheConstants.{MAX_JOB_BYTES};
ghost use Rattle.uring_text.specs.Script.{Told, script_of, told_by, Refuses, buffer_len, has_number, told_of};
ghost use Rattle.uring_text.specs.Adding.{adds};
ghost use Rattle.uring_text.specs.declared.script.Line.TheVariants as line;

use crate::fields::cut;
use crate::limits::{MAX_FILES, MAX_JOB_BYTES, MAX_JOBS};
use crate::line::line_says;
use crate::script::{Line, Script, ScriptFault, Seed};
use std::alloc::{AllocError, Global};
use uring_model::{Job, JobKind};

/// The first line, and what follows it.
fn next_line(text: &[u8]) -> Option<(&[u8], &[u8])>
    ensures lines { MatchOption result (lines_of text.now ≡ []) (λ x. lines_of text.now ≡ x.0.now ∷ lines_of x.1.now) }
    ensures shorter { IfSome result (λ x. length x.1.now < length text.now) }
{
    if text.is_empty() {
        return None;
    }
    match cut(text, b'\n') {
        Some((line, rest)) => Some((line, rest)),
        None => Some((text, &text[text.len()..])),
    }
}

/// The number of bytes in a job's buffer, none where it has no buffer.
fn buffer_len(job: &Job) -> usize
    ensures { result ≡ buffer_len job.now }
{
    match &job.kind {
        JobKind::Read { buf, .. } | JobKind::Write { buf, .. } => buf.len(),
        JobKind::Nop | JobKind::Fsync { .. } | JobKind::Ftruncate { .. } | JobKind::Cancel { .. } =>
            0,
    }
}

/// A script as far as its lines are read.
#[derive(Drop)]
struct Reading {
    files: Vec<Seed>,
    choices: Vec<u32>,
    jobs: Vec<Job>,
    buffered: usize,
    ghost counted: { buffered ≡ sum_by buffer_len jobs.items },
    ghost bounded: { buffered ≤ MAX_JOB_BYTES },
}

impl Reading {
    fn has_file(&self, number: u32) -> bool
        ensures { result ≡ has_number number self.now.files.items }
    {
        self.files.iter().any(|seed| seed.number == number)
    }

    /// Adds a file, unless a limit is met.
    fn add_file(&mut self, seed: Seed) -> Result<bool, AllocError>
        ensures { IfOk result (λ fits. adds (told_of self.old.files self.old.choices self.old.jobs) (line.File seed) ≡ (if fits then Some (told_of self.new.files self.new.choices self.new.jobs) else None)) }
    {
        if self.files.len() >= MAX_FILES || self.has_file(seed.number) {
            return Ok(false);
        }
        self.files.push(seed)?;
        Ok(true)
    }

    /// Adds a job, unless a limit is met.
    fn add_job(&mut self, job: Job) -> Result<bool, AllocError>
        ensures { IfOk result (λ fits. adds (told_of self.old.files self.old.choices self.old.jobs) (line.Job job) ≡ (if fits then Some (told_of self.new.files self.new.choices self.new.jobs) else None)) }
    {
        let len = buffer_len(&job);
        if self.jobs.len() >= MAX_JOBS || len > MAX_JOB_BYTES - self.buffered {
            return Ok(false);
        }
        self.jobs.push(job)?;
        self.buffered += len;
        Ok(true)
    }

    /// Adds what a line says, unless a limit is met.
    fn add(&mut self, said: Line) -> Result<bool, AllocError>
        ensures { IfOk result (λ fits. adds (told_of self.old.files self.old.choices self.old.jobs) said ≡ (if fits then Some (told_of self.new.files self.new.choices self.new.jobs) else None)) }
    {
        match said {
            Line::Blank => Ok(true),
            Line::File(seed) => self.add_file(seed),
            Line::Choose(choice) => {
                self.choices.push(choice)?;
                Ok(true)
            }
            Line::Job(job) => self.add_job(job),
        }
    }
}

/// The script that these bytes are. Where they are none, the fault names the first line, from 1,
/// that no script begins with.
pub fn read_script(alloc: Global, bytes: &[u8]) -> Result<Script, ScriptFault>
    ensures { MatchResult result (λ script. script_of (lines_of bytes.now) ≡ Some (told_by script)) (λ fault. Refuses (lines_of bytes.now) fault) }
{
    let mut reading = Reading {
        files: Vec::new(alloc),
        choices: Vec::new(alloc),
        jobs: Vec::new(alloc),
        buffered: 0,
    };
    let mut rest = bytes;
    let mut number: u64 = 0;
    while let Some((line, after)) = next_line(rest) {
        number += 1;
        rest = after;
        match line_says(alloc, line)? {
            None => return Err(ScriptFault::Line(number)),
            Some(said) => {
                let fits = reading.add(said)?;
                if !fits {
                    return Err(ScriptFault::Line(number));
                }
            }
        }
    }
    let Reading {
        files,
        choices,
        jobs,
        ..
    } = reading;
    Ok(Script {
        files,
        choices,
        jobs,
    })
}
