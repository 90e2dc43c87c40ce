//! The plain replay of a journal.

ghost use Rattle.std.specs.Prelude.{◌≡◌, ◌↔◌, ◌++◌, ◌∷◌, [], None, IsTrue, IfOk, OnOk, option_map, replicate};
ghost use Rattle.std.specs.List.{All};
ghost use Rattle.uring_model.specs.Jobs.{model_job, model_jobs, model_op, moves_bytes, ends_quietly};
ghost use Rattle.uring_model.specs.Replay.{replay, replay_event, take_job, settle_at, place_of, last_unlinked, IsWhole};
ghost use Rattle.uring_model.specs.Rows.{row_in, rows_in, state_in, state_if, table_told, outcomes_told, told_by, AreCounted, HasCount};

use crate::files::Files;
use crate::jobs::{Job, JobKind, Link, Outcome};
use crate::rows::{Row, Settled, all_done, mark, may_settle};
use crate::settling::settle;
use std::alloc::{AllocError, Global};
use std::collections::VecDeque;
use uring_base::Event;

/// Where a replay stands: the files, a row for each job taken, and the jobs not taken.
#[derive(Drop)]
pub struct Replayed {
    pub files: Files,
    pub rows: Vec<Row>,
    pub rest: VecDeque<Job>,
}

/// How an event tells that a job settled: by a post of this result, or by none.
#[derive(Clone, Copy)]
enum Telling {
    ByPost(i32),
    Quietly,
}

/// What a journal of these jobs leads to, event by event. It is none where one of the events
/// could not take place.
pub fn replay(
    alloc: Global,
    jobs: Vec<Job>,
    files: Files,
    journal: &[Event],
) -> Result<Option<Replayed>, AllocError>
    requires { All HasCount jobs.items }
    ensures { IfOk result (λ replayed. option_map state_in replayed ≡ replay (model_jobs jobs.items) files journal.now) }
{
    let mut replayed = Replayed {
        files,
        rows: Vec::new(alloc),
        rest: VecDeque::from_vec(with_last_unlinked(jobs)),
    };
    for event in journal {
        if !replayed.replay_event(alloc, *event)? {
            return Ok(None);
        }
    }
    Ok(Some(replayed))
}

impl Replayed {
    /// Whether all jobs are taken and have settled.
    pub fn is_whole(&self) -> bool
        ensures { IsTrue result ↔ IsWhole (state_in self.now) }
    {
        self.rest.is_empty() && all_done(&self.rows)
    }

    /// The outcomes in the jobs' order, and none for a job that has none.
    pub fn into_outcomes(self, alloc: Global) -> Result<Vec<Option<Outcome>>, AllocError>
        ensures { IfOk result (λ outcomes. outcomes.items ≡ table_told (state_in self)) }
    {
        let mut outcomes = Vec::new(alloc);
        let mut rows = VecDeque::from_vec(self.rows);
        while let Some(row) = rows.pop_front() {
            outcomes.push(row_outcome(row))?;
        }
        add_open(&mut outcomes, self.rest.len())?;
        Ok(outcomes)
    }

    fn replay_event(&mut self, alloc: Global, event: Event) -> Result<bool, AllocError>
        requires { AreCounted self.old }
        ensures state { IfOk result (λ went. state_if went self.new ≡ replay_event (state_in self.old) event) }
        ensures counts { OnOk result (AreCounted self.new) }
    {
        match event {
            Event::Turn(_) => Ok(true),
            Event::Take(number) => self.take_job(number),
            Event::Post {
                job,
                result: outcome,
                fin: true,
            } => self.settle_row(alloc, job, Telling::ByPost(outcome)),
            Event::Post { fin: false, .. } => Ok(false),
            Event::Quiet(job) => self.settle_row(alloc, job, Telling::Quietly),
        }
    }

    fn take_job(&mut self, number: u64) -> Result<bool, AllocError>
        requires { AreCounted self.old }
        ensures state { IfOk result (λ went. state_if went self.new ≡ take_job (state_in self.old) number (model_jobs self.old.rest.items)) }
        ensures counts { OnOk result (AreCounted self.new) }
    {
        if number != self.rows.len() as u64 {
            return Ok(false);
        }
        let Some(job) = self.rest.pop_front() else {
            return Ok(false);
        };
        self.rows.push(Row {
            job,
            marked: false,
            outcome: None,
        })?;
        Ok(true)
    }

    fn settle_row(
        &mut self,
        alloc: Global,
        number: u64,
        telling: Telling,
    ) -> Result<bool, AllocError>
        requires { AreCounted self.old }
        ensures state { IfOk result (λ went. state_if went self.new ≡ settle_at (state_in self.old) (told_by telling) (place_of [] (rows_in self.old.rows.items) number)) }
        ensures counts { OnOk result (AreCounted self.new) }
    {
        let place = number as usize;
        let rows = self.rows.as_slice();
        if place >= rows.len() {
            return Ok(false);
        }
        let row = &rows[place];
        let before = &rows[..place];
        if row.outcome.is_some() || !may_settle(before, &row.job) {
            return Ok(false);
        }
        let settling = settle(alloc, &mut self.files, before, row, &rows[place + 1..])?;
        if !tells(telling, &row.job, settling.answered.result) {
            return Ok(false);
        }
        let marks = settling.answered.marks;
        self.rows[place].outcome = Some(Settled {
            result: settling.answered.result,
            buf: settling.buf,
        });
        mark(&mut self.rows, marks);
        Ok(true)
    }
}

/// Whether an event tells so that the job settled with this result.
fn tells(telling: Telling, job: &Job, answer: i32) -> bool
    ensures { result ≡ told_by telling (model_job job.now) answer }
{
    match telling {
        Telling::ByPost(posted) => answer == posted && !ends_quietly(job, posted),
        Telling::Quietly => ends_quietly(job, answer),
    }
}

/// Whether nothing is posted for the job where this is its result.
fn ends_quietly(job: &Job, answer: i32) -> bool
    ensures { result ≡ ends_quietly (model_job job.now) answer }
{
    job.quiet && answer >= 0
}

fn row_outcome(row: Row) -> Option<Outcome>
    ensures { result ∷ [] ≡ outcomes_told (row_in row ∷ []) }
{
    let Row { job, outcome, .. } = row;
    let Settled {
        result: answer,
        buf,
    } = outcome?;
    let buf = if moves_bytes(&job.kind) {
        Some(buf)
    } else {
        None
    };
    let quiet = ends_quietly(&job, answer);
    Some(Outcome {
        result: answer,
        buf,
        quiet,
    })
}

fn moves_bytes(kind: &JobKind) -> bool
    ensures { result ≡ moves_bytes (model_op kind.now) }
{
    matches!(kind, JobKind::Read { .. } | JobKind::Write { .. })
}

/// Adds so many jobs that have no outcome.
fn add_open(outcomes: &mut Vec<Option<Outcome>>, count: usize) -> Result<(), AllocError>
    ensures { OnOk result (outcomes.new.items ≡ outcomes.old.items ++ replicate count None) }
{
    for _added in 0..count {
        outcomes.push(None)?;
    }
    Ok(())
}

fn with_last_unlinked(mut jobs: Vec<Job>) -> Vec<Job>
    requires { All HasCount jobs.items }
    ensures jobs { model_jobs result.items ≡ last_unlinked (model_jobs jobs.items) }
    ensures counts { All HasCount result.items }
{
    let count = jobs.len();
    if count > 0 {
        jobs[count - 1].link = Link::Free;
    }
    jobs
}
