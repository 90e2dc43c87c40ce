//! How an entry ends that has its result.

ghost use Rattle.std.specs.Prelude.{◌≡◌, ◌∷◌, [], true};
ghost use Rattle.uring_model.specs.Jobs.{ends_quietly};
ghost use Rattle.uring_model.specs.Moves.{logged};
ghost use Rattle.uring_model.specs.Partner.{job_of};
ghost use Rattle.uring_model.specs.Turn.{ended};
ghost use Rattle.uring_partner.specs.Settling.{ends_as, post_of};

use uring_base::{Completion, Loan, LogEvent, Taken};
use uring_model::is_quiet;

/// What the log tells of an entry's end, and the completion that is posted, if any is.
#[derive(Drop)]
pub struct Ending {
    pub event: LogEvent,
    pub post: Option<Completion>,
}

/// Whether nothing is posted for an entry with this result.
fn ends_quietly(taken: &Taken, outcome: i32) -> bool
    ensures { result ≡ ends_quietly (job_of taken.now) outcome }
{
    is_quiet(taken) && 0 <= outcome
}

/// How an entry with this result ends. `copy` is what the log keeps of its loan.
pub fn ending_of(taken: Taken, outcome: i32, copy: Option<Loan>) -> Ending
    requires { copy ≡ taken.loan }
    ensures event { result.event ≡ logged (ended (ends_as taken outcome)) }
    ensures post { result.post ≡ post_of (ends_as taken outcome) }
{
    let job = taken.entry.user_data;
    let large = taken.large;
    if ends_quietly(&taken, outcome) {
        return Ending {
            event: LogEvent::Quiet(job),
            post: None,
        };
    }
    Ending {
        event: final_post(job, outcome, copy),
        post: Some(final_completion(job, outcome, large, taken.loan)),
    }
}

/// The log's event of a job's only post.
fn final_post(job: u64, outcome: i32, loan: Option<Loan>) -> LogEvent
    ensures { result ≡ LogEvent.Post job outcome true loan }
{
    LogEvent::Post {
        job,
        result: outcome,
        fin: true,
        loan,
    }
}

/// The only completion of a job, without flags, of the size of its entry.
fn final_completion(job: u64, outcome: i32, large: bool, loan: Option<Loan>) -> Completion
    ensures { result ≡ record { user_data = job; result = outcome; flags = 0; big = 0 ∷ 0 ∷ []; large = large; loan = loan } }
{
    Completion {
        user_data: job,
        result: outcome,
        flags: 0,
        big: [0, 0],
        large,
        loan,
    }
}
