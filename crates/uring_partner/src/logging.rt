//! The log of a partner.

ghost use Rattle.std.specs.Prelude.{◌≡◌, ◌<◌, ◌++◌, ◌∷◌, [], Some, length, slice_get, vec_len, vec_capacity};
ghost use Rattle.std.specs.Option.{option_map};
ghost use Rattle.uring_model.specs.Moves.{event_of};

use uring_base::{Event, LogEvent};

/// Adds an item where memory for it is at hand.
pub fn push_known<T: Drop>(items: &mut Vec<T>, item: T)
    requires { vec_len items.old < vec_capacity items.old }
    ensures { items.new.items ≡ items.old.items ++ item ∷ [] }
{
    if let Err(_refused) = items.push(item) {
        unreachable!();
    }
}

/// One event of a log, without its entry and loan.
pub fn event_at(log: &Vec<LogEvent>, place: usize) -> Event
    requires { place < length log.now.items }
    ensures { option_map event_of (slice_get log.now.items place) ≡ Some result }
{
    match &log[place] {
        LogEvent::Turn(published) => Event::Turn(*published),
        LogEvent::Take { job, .. } => Event::Take(*job),
        LogEvent::Post {
            job,
            result,
            fin,
            ..
        } => Event::Post {
            job: *job,
            result: *result,
            fin: *fin,
        },
        LogEvent::Quiet(job) => Event::Quiet(*job),
    }
}
