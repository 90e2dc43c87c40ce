//! The quiet ends: all that hangs on a number is resolved with it.

ghost use Rattle.std.specs.Prelude.{◌≡◌, ◌≢◌, ◌+◌, ◌<◌, ◌≤◌, ℕ, Some, [], ◌∷◌, vec_len, vec_capacity};
ghost use Rattle.std.specs.FinMap.{len};
ghost use Rattle.rent_table.specs.Ops.{Ops, flight_at, next_at, quietly_resolved, with_hanging_resolved};
ghost use Rattle.rent_table.specs.QuietEnds.{QuietlyEnding, AreMatched};

use crate::lifecycles::Lifecycles;
use crate::ops::OpDone;
use crate::waiters::Waiters;

/// Resolves a number without a post of its own, if it is in flight.
fn end_quietly(lifecycles: &mut Lifecycles, waiters: &mut Waiters, number: u64)
    requires { AreMatched lifecycles.old.ops waiters.old.next }
    ensures ops { lifecycles.new.ops ≡ quietly_resolved number lifecycles.old.ops }
    ensures matched { AreMatched lifecycles.new.ops waiters.new.next }
    ensures lifecycles_spare { lifecycles.old.spare ≤ lifecycles.new.spare }
    ensures waiters_spare { waiters.old.spare ≤ waiters.new.spare }
{
    if let Some(flight) = lifecycles.flight(number) {
        let outcome = OpDone {
            result: 0,
            flags: 0,
            buf: None,
            quiet: true,
        };
        lifecycles.resolve(number, flight, outcome);
        waiters.remove(number);
    }
}

/// Resolves all that wait for a number, and lists them as work.
fn end_waiters(lifecycles: &mut Lifecycles, waiters: &mut Waiters, work: &mut Vec<u64>, number: u64)
    requires matched { AreMatched lifecycles.old.ops waiters.old.next }
    requires room { vec_len work.old + len lifecycles.old.ops.in_flight ≤ vec_capacity work.old }
    ensures ending { (u : ℕ) (start : Ops) → QuietlyEnding u start lifecycles.old.ops (number ∷ work.old.items) → QuietlyEnding u start lifecycles.new.ops work.new.items }
    ensures matched { AreMatched lifecycles.new.ops waiters.new.next }
    ensures count { vec_len work.new + len lifecycles.new.ops.in_flight ≡ vec_len work.old + len lifecycles.old.ops.in_flight }
    ensures capacity { vec_capacity work.new ≡ vec_capacity work.old }
    ensures lifecycles_spare { lifecycles.old.spare ≤ lifecycles.new.spare }
    ensures waiters_spare { waiters.old.spare ≤ waiters.new.spare }
{
    'waiting: while let Some(waiter) = waiters.waiter_of(number) {
        end_quietly(lifecycles, waiters, waiter);
        work.push_reserved(waiter);
    }
}

/// Resolves all that hangs on a number that was just resolved. It takes no memory: `work` lists
/// the numbers that were resolved and may still have waiters, and is empty before and after.
pub(crate) fn end_hanging(
    lifecycles: &mut Lifecycles,
    waiters: &mut Waiters,
    work: &mut Vec<u64>,
    number: u64,
)
    requires matched { AreMatched lifecycles.old.ops waiters.old.next }
    requires idle { work.old.items ≡ [] }
    requires room { vec_len work.old + len lifecycles.old.ops.in_flight < vec_capacity work.old }
    ensures ops { lifecycles.new.ops ≡ with_hanging_resolved number lifecycles.old.ops }
    ensures matched { AreMatched lifecycles.new.ops waiters.new.next }
    ensures closed { (n m : ℕ) → next_at lifecycles.new.ops n ≡ Some m → (m ≢ number) × (flight_at lifecycles.new.ops m ≡ flight_at lifecycles.old.ops m) }
    ensures idle { work.new.items ≡ [] }
    ensures fewer { len lifecycles.new.ops.in_flight ≤ len lifecycles.old.ops.in_flight }
    ensures capacity { vec_capacity work.new ≡ vec_capacity work.old }
    ensures lifecycles_spare { lifecycles.old.spare ≤ lifecycles.new.spare }
    ensures waiters_spare { waiters.old.spare ≤ waiters.new.spare }
{
    work.push_reserved(number);
    'working: while let Some(resolved) = work.pop() {
        end_waiters(lifecycles, waiters, work, resolved);
    }
}
