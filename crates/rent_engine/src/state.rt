//! States: what is polled until it is done.

ghost use Rattle.std.specs.Prelude.{◌≡◌};
ghost use Rattle.rent_engine.specs.States.{is_pending};

use crate::engine::Engine;
use ring_traits::UserEnds;
use std::alloc::Global;

/// What a poll answers.
#[derive(Drop)]
pub enum Poll<T> {
    Ready(T),
    Pending,
}

impl<T> Poll<T> {
    pub fn is_pending(&self) -> bool
        ensures { result ≡ is_pending self.now }
    {
        match self {
            Poll::Ready(_) => false,
            Poll::Pending => true,
        }
    }
}

/// Work that goes on by operations of an engine. It waits where its operation is in flight; and
/// where it isn't done, has an operation to offer, and the submission ring was full as last seen.
pub trait OpState {
    ghost use Rattle.std.specs.Prelude.{◌≡◌, ◌+◌, ◌≤◌, ℕ, Bool, not, false, List, Option};
    ghost use Rattle.uring_base.specs.declared.events.Taken.{Taken};
    ghost use Rattle.rent_engine.specs.declared.state.Poll.{Poll};
    ghost use Rattle.rent_table.specs.Ops.{Ops};
    ghost use Rattle.rent_engine.specs.Engines.{Offered};
    ghost use Rattle.rent_engine.specs.States.{is_pending, waits_on, KeepsInFlight};

    type Output;

    // The number of its operation, where one was started; and whether it has one to offer.
    ghost key: { Self → Option ℕ };

    ghost offers: { Self → Bool };

    ghost done: { Self → Bool };

    // A poll of a state, at these operations, offers these entries, answers so, and leaves these operations and that state.
    ghost polls: { Self → Ops → List Taken → Poll Self.Output → Ops → Self → Type 0 };

    /// Goes on as far as it can. It isn't called once the state is done.
    fn poll<R: UserEnds>(&mut self, alloc: Global, engine: &mut Engine<R>) -> Poll<Self::Output>
        requires { done self.old ≡ false }
        ensures polls { (ts : List Taken) × Offered R.offers_large R.used R.lists R.room R.waiting engine.old.ring ts engine.new.ring
            × polls self.old engine.old.ops ts result engine.new.ops self.new }
        ensures pending { is_pending result ≡ waits_on (key self.new) (offers self.new) engine.new.ops (R.room engine.new.ring) }
        ensures done { done self.new ≡ not (is_pending result) }
        ensures in_flight { KeepsInFlight engine.old.ops engine.new.ops }
        ensures free { R.room engine.new.ring ≤ R.room engine.old.ring }
        ensures spare { engine.old.spare ≤ engine.new.spare + 1 }
        ensures params { engine.new.params ≡ engine.old.params };

    /// Whether it has given its output.
    fn is_done(&self) -> bool
        ensures { result ≡ done self.now };
}
