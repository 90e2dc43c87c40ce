//! States of several operations, one at a time, by their plans.

ghost use Rattle.std.specs.Prelude.{◌≡◌, ◌+◌, ◌≤◌, bit_or, not, true, false, List, None, Some};
ghost use Rattle.uring_base.specs.declared.events.Taken.{Taken};
ghost use Rattle.uring_base.specs.FlagBits.{bits_in};
ghost use Rattle.rent_engine.specs.Engines.{Offered};
ghost use Rattle.rent_engine.specs.OneOp.{flagged, numbered, stage_key, stage_offers, stage_over, IsPlaced};
ghost use Rattle.rent_engine.specs.Plans.{marked};
ghost use Rattle.rent_engine.specs.States.{is_pending, waits_on, KeepsInFlight};

use crate::engine::Engine;
use crate::one_op::{OneAnswer, OneOp, Request};
use crate::state::{OpState, Poll};
use bitflags::Flags as _;
use ring_traits::UserEnds;
use std::alloc::Global;
use uring_base::squeue::Flags;

/// What a plan does next: it asks for an operation, or gives its output. The number and the flags
/// of what it asks for are the sequence's.
#[derive(Drop)]
pub enum PlanStep<T> {
    Asks(Request),
    Gives(T),
}

/// What follows each answer of a state of several operations.
pub trait Plan {
    ghost use Rattle.std.specs.Prelude.{◌≡◌, true};
    ghost use Rattle.rent_engine.specs.declared.one_op.OneAnswer.{OneAnswer};
    ghost use Rattle.rent_engine.specs.declared.sequences.PlanStep.{PlanStep};
    ghost use Rattle.rent_engine.specs.Plans.{is_refused, gives_output, IfAsks};
    ghost use Rattle.rent_engine.specs.OneOp.{IsPlaced};

    type Output;

    // What became of its operation leads to this step, and leaves this plan.
    ghost follows: { Self → OneAnswer → PlanStep Self.Output → Self → Type 0 };

    /// Goes on by what became of its operation. One that wasn't begun ends it.
    fn follow(&mut self, alloc: Global, answer: OneAnswer) -> PlanStep<Self::Output>
        ensures follows { follows self.old answer result self.new }
        ensures placed { IfAsks result IsPlaced }
        ensures ends { is_refused answer ≡ true → gives_output result ≡ true };
}

/// A state of several operations, one at a time. Its plan says what follows each of them.
#[derive(Drop)]
pub struct Sequence<P, T> {
    pub plan: P,
    /// The operation that is offered or in flight.
    pub op: OneOp,
    /// An output that it gives at its first poll, without an operation.
    pub given: Option<T>,
    /// The number of each operation, if one was given.
    pub number: Option<u64>,
    /// The flags that are added to each entry.
    pub flags: Flags,
}

impl<P, T> Sequence<P, T> {
    ghost use Rattle.rent_engine.specs.declared.one_op.Stage.TheVariants.{Offers, Over};
    ghost use Rattle.rent_engine.specs.Plans.{no_flags};

    /// It begins with this operation.
    pub fn of_request(plan: P, request: Request) -> Sequence<P, T>
        requires { IsPlaced request }
        ensures { result ≡ record { plan = plan; op = Offers request; given = None; number = request.number; flags = no_flags } }
    {
        Sequence {
            plan,
            number: request.number,
            op: OneOp::of_request(request),
            given: None,
            flags: Flags::empty(),
        }
    }

    /// It gives this output at its first poll, without an operation.
    pub fn of_output(plan: P, output: T) -> Sequence<P, T>
        ensures { result ≡ record { plan = plan; op = Over; given = Some output; number = None; flags = no_flags } }
    {
        Sequence {
            plan,
            op: OneOp::over(),
            given: Some(output),
            number: None,
            flags: Flags::empty(),
        }
    }

    /// The same with that number for each operation that is still to be offered. Without one each
    /// takes the least that is free.
    pub fn with_number(self, number: u64) -> Sequence<P, T>
        ensures { result ≡ record self { op = numbered number self.op; number = Some number } }
    {
        Sequence {
            op: self.op.with_number(number),
            number: Some(number),
            plan: self.plan,
            given: self.given,
            flags: self.flags,
        }
    }

    /// The same with these flags added to the entry of each operation that is still to be offered.
    pub fn with_flags(self, flags: Flags) -> Sequence<P, T>
        ensures op { result.op ≡ flagged (bits_in flags) self.op }
        ensures flags { bits_in result.flags ≡ bit_or (bits_in self.flags) (bits_in flags) }
        ensures rest { (result.plan ≡ self.plan) × (result.given ≡ self.given) × (result.number ≡ self.number) }
    {
        Sequence {
            op: self.op.with_flags(flags),
            flags: self.flags | flags,
            plan: self.plan,
            given: self.given,
            number: self.number,
        }
    }
}

/// A plan's request, under the sequence's number and with its flags.
fn marked(request: Request, number: Option<u64>, flags: Flags) -> Request
    requires { IsPlaced request }
    ensures marked { result ≡ marked number flags request }
    ensures placed { IsPlaced result }
{
    Request {
        number,
        entry: request.entry.flags(flags),
        ..request
    }
}

impl<P: Plan> Sequence<P, P::Output> {
    ghost use Rattle.rent_engine.specs.Plans.{AsksOn, Followed, KeepsMarks};

    /// Begins the operation that the plan asks for. Where it can't be begun, that ends the plan.
    fn ask_on<R: UserEnds>(
        &mut self,
        alloc: Global,
        engine: &mut Engine<R>,
        request: Request,
    ) -> Poll<P::Output>
        requires placed { IsPlaced request }
        ensures asks { (ts : List Taken) × Offered R.offers_large R.used R.lists R.room R.waiting engine.old.ring ts engine.new.ring
            × AsksOn P.follows self.old request engine.old.ops ts result engine.new.ops self.new }
        ensures pending { is_pending result ≡ waits_on (stage_key self.new.op) (stage_offers self.new.op) engine.new.ops (R.room engine.new.ring) }
        ensures done { stage_over self.new.op ≡ not (is_pending result) }
        ensures kept { KeepsMarks self.old self.new }
        ensures in_flight { KeepsInFlight engine.old.ops engine.new.ops }
        ensures free { R.room engine.new.ring ≤ R.room engine.old.ring }
        ensures spare { engine.old.spare ≤ engine.new.spare + 1 }
        ensures params { engine.new.params ≡ engine.old.params }
    {
        self.op = OneOp::of_request(marked(request, self.number, self.flags));
        let Poll::Ready(refusal) = self.op.poll(alloc, engine) else {
            return Poll::Pending;
        };
        match self.plan.follow(alloc, refusal) {
            PlanStep::Gives(output) => Poll::Ready(output),
            PlanStep::Asks(_) => unreachable!(),
        }
    }

    /// Follows what became of its operation.
    fn follow<R: UserEnds>(
        &mut self,
        alloc: Global,
        engine: &mut Engine<R>,
        answer: OneAnswer,
    ) -> Poll<P::Output>
        requires { stage_over self.old.op ≡ true }
        ensures followed { (ts : List Taken) × Offered R.offers_large R.used R.lists R.room R.waiting engine.old.ring ts engine.new.ring
            × Followed P.follows self.old answer engine.old.ops ts result engine.new.ops self.new }
        ensures pending { is_pending result ≡ waits_on (stage_key self.new.op) (stage_offers self.new.op) engine.new.ops (R.room engine.new.ring) }
        ensures done { stage_over self.new.op ≡ not (is_pending result) }
        ensures kept { KeepsMarks self.old self.new }
        ensures in_flight { KeepsInFlight engine.old.ops engine.new.ops }
        ensures free { R.room engine.new.ring ≤ R.room engine.old.ring }
        ensures spare { engine.old.spare ≤ engine.new.spare + 1 }
        ensures params { engine.new.params ≡ engine.old.params }
    {
        match self.plan.follow(alloc, answer) {
            PlanStep::Gives(output) => Poll::Ready(output),
            PlanStep::Asks(request) => self.ask_on(alloc, engine, request),
        }
    }
}

impl<P: Plan> OpState for Sequence<P, P::Output> {
    ghost use Rattle.rent_engine.specs.Plans.{is_over, SequencePolls};

    type Output = P::Output;

    ghost key = { λ state. stage_key state.op };

    ghost offers = { λ state. stage_offers state.op };

    ghost done = { is_over };

    ghost polls = { SequencePolls P.follows };

    fn poll<R: UserEnds>(&mut self, alloc: Global, engine: &mut Engine<R>) -> Poll<P::Output> {
        if let Some(output) = self.given.take() {
            self.op = OneOp::over();
            return Poll::Ready(output);
        }
        match self.op.poll(alloc, engine) {
            Poll::Pending => Poll::Pending,
            Poll::Ready(answer) => self.follow(alloc, engine, answer),
        }
    }

    fn is_done(&self) -> bool {
        self.op.is_done() && self.given.is_none()
    }
}
