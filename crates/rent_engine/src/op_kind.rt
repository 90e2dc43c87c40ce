//! States of one operation, by what they give.

ghost use Rattle.std.specs.Prelude.{◌≡◌, ◌+◌, ◌≤◌, not, false, true, List, None};
ghost use Rattle.uring_base.specs.FlagBits.{bits_in};
ghost use Rattle.rent_engine.specs.OneOp.{flagged, numbered, stage_key, stage_offers, stage_over};

use crate::engine::Engine;
use crate::one_op::{OneAnswer, OneOp};
use crate::state::{OpState, Poll};
use ring_traits::UserEnds;
use std::alloc::Global;
use uring_base::Buf;
use uring_base::squeue::{Entry, Flags};

/// What a state of one operation gives: an output, by what the kind keeps and by what became of
/// the operation.
pub trait OpKind {
    ghost use Rattle.rent_engine.specs.declared.one_op.OneAnswer.{OneAnswer};

    type Output;

    ghost gives: { Self → OneAnswer → Self.Output };

    // What holds of every output.
    ghost bounds: { Self.Output → Type 0 };

    /// The output of this answer. It is asked for once.
    fn output(&mut self, alloc: Global, answer: OneAnswer) -> Self::Output
        ensures gives { result ≡ gives self.old answer }
        ensures bounds { bounds result };
}

/// A state of one operation, which gives its kind's output.
#[derive(Drop)]
pub struct SingleOp<K> {
    pub op: OneOp,
    pub kind: K,
}

impl<K> SingleOp<K> {
    ghost use Rattle.rent_engine.specs.declared.one_op.Stage.TheVariants.{Offers};

    /// The operation acts from the front of its buffer on.
    pub fn new(entry: Entry, buf: Option<Buf>, kind: K) -> SingleOp<K>
        ensures op { result.op ≡ Offers (record { number = None; entry = entry; from = 0; buf = buf }) }
        ensures kind { result.kind ≡ kind }
    {
        SingleOp {
            op: OneOp::new(entry, buf),
            kind,
        }
    }

    /// The same under that number, where it is still to be offered. Without one it takes the least
    /// that is free.
    pub fn with_number(self, number: u64) -> SingleOp<K>
        ensures op { result.op ≡ numbered number self.op }
        ensures kind { result.kind ≡ self.kind }
    {
        SingleOp {
            op: self.op.with_number(number),
            kind: self.kind,
        }
    }

    /// The same with these flags added to its entry, where it is still to be offered.
    pub fn with_flags(self, flags: Flags) -> SingleOp<K>
        ensures op { result.op ≡ flagged (bits_in flags) self.op }
        ensures kind { result.kind ≡ self.kind }
    {
        SingleOp {
            op: self.op.with_flags(flags),
            kind: self.kind,
        }
    }
}

impl<K: OpKind> OpState for SingleOp<K> {
    ghost use Rattle.uring_base.specs.declared.events.Taken.{Taken};
    ghost use Rattle.rent_engine.specs.Engines.{Offered};
    ghost use Rattle.rent_engine.specs.OneOp.{PollsAs};
    ghost use Rattle.rent_engine.specs.States.{is_pending, waits_on, KeepsInFlight, IfReady};

    type Output = K::Output;

    ghost key = { λ state. stage_key state.op };

    ghost offers = { λ state. stage_offers state.op };

    ghost done = { λ state. stage_over state.op };

    ghost polls = { λ state ops ts answer after next. PollsAs (K.gives state.kind) state.op ops ts answer after next.op };

    fn poll<R: UserEnds>(&mut self, alloc: Global, engine: &mut Engine<R>) -> Poll<K::Output>
        requires { stage_over self.old.op ≡ false }
        ensures polls { (ts : List Taken) × Offered R.offers_large R.used R.lists R.room R.waiting engine.old.ring ts engine.new.ring
            × PollsAs (K.gives self.old.kind) self.old.op engine.old.ops ts result engine.new.ops self.new.op }
        ensures pending { is_pending result ≡ waits_on (stage_key self.new.op) (stage_offers self.new.op) engine.new.ops (R.room engine.new.ring) }
        ensures done { stage_over self.new.op ≡ not (is_pending result) }
        ensures in_flight { KeepsInFlight engine.old.ops engine.new.ops }
        ensures free { R.room engine.new.ring ≤ R.room engine.old.ring }
        ensures spare { engine.old.spare ≤ engine.new.spare + 1 }
        ensures params { engine.new.params ≡ engine.old.params }
        ensures bounds { IfReady result K.bounds }
        ensures kind { is_pending result ≡ true → self.new.kind ≡ self.old.kind }
    {
        match self.op.poll(alloc, engine) {
            Poll::Pending => Poll::Pending,
            Poll::Ready(answer) => Poll::Ready(self.kind.output(alloc, answer)),
        }
    }

    fn is_done(&self) -> bool {
        self.op.is_done()
    }
}
