//! One operation, from its request to its result.

ghost use Rattle.std.specs.Prelude.{◌≡◌, ◌+◌, ◌≤◌, ℕ, not, false, List, None};
ghost use Rattle.uring_base.specs.declared.events.Taken.{Taken};
ghost use Rattle.uring_base.specs.FlagBits.{bits_in};
ghost use Rattle.rent_engine.specs.Engines.{Offered};
ghost use Rattle.rent_engine.specs.OneOp.{addressed, numbered, flagged, stage_key, stage_offers, stage_over, IsItsNumber, IsPlaced, OneStep};
ghost use Rattle.rent_engine.specs.States.{is_pending, waits_on, KeepsInFlight};

use crate::engine::Engine;
use crate::fault::StartFault;
use crate::ops::{OpKey, OpPoll};
use crate::state::{OpState, Poll};
use rent_table::OpDone;
use ring_traits::UserEnds;
use std::alloc::Global;
use std::marker::Model;
use std::mem;
use uring_base::Buf;
use uring_base::squeue::{Entry, Flags};

/// An operation that is still to be offered: its number, if one was given, its entry, and the
/// buffer that it lends.
#[derive(Drop)]
pub struct Request {
    pub number: Option<u64>,
    pub entry: Entry,
    /// The place in the buffer from which the operation acts, at most the buffer's length.
    pub from: u32,
    pub buf: Option<Buf>,
}

/// How far an operation has come.
#[derive(Drop)]
pub enum Stage {
    Offers(Request),
    Waits(OpKey),
    Over,
}

/// What became of an operation. A buffer that wasn't lent comes back.
#[derive(Drop)]
pub enum OneAnswer {
    Done(OpDone),
    /// Its number is in use.
    InUse(Option<Buf>),
    NoMemory(Option<Buf>),
    /// The engine doesn't know its key.
    Lost,
}

/// The state of one operation: it is offered as soon as there is room, and then waits for its
/// result. Without a number of its own it takes the least that is free. Where it lends a buffer,
/// the loan's number is its entry's address.
#[derive(Drop)]
pub struct OneOp {
    stage: Stage,
}

impl Model for OneOp {
    ghost use Rattle.rent_engine.specs.declared.one_op.Stage.{Stage};
    ghost use Rattle.rent_engine.specs.OneOp.{StageIsPlaced};

    ghost Value = { Stage };

    ghost view = { λ op. op.stage };

    ghost invariant = { λ op. StageIsPlaced op.stage };
}

impl OneOp {
    /// The operation acts from the front of its buffer on.
    pub fn new(entry: Entry, buf: Option<Buf>) -> OneOp
        ensures { result ≡ Stage.Offers (record { number = None; entry = entry; from = 0; buf = buf }) }
    {
        OneOp::of_request(Request {
            number: None,
            entry,
            from: 0,
            buf,
        })
    }

    pub fn of_request(request: Request) -> OneOp
        requires { IsPlaced request }
        ensures { result ≡ Stage.Offers request }
    {
        OneOp {
            stage: Stage::Offers(request),
        }
    }

    /// One that is over.
    pub(crate) fn over() -> OneOp
        ensures { result ≡ Stage.Over }
    {
        OneOp { stage: Stage::Over }
    }

    /// The same under that number, where it is still to be offered.
    pub fn with_number(self, number: u64) -> OneOp
        ensures { result ≡ numbered number self }
    {
        match self.stage {
            Stage::Offers(request) => OneOp {
                stage: Stage::Offers(Request {
                    number: Some(number),
                    ..request
                }),
            },
            stage => OneOp { stage },
        }
    }

    /// The same with these flags added to its entry, where it is still to be offered.
    pub fn with_flags(self, flags: Flags) -> OneOp
        ensures { result ≡ flagged (bits_in flags) self }
    {
        match self.stage {
            Stage::Offers(request) => OneOp {
                stage: Stage::Offers(Request {
                    entry: request.entry.flags(flags),
                    ..request
                }),
            },
            stage => OneOp { stage },
        }
    }

    fn begin<R: UserEnds>(
        &mut self,
        alloc: Global,
        engine: &mut Engine<R>,
        request: Request,
    ) -> Poll<OneAnswer>
        requires over { self.old ≡ Stage.Over }
        requires placed { IsPlaced request }
        ensures polls { (ts : List Taken) × Offered R.offers_large R.used R.lists R.room R.waiting engine.old.ring ts engine.new.ring
            × OneStep (Stage.Offers request) engine.old.ops ts result engine.new.ops self.new }
        ensures pending { is_pending result ≡ waits_on (stage_key self.new) (stage_offers self.new) engine.new.ops (R.room engine.new.ring) }
        ensures done { stage_over self.new ≡ not (is_pending result) }
        ensures in_flight { KeepsInFlight engine.old.ops engine.new.ops }
        ensures free { R.room engine.new.ring ≤ R.room engine.old.ring }
        ensures spare { engine.old.spare ≤ engine.new.spare + 1 }
        ensures params { engine.new.params ≡ engine.old.params }
        ensures ready { is_pending result ≡ false → (engine.new.ring ≡ engine.old.ring) × (engine.old.spare ≤ engine.new.spare) }
    {
        if request.number.is_none() && engine.free() == 0 {
            self.stage = Stage::Offers(request);
            return Poll::Pending;
        }
        let Request {
            number: given,
            entry,
            from,
            buf,
        } = request;
        let number = its_number(given, engine);
        let addressed_entry = addressed(entry, number, &buf);
        match engine.start(alloc, number, addressed_entry, from, buf) {
            Ok(key) => {
                self.stage = Stage::Waits(key);
                Poll::Pending
            }
            Err(StartFault::RingFull(buf)) => {
                self.stage = Stage::Offers(Request {
                    number: given,
                    entry,
                    from,
                    buf,
                });
                Poll::Pending
            }
            Err(StartFault::KeyInUse(buf)) => Poll::Ready(OneAnswer::InUse(buf)),
            Err(StartFault::NoMemory(buf)) => Poll::Ready(OneAnswer::NoMemory(buf)),
        }
    }

    fn look<R: UserEnds>(&mut self, engine: &mut Engine<R>, key: OpKey) -> Poll<OneAnswer>
        requires { self.old ≡ Stage.Over }
        ensures polls { (ts : List Taken) × Offered R.offers_large R.used R.lists R.room R.waiting engine.old.ring ts engine.new.ring
            × OneStep (Stage.Waits key) engine.old.ops ts result engine.new.ops self.new }
        ensures pending { is_pending result ≡ waits_on (stage_key self.new) (stage_offers self.new) engine.new.ops (R.room engine.new.ring) }
        ensures done { stage_over self.new ≡ not (is_pending result) }
        ensures in_flight { KeepsInFlight engine.old.ops engine.new.ops }
        ensures free { R.room engine.new.ring ≤ R.room engine.old.ring }
        ensures spare { engine.old.spare ≤ engine.new.spare + 1 }
        ensures params { engine.new.params ≡ engine.old.params }
        ensures ready { is_pending result ≡ false → (engine.new.ring ≡ engine.old.ring) × (engine.old.spare ≤ engine.new.spare) }
    {
        match engine.poll(key) {
            OpPoll::Pending(key) => {
                self.stage = Stage::Waits(key);
                Poll::Pending
            }
            OpPoll::Lost(_) => Poll::Ready(OneAnswer::Lost),
            OpPoll::Ready(done) => Poll::Ready(OneAnswer::Done(done)),
        }
    }
}

impl OpState for OneOp {
    type Output = OneAnswer;

    ghost key = { stage_key };

    ghost offers = { stage_offers };

    ghost done = { stage_over };

    ghost polls = { OneStep };

    fn poll<R: UserEnds>(&mut self, alloc: Global, engine: &mut Engine<R>) -> Poll<OneAnswer>
        requires { stage_over self.old ≡ false }
        ensures polls { (ts : List Taken) × Offered R.offers_large R.used R.lists R.room R.waiting engine.old.ring ts engine.new.ring
            × OneStep self.old engine.old.ops ts result engine.new.ops self.new }
        ensures pending { is_pending result ≡ waits_on (stage_key self.new) (stage_offers self.new) engine.new.ops (R.room engine.new.ring) }
        ensures done { stage_over self.new ≡ not (is_pending result) }
        ensures in_flight { KeepsInFlight engine.old.ops engine.new.ops }
        ensures free { R.room engine.new.ring ≤ R.room engine.old.ring }
        ensures spare { engine.old.spare ≤ engine.new.spare + 1 }
        ensures params { engine.new.params ≡ engine.old.params }
        // A poll that is done does nothing to the ring.
        ensures ready { is_pending result ≡ false → (engine.new.ring ≡ engine.old.ring) × (engine.old.spare ≤ engine.new.spare) }
    {
        match mem::replace(&mut self.stage, Stage::Over) {
            Stage::Offers(request) => self.begin(alloc, engine, request),
            Stage::Waits(key) => self.look(engine, key),
            Stage::Over => unreachable!(),
        }
    }

    fn is_done(&self) -> bool {
        matches!(self.stage, Stage::Over)
    }
}

/// The number that was given, or the least that is free.
fn its_number<R: UserEnds>(given: Option<u64>, engine: &Engine<R>) -> u64
    ensures { IsItsNumber given engine.now.ops result }
{
    match given {
        Some(number) => number,
        None => engine.fresh(),
    }
}

/// The entry of an operation under that number.
fn addressed(entry: Entry, number: u64, buf: &Option<Buf>) -> Entry
    ensures { result ≡ addressed number buf.now entry }
{
    match buf {
        Some(_) => Entry {
            addr: number,
            ..entry
        },
        None => entry,
    }
}
