//! States of one operation whose loan is made of paths at the first poll.

ghost use Rattle.std.specs.Prelude.{◌≡◌, ◌+◌, ◌≤◌, not, false, true, List, None, IfOk};
ghost use Rattle.uring_base.specs.FlagBits.{bits_in};
ghost use Rattle.rent_engine.specs.declared.one_op.Stage.TheVariants.{Offers};
ghost use Rattle.rent_engine.specs.OneOp.{stage_over};
ghost use Rattle.rent_fs.specs.PathOps.{path_bytes, path_request, path_stage_flagged, path_stage_key, path_stage_numbered, path_stage_offers, path_stage_over, two_paths, PathPolls};

use rent_engine::{Engine, OneAnswer, OneOp, OpKind, OpState, Poll, Request};
use ring_traits::UserEnds;
use std::alloc::{AllocError, Global};
use std::mem;
use uring_base::Buf;
use uring_base::squeue::{Entry, Flags};

/// What an operation on paths lends.
#[derive(Drop)]
pub enum PathLoan {
    /// An empty path.
    Nothing,
    One(Buf),
    /// Two paths, and a zero byte between them.
    Two(Buf, Buf),
}

/// An operation on paths that wasn't offered yet.
#[derive(Drop)]
pub struct PathRequest {
    pub number: Option<u64>,
    pub entry: Entry,
    pub loan: PathLoan,
}

/// How far an operation on paths has come.
#[derive(Drop)]
pub enum PathStage {
    /// What it lends is still to be made.
    Makes(PathRequest),
    Goes(OneOp),
    Over,
}

/// A state of one operation on paths, which gives its kind's output. What the operation lends is
/// made at the first poll, which gives the output of a want of memory where there is none.
#[derive(Drop)]
pub struct PathOp<K> {
    pub stage: PathStage,
    pub kind: K,
}

fn two_paths(alloc: Global, first: &[u8], second: &[u8]) -> Result<Buf, AllocError>
    ensures { IfOk result (λ buf. buf ≡ two_paths first.now second.now) }
{
    let mut bytes = first.to_vec(alloc)?;
    bytes.push(0)?;
    bytes.extend_from_slice(second)?;
    Ok(Buf::from(bytes))
}

impl PathLoan {
    fn make(self, alloc: Global) -> Result<Buf, AllocError>
        ensures { IfOk result (λ buf. buf ≡ path_bytes self) }
    {
        match self {
            PathLoan::Nothing => Ok(Buf::new(alloc)),
            PathLoan::One(path) => Ok(path),
            PathLoan::Two(first, second) => two_paths(alloc, first.as_slice(), second.as_slice()),
        }
    }
}

impl PathRequest {
    fn make(self, alloc: Global) -> Result<OneOp, AllocError>
        ensures { IfOk result (λ op. op ≡ Offers (path_request self)) }
    {
        let buf = self.loan.make(alloc)?;
        Ok(OneOp::of_request(Request {
            number: self.number,
            entry: self.entry,
            from: 0,
            buf: Some(buf),
        }))
    }
}

impl PathStage {
    fn with_number(self, number: u64) -> PathStage
        ensures { result ≡ path_stage_numbered number self }
    {
        match self {
            PathStage::Makes(request) => PathStage::Makes(PathRequest {
                number: Some(number),
                ..request
            }),
            PathStage::Goes(op) => PathStage::Goes(op.with_number(number)),
            PathStage::Over => PathStage::Over,
        }
    }

    fn with_flags(self, flags: Flags) -> PathStage
        ensures { result ≡ path_stage_flagged (bits_in flags) self }
    {
        match self {
            PathStage::Makes(request) => PathStage::Makes(PathRequest {
                entry: request.entry.flags(flags),
                ..request
            }),
            PathStage::Goes(op) => PathStage::Goes(op.with_flags(flags)),
            PathStage::Over => PathStage::Over,
        }
    }
}

impl<K> PathOp<K> {
    pub(crate) fn new(entry: Entry, loan: PathLoan, kind: K) -> PathOp<K>
        ensures stage { result.stage ≡ PathStage.Makes (record { number = None; entry = entry; loan = loan }) }
        ensures kind { result.kind ≡ kind }
    {
        PathOp {
            stage: PathStage::Makes(PathRequest {
                number: None,
                entry,
                loan,
            }),
            kind,
        }
    }

    /// The same under that number, where it is still to be offered. Without one it takes the least
    /// that is free.
    pub fn with_number(self, number: u64) -> PathOp<K>
        ensures stage { result.stage ≡ path_stage_numbered number self.stage }
        ensures kind { result.kind ≡ self.kind }
    {
        PathOp {
            stage: self.stage.with_number(number),
            kind: self.kind,
        }
    }

    /// The same with these flags added to its entry, where it is still to be offered.
    pub fn with_flags(self, flags: Flags) -> PathOp<K>
        ensures stage { result.stage ≡ path_stage_flagged (bits_in flags) self.stage }
        ensures kind { result.kind ≡ self.kind }
    {
        PathOp {
            stage: self.stage.with_flags(flags),
            kind: self.kind,
        }
    }
}

impl<K: OpKind> PathOp<K> {
    ghost use Rattle.uring_base.specs.declared.events.Taken.{Taken};
    ghost use Rattle.rent_engine.specs.declared.one_op.Stage.{Stage};
    ghost use Rattle.rent_engine.specs.Engines.{Offered};
    ghost use Rattle.rent_engine.specs.OneOp.{PollsAs};
    ghost use Rattle.rent_engine.specs.States.{is_pending, waits_on, KeepsInFlight};

    fn go<R: UserEnds>(
        &mut self,
        alloc: Global,
        engine: &mut Engine<R>,
        mut op: OneOp,
    ) -> Poll<K::Output>
        requires { stage_over op ≡ false }
        ensures polls { (ts : List Taken) × Offered R.offers_large R.used R.lists R.room R.waiting engine.old.ring ts engine.new.ring
            × ((stage : Stage) × PollsAs (K.gives self.old.kind) op engine.old.ops ts result engine.new.ops stage × (self.new.stage ≡ PathStage.Goes stage)) }
        ensures pending { is_pending result ≡ waits_on (path_stage_key self.new.stage) (path_stage_offers self.new.stage) engine.new.ops (R.room engine.new.ring) }
        ensures done { path_stage_over self.new.stage ≡ not (is_pending result) }
        ensures in_flight { KeepsInFlight engine.old.ops engine.new.ops }
        ensures free { R.room engine.new.ring ≤ R.room engine.old.ring }
        ensures spare { engine.old.spare ≤ engine.new.spare + 1 }
        ensures params { engine.new.params ≡ engine.old.params }
    {
        let polled = op.poll(alloc, engine);
        self.stage = PathStage::Goes(op);
        match polled {
            Poll::Pending => Poll::Pending,
            Poll::Ready(answer) => Poll::Ready(self.kind.output(alloc, answer)),
        }
    }
}

impl<K: OpKind> OpState for PathOp<K> {
    type Output = K::Output;

    ghost key = { λ state. path_stage_key state.stage };

    ghost offers = { λ state. path_stage_offers state.stage };

    ghost done = { λ state. path_stage_over state.stage };

    ghost polls = { λ state ops ts answer after next. PathPolls (K.gives state.kind) state.stage ops ts answer after next.stage };

    fn poll<R: UserEnds>(&mut self, alloc: Global, engine: &mut Engine<R>) -> Poll<K::Output> {
        match mem::replace(&mut self.stage, PathStage::Over) {
            PathStage::Makes(request) => match request.make(alloc) {
                Ok(op) => self.go(alloc, engine, op),
                Err(_) => Poll::Ready(self.kind.output(alloc, OneAnswer::NoMemory(None))),
            },
            PathStage::Goes(op) => self.go(alloc, engine, op),
            PathStage::Over => unreachable!(),
        }
    }

    fn is_done(&self) -> bool {
        match &self.stage {
            PathStage::Makes(_) => false,
            PathStage::Goes(op) => op.is_done(),
            PathStage::Over => true,
        }
    }
}
