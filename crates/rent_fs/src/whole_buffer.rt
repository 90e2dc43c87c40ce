//! Moving whole buffers, operation by operation.

ghost use Rattle.std.specs.Prelude.{◌≡◌, ◌≤◌, length};
ghost use Rattle.uring_base.specs.declared.limits.TheConstants.{MAX_BUFFER};
ghost use Rattle.rent_engine.specs.OneOp.{IsPlaced};
ghost use Rattle.rent_engine.specs.Plans.{IfAsks};
ghost use Rattle.rent_fs.specs.WholePlans.{begun, fails, rest_request, whole_error, StepsWith};

use crate::answers::{Left, Progress, WholeFault, after_answer};
use crate::error::FsError;
use crate::moved::or_empty;
use rent_engine::{OneAnswer, OpDone, Plan, PlanStep, Request, Sequence};
use std::alloc::Global;
use uring_base::Buf;
use uring_base::squeue::Entry;

/// What moves a whole buffer: the entry for what is left of it, and how its faults are told.
pub trait Transfer {
    ghost use Rattle.std.specs.Prelude.{◌≡◌, ℕ};
    ghost use Rattle.uring_base.specs.declared.squeue.Entry.{Entry};
    ghost use Rattle.rent_fs.specs.declared.answers.WholeFault.{WholeFault};

    type Error;

    ghost asks: { Self → ℕ → Entry };

    ghost tells: { WholeFault → Self.Error };

    /// The entry of the operation for the last `rest` bytes.
    fn entry(&self, rest: u32) -> Entry
        ensures { result ≡ asks self.now rest };

    fn error(fault: WholeFault) -> Self::Error
        ensures { result ≡ tells fault };
}

/// A buffer that is moved whole: its length, what is left of it, and what moves it.
#[derive(Drop)]
pub struct WholeBuffer<M> {
    pub transfer: M,
    pub len: u32,
    pub left: Left,
}

fn fails<M: Transfer>(fault: WholeFault, buf: Buf) -> PlanStep<(Result<(), M::Error>, Buf)>
    ensures { result ≡ fails M.asks M.tells fault buf }
{
    PlanStep::Gives((Err(M::error(fault)), buf))
}

impl<M: Transfer> WholeBuffer<M> {
    /// One of that length, of which all is left.
    pub(crate) fn new(transfer: M, len: u32) -> WholeBuffer<M>
        ensures { result ≡ record { transfer = transfer; len = len; left = record { rest = len; breaks = 0 } } }
    {
        WholeBuffer {
            transfer,
            len,
            left: Left {
                rest: len,
                breaks: 0,
            },
        }
    }

    /// The operation for what is left.
    pub(crate) fn request(&self, buf: Buf) -> Request
        requires { self.now.len ≡ length buf }
        ensures request { result ≡ rest_request M.asks self.now buf }
        ensures placed { IsPlaced result }
    {
        Request {
            number: None,
            entry: self.transfer.entry(self.left.rest),
            from: self.len.saturating_sub(self.left.rest),
            buf: Some(buf),
        }
    }

    /// Takes the result of its operation.
    pub(crate) fn take(
        &mut self,
        alloc: Global,
        done: OpDone,
    ) -> PlanStep<(Result<(), M::Error>, Buf)>
        ensures steps { StepsWith M.asks M.tells self.old done.result done.buf result self.new }
        ensures placed { IfAsks result IsPlaced }
    {
        let OpDone {
            result: code,
            flags: _,
            buf,
            quiet: _,
        } = done;
        let Some(buf) = buf else {
            return fails::<M>(WholeFault::KeyLost, Buf::new(alloc));
        };
        match after_answer(self.len, self.left, code, buf.len()) {
            Progress::Going(left) => {
                self.left = left;
                PlanStep::Asks(self.request(buf))
            }
            Progress::Whole => PlanStep::Gives((Ok(()), buf)),
            Progress::Failed(fault) => fails::<M>(fault, buf),
        }
    }
}

impl<M: Transfer> Plan for WholeBuffer<M> {
    ghost use Rattle.rent_fs.specs.WholePlans.{FollowsWhole};

    type Output = (Result<(), M::Error>, Buf);

    ghost follows = { FollowsWhole M.asks M.tells };

    fn follow(
        &mut self,
        alloc: Global,
        answer: OneAnswer,
    ) -> PlanStep<(Result<(), M::Error>, Buf)> {
        match answer {
            OneAnswer::Done(done) => self.take(alloc, done),
            OneAnswer::InUse(buf) => fails::<M>(WholeFault::KeyInUse, or_empty(alloc, buf)),
            OneAnswer::NoMemory(buf) => fails::<M>(WholeFault::NoMemory, or_empty(alloc, buf)),
            OneAnswer::Lost => fails::<M>(WholeFault::KeyLost, Buf::new(alloc)),
        }
    }
}

/// A state that moves a whole buffer. An empty one comes back at once.
pub fn begin<M: Transfer>(
    transfer: M,
    buf: Buf,
) -> Sequence<WholeBuffer<M>, (Result<(), M::Error>, Buf)>
    requires { length buf ≤ MAX_BUFFER }
    ensures { result ≡ begun M.asks transfer buf }
{
    let len = buf.len() as u32;
    let plan = WholeBuffer::new(transfer, len);
    if len == 0 {
        return Sequence::of_output(plan, (Ok(()), buf));
    }
    let request = plan.request(buf);
    Sequence::of_request(plan, request)
}

/// A fault as an error of files, where a count of 0 is this error.
pub(crate) fn whole_error(fault: WholeFault, nothing: FsError) -> FsError
    ensures { result ≡ whole_error nothing fault }
{
    match fault {
        WholeFault::Os(errno) => FsError::Os(errno),
        WholeFault::Nothing => nothing,
        WholeFault::Interrupted => FsError::Interrupted,
        WholeFault::BadCount => FsError::BadCount,
        WholeFault::KeyInUse => FsError::KeyInUse,
        WholeFault::KeyLost => FsError::KeyLost,
        WholeFault::NoMemory => FsError::NoMemory,
    }
}
