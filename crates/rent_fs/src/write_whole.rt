//! Writing whole files.

ghost use Rattle.std.specs.Prelude.{◌≡◌, ◌≤◌, length};
ghost use Rattle.uring_base.specs.declared.limits.TheConstants.{MAX_BUFFER};
ghost use Rattle.rent_engine.specs.Plans.{IfAsks};
ghost use Rattle.rent_engine.specs.OneOp.{IsPlaced};
ghost use Rattle.rent_fs.specs.WholeFiles.{is_at_once};
ghost use Rattle.rent_fs.specs.WriteFiles.{write_ends, writes_whole, WriteCloses, WriteFails, WriteMoves, WriteOpens, WriteTakes, WriteWrites};

use crate::error::FsError;
use crate::file::File;
use crate::moved::or_empty;
use crate::open::{open_request, opened};
use crate::open_options::NEW_FILE_MODE;
use crate::read_whole::{close_request, is_at_once};
use crate::whole_buffer::WholeBuffer;
use crate::write_all_at::WholeWrite;
use rent_engine::{OneAnswer, OpDone, Plan, PlanStep, Sequence};
use std::alloc::Global;
use std::mem;
use uring_base::Buf;
use uring_base::errno::EFBIG;
use uring_base::fcntl::{O_CLOEXEC, O_CREAT, O_TRUNC, O_WRONLY};
use uring_base::limits::MAX_BUFFER;

/// A write of a whole file: it is opened, made or emptied, written and closed. Its output is that
/// it is done, or why it isn't, and the bytes.
pub type WriteWhole = Sequence<WholeFileWrite, (Result<(), FsError>, Buf)>;

/// How far a write of a whole file has come.
#[derive(Drop)]
pub enum WholeFileWrite {
    /// With what is to be written.
    Opens(Buf),
    Writes(File, WholeBuffer<WholeWrite>),
    /// This is given once the file is closed.
    Closes(Result<(), FsError>, Buf),
}

impl WholeFileWrite {
    fn close(
        &mut self,
        file: File,
        kept: Result<(), FsError>,
        buf: Buf,
    ) -> PlanStep<(Result<(), FsError>, Buf)>
        ensures steps { WriteCloses file kept buf result self.new }
        ensures placed { IfAsks result IsPlaced }
    {
        *self = WholeFileWrite::Closes(kept, buf);
        PlanStep::Asks(close_request(file))
    }

    fn fail(&mut self, file: File, error: FsError, buf: Buf) -> PlanStep<(Result<(), FsError>, Buf)>
        ensures steps { WriteFails (is_at_once error) file error buf result self.new }
        ensures placed { IfAsks result IsPlaced }
    {
        if is_at_once(error) {
            PlanStep::Gives((Err(error), buf))
        } else {
            self.close(file, Err(error), buf)
        }
    }

    /// Writes this buffer, which isn't empty.
    fn write(&mut self, file: File, buf: Buf) -> PlanStep<(Result<(), FsError>, Buf)>
        requires { length buf ≤ MAX_BUFFER }
        ensures steps { WriteWrites file buf result self.new }
        ensures placed { IfAsks result IsPlaced }
    {
        let len = buf.len() as u32;
        let whole = WholeBuffer::new(WholeWrite::from_front(file.number(), len), len);
        let request = whole.request(buf);
        *self = WholeFileWrite::Writes(file, whole);
        PlanStep::Asks(request)
    }

    fn open(
        &mut self,
        opened: Result<File, FsError>,
        contents: Buf,
    ) -> PlanStep<(Result<(), FsError>, Buf)>
        ensures steps { WriteOpens contents opened result self.new }
        ensures placed { IfAsks result IsPlaced }
    {
        match opened {
            Err(error) => PlanStep::Gives((Err(error), contents)),
            Ok(file) => {
                if contents.len() > MAX_BUFFER {
                    self.close(file, Err(FsError::Os(EFBIG.cast_unsigned())), contents)
                } else if contents.len() == 0 {
                    self.close(file, Ok(()), contents)
                } else {
                    self.write(file, contents)
                }
            }
        }
    }

    /// Goes on by a step of the whole buffer.
    fn go_on(
        &mut self,
        file: File,
        whole: WholeBuffer<WholeWrite>,
        step: PlanStep<(Result<(), FsError>, Buf)>,
    ) -> PlanStep<(Result<(), FsError>, Buf)>
        requires { IfAsks step IsPlaced }
        ensures steps { WriteMoves file whole step result self.new }
        ensures placed { IfAsks result IsPlaced }
    {
        match step {
            PlanStep::Asks(request) => {
                *self = WholeFileWrite::Writes(file, whole);
                PlanStep::Asks(request)
            }
            PlanStep::Gives((Ok(()), buf)) => self.close(file, Ok(()), buf),
            PlanStep::Gives((Err(error), buf)) => self.fail(file, error, buf),
        }
    }

    /// Takes the result of its operation.
    fn take(&mut self, alloc: Global, done: OpDone) -> PlanStep<(Result<(), FsError>, Buf)>
        ensures steps { WriteTakes self.old done.result done.buf result self.new }
        ensures placed { IfAsks result IsPlaced }
    {
        match mem::replace(self, WholeFileWrite::Opens(Buf::new(alloc))) {
            WholeFileWrite::Opens(contents) => self.open(opened(OneAnswer::Done(done)), contents),
            WholeFileWrite::Writes(file, mut whole) => {
                let step = whole.take(alloc, done);
                self.go_on(file, whole, step)
            }
            WholeFileWrite::Closes(kept, buf) => PlanStep::Gives((kept, buf)),
        }
    }

    /// It ends at once, and what is to be written comes back; `lent` is the buffer that wasn't lent.
    fn end(
        &mut self,
        alloc: Global,
        error: FsError,
        lent: Option<Buf>,
    ) -> PlanStep<(Result<(), FsError>, Buf)>
        ensures { result ≡ write_ends self.old error lent }
    {
        match mem::replace(self, WholeFileWrite::Opens(Buf::new(alloc))) {
            WholeFileWrite::Opens(contents) => PlanStep::Gives((Err(error), contents)),
            WholeFileWrite::Writes(_, _) => PlanStep::Gives((Err(error), or_empty(alloc, lent))),
            WholeFileWrite::Closes(_, buf) => PlanStep::Gives((Err(error), buf)),
        }
    }
}

impl Plan for WholeFileWrite {
    ghost use Rattle.rent_fs.specs.WriteFiles.{FollowsWrite};

    type Output = (Result<(), FsError>, Buf);

    ghost follows = { FollowsWrite };

    fn follow(&mut self, alloc: Global, answer: OneAnswer) -> PlanStep<(Result<(), FsError>, Buf)> {
        match answer {
            OneAnswer::Done(done) => self.take(alloc, done),
            OneAnswer::InUse(buf) => self.end(alloc, FsError::KeyInUse, buf),
            OneAnswer::NoMemory(buf) => self.end(alloc, FsError::NoMemory, buf),
            OneAnswer::Lost => self.end(alloc, FsError::KeyLost, None),
        }
    }
}

/// A write of the whole file of that path.
pub(crate) fn write_whole(path: Buf, contents: Buf) -> WriteWhole
    ensures { result ≡ writes_whole path contents }
{
    let bits = O_CLOEXEC | O_WRONLY | O_CREAT | O_TRUNC;
    let request = open_request(bits, NEW_FILE_MODE, path);
    Sequence::of_request(WholeFileWrite::Opens(contents), request)
}
