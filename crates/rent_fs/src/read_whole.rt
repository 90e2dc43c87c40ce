//! Reading whole files.

ghost use Rattle.std.specs.Prelude.{◌≡◌, ◌≤◌, length};
ghost use Rattle.uring_base.specs.declared.limits.TheConstants.{MAX_BUFFER};
ghost use Rattle.rent_engine.specs.Plans.{IfAsks};
ghost use Rattle.rent_engine.specs.OneOp.{IsPlaced};
ghost use Rattle.rent_fs.specs.WholeFiles.{close_request, is_at_once, stat_request};
ghost use Rattle.rent_fs.specs.ReadFiles.{reads_whole, ReadCloses, ReadFails, ReadMoves, ReadOpens, ReadReads, ReadSizes, ReadStats, ReadTakes};

use crate::error::FsError;
use crate::file::File;
use crate::open::{close_entry, open_request, opened};
use crate::open_options::NEW_FILE_MODE;
use crate::read_exact_at::WholeRead;
use crate::stats::{stat_file_entry, stated};
use crate::whole_buffer::WholeBuffer;
use rent_engine::{OneAnswer, OpDone, Plan, PlanStep, Request, Sequence};
use std::alloc::Global;
use std::mem;
use uring_base::Buf;
use uring_base::errno::EFBIG;
use uring_base::fcntl::{O_CLOEXEC, O_RDONLY};
use uring_base::limits::MAX_BUFFER;

/// A read of a whole file: it is opened, asked for its size, read and closed. Its output is its
/// bytes, as many as its size was, or why they weren't read.
pub type ReadWhole = Sequence<WholeFileRead, Result<Buf, FsError>>;

/// How far a read of a whole file has come.
#[derive(Drop)]
pub enum WholeFileRead {
    Opens,
    Stats(File),
    Reads(File, WholeBuffer<WholeRead>),
    /// This is given once the file is closed.
    Closes(Result<Buf, FsError>),
}

/// A file whose work ends so is left as it is, and not closed.
pub(crate) fn is_at_once(error: FsError) -> bool
    ensures { result ≡ is_at_once error }
{
    match error {
        FsError::KeyInUse | FsError::KeyLost | FsError::NoMemory => true,
        FsError::Os(_)
        | FsError::UnexpectedEof
        | FsError::WriteZero
        | FsError::Interrupted
        | FsError::BadCount
        | FsError::WholeTree
        | FsError::NoBirthTime
        | FsError::RingFull
        | FsError::Stranger(_) => false,
    }
}

/// The operation that closes a file.
pub(crate) fn close_request(file: File) -> Request
    ensures request { result ≡ close_request file }
    ensures placed { IsPlaced result }
{
    Request {
        number: None,
        entry: close_entry(file.number()),
        from: 0,
        buf: None,
    }
}

/// The operation that asks what a file is.
fn stat_request(alloc: Global, file: File) -> Request
    ensures request { result ≡ stat_request file }
    ensures placed { IsPlaced result }
{
    Request {
        number: None,
        entry: stat_file_entry(file.number()),
        from: 0,
        buf: Some(Buf::new(alloc)),
    }
}

impl WholeFileRead {
    fn close(&mut self, file: File, kept: Result<Buf, FsError>) -> PlanStep<Result<Buf, FsError>>
        ensures steps { ReadCloses file kept result self.new }
        ensures placed { IfAsks result IsPlaced }
    {
        *self = WholeFileRead::Closes(kept);
        PlanStep::Asks(close_request(file))
    }

    fn fail(&mut self, file: File, error: FsError) -> PlanStep<Result<Buf, FsError>>
        ensures steps { ReadFails (is_at_once error) file error result self.new }
        ensures placed { IfAsks result IsPlaced }
    {
        if is_at_once(error) {
            PlanStep::Gives(Err(error))
        } else {
            self.close(file, Err(error))
        }
    }

    /// Reads into this buffer, which isn't empty.
    fn read(&mut self, file: File, buf: Buf) -> PlanStep<Result<Buf, FsError>>
        requires { length buf ≤ MAX_BUFFER }
        ensures steps { ReadReads file buf result self.new }
        ensures placed { IfAsks result IsPlaced }
    {
        let len = buf.len() as u32;
        let whole = WholeBuffer::new(WholeRead::from_front(file.number(), len), len);
        let request = whole.request(buf);
        *self = WholeFileRead::Reads(file, whole);
        PlanStep::Asks(request)
    }

    /// Goes on by the size of the file.
    fn size(&mut self, alloc: Global, file: File, size: u64) -> PlanStep<Result<Buf, FsError>>
        ensures steps { ReadSizes file size result self.new }
        ensures placed { IfAsks result IsPlaced }
    {
        if size > MAX_BUFFER as u64 {
            return self.close(file, Err(FsError::Os(EFBIG.cast_unsigned())));
        }
        if size == 0 {
            return self.close(file, Ok(Buf::new(alloc)));
        }
        match Buf::zeroed(alloc, size as usize) {
            Ok(buf) => self.read(file, buf),
            Err(_) => PlanStep::Gives(Err(FsError::NoMemory)),
        }
    }

    fn open(
        &mut self,
        alloc: Global,
        opened: Result<File, FsError>,
    ) -> PlanStep<Result<Buf, FsError>>
        ensures steps { ReadOpens opened result self.new }
        ensures placed { IfAsks result IsPlaced }
    {
        match opened {
            Err(error) => PlanStep::Gives(Err(error)),
            Ok(file) => {
                *self = WholeFileRead::Stats(file);
                PlanStep::Asks(stat_request(alloc, file))
            }
        }
    }

    fn stat(
        &mut self,
        alloc: Global,
        file: File,
        answer: OneAnswer,
    ) -> PlanStep<Result<Buf, FsError>>
        ensures steps { ReadStats file answer result self.new }
        ensures placed { IfAsks result IsPlaced }
    {
        match stated(answer) {
            Err(error) => self.fail(file, error),
            Ok(metadata) => self.size(alloc, file, metadata.size()),
        }
    }

    /// Goes on by a step of the whole buffer.
    fn go_on(
        &mut self,
        file: File,
        whole: WholeBuffer<WholeRead>,
        step: PlanStep<(Result<(), FsError>, Buf)>,
    ) -> PlanStep<Result<Buf, FsError>>
        requires { IfAsks step IsPlaced }
        ensures steps { ReadMoves file whole step result self.new }
        ensures placed { IfAsks result IsPlaced }
    {
        match step {
            PlanStep::Asks(request) => {
                *self = WholeFileRead::Reads(file, whole);
                PlanStep::Asks(request)
            }
            PlanStep::Gives((Ok(()), buf)) => self.close(file, Ok(buf)),
            PlanStep::Gives((Err(error), _)) => self.fail(file, error),
        }
    }

    /// Takes the result of its operation.
    fn take(&mut self, alloc: Global, done: OpDone) -> PlanStep<Result<Buf, FsError>>
        ensures steps { ReadTakes self.old done.result done.buf result self.new }
        ensures placed { IfAsks result IsPlaced }
    {
        match mem::replace(self, WholeFileRead::Opens) {
            WholeFileRead::Opens => self.open(alloc, opened(OneAnswer::Done(done))),
            WholeFileRead::Stats(file) => self.stat(alloc, file, OneAnswer::Done(done)),
            WholeFileRead::Reads(file, mut whole) => {
                let step = whole.take(alloc, done);
                self.go_on(file, whole, step)
            }
            WholeFileRead::Closes(kept) => PlanStep::Gives(kept),
        }
    }
}

impl Plan for WholeFileRead {
    ghost use Rattle.rent_fs.specs.ReadFiles.{FollowsRead};

    type Output = Result<Buf, FsError>;

    ghost follows = { FollowsRead };

    fn follow(&mut self, alloc: Global, answer: OneAnswer) -> PlanStep<Result<Buf, FsError>> {
        match answer {
            OneAnswer::Done(done) => self.take(alloc, done),
            OneAnswer::InUse(_) => PlanStep::Gives(Err(FsError::KeyInUse)),
            OneAnswer::NoMemory(_) => PlanStep::Gives(Err(FsError::NoMemory)),
            OneAnswer::Lost => PlanStep::Gives(Err(FsError::KeyLost)),
        }
    }
}

/// A read of the whole file of that path.
pub(crate) fn read_whole(path: Buf) -> ReadWhole
    ensures { result ≡ reads_whole path }
{
    let request = open_request(O_CLOEXEC | O_RDONLY, NEW_FILE_MODE, path);
    Sequence::of_request(WholeFileRead::Opens, request)
}
