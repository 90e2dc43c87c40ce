//! Making directories.

ghost use Rattle.std.specs.Prelude.{◌≡◌, true, IfErr, IfOk};
ghost use Rattle.rent_engine.specs.Plans.{IfAsks};
ghost use Rattle.rent_engine.specs.OneOp.{IsPlaced};
ghost use Rattle.uring_base.specs.declared.stat.TheConstants.{S_PERMISSIONS};
ghost use Rattle.rent_fs.specs.Creation.{is_try, made};
ghost use Rattle.rent_fs.specs.MakeDirs.{makes_dir, MakesBy, MovesTo};
ghost use Rattle.rent_fs.specs.Stats.{is_directory, metadata_of};

use crate::creation::{Creation, mk_dir_entry};
use crate::error::FsError;
use crate::lent::lent;
use crate::metadata::Metadata;
use crate::synced::of_code;
use rent_engine::{OneAnswer, Plan, PlanStep, Request, Sequence};
use std::alloc::{AllocError, Global};
use std::mem;
use uring_base::Buf;
use uring_base::stat::S_PERMISSIONS;

/// A creation of a directory. Its output is that it is done, or why it isn't.
pub type MakeDir = Sequence<Making, Result<(), FsError>>;

/// How a directory is made.
#[derive(Drop)]
pub enum Making {
    /// It alone.
    Plain,
    /// With those above it that are missing, with this mode; the whole path is lent.
    First(u32),
    /// With those above it, so far.
    Goes(Creation),
}

/// Whether a stat's bytes say directory.
fn says_directory(buf: &Buf) -> bool
    ensures { result ≡ is_directory (metadata_of buf.now) }
{
    Metadata::from_bytes(buf.as_slice()).is_dir()
}

impl Making {
    /// What a result leads to, where there is memory for it.
    fn try_advance(
        &mut self,
        alloc: Global,
        mut creation: Creation,
        code: i32,
        is_dir: bool,
    ) -> Result<PlanStep<Result<(), FsError>>, AllocError>
        ensures steps { IfOk result (λ step. MovesTo (made creation creation.phase code is_dir) step self.new) }
        ensures lacks { IfErr result (λ _. is_try (made creation creation.phase code is_dir) ≡ true) }
        ensures placed { IfOk result (λ step. IfAsks step IsPlaced) }
    {
        match creation.made(code, is_dir)? {
            Some(output) => Ok(PlanStep::Gives(output)),
            None => {
                let request = creation.request(alloc)?;
                *self = Making::Goes(creation);
                Ok(PlanStep::Asks(request))
            }
        }
    }

    /// What a result leads to.
    #[tactic(auto, using(crate::proofs::MakingLemmas::lacks))]
    fn advance(
        &mut self,
        alloc: Global,
        creation: Creation,
        code: i32,
        is_dir: bool,
    ) -> PlanStep<Result<(), FsError>>
        ensures steps { MovesTo (made creation creation.phase code is_dir) result self.new }
        ensures placed { IfAsks result IsPlaced }
    {
        match self.try_advance(alloc, creation, code, is_dir) {
            Ok(step) => step,
            Err(_) => PlanStep::Gives(Err(FsError::NoMemory)),
        }
    }

    /// What a result leads to, where a stat's bytes may have come back.
    fn go_on(
        &mut self,
        alloc: Global,
        creation: Creation,
        code: i32,
        buf: Buf,
    ) -> PlanStep<Result<(), FsError>>
        ensures steps { MovesTo (made creation creation.phase code (is_directory (metadata_of buf))) result self.new }
        ensures placed { IfAsks result IsPlaced }
    {
        let is_dir = says_directory(&buf);
        self.advance(alloc, creation, code, is_dir)
    }

    fn take(&mut self, alloc: Global, code: i32, buf: Buf) -> PlanStep<Result<(), FsError>>
        ensures steps { MakesBy self.old code buf result self.new }
        ensures placed { IfAsks result IsPlaced }
    {
        match mem::replace(self, Making::Plain) {
            Making::Plain => PlanStep::Gives(of_code(code)),
            Making::First(mode) => {
                let creation = Creation::of_path(alloc, buf, mode);
                self.advance(alloc, creation, code, false)
            }
            Making::Goes(creation) => self.go_on(alloc, creation, code, buf),
        }
    }
}

impl Plan for Making {
    ghost use Rattle.rent_fs.specs.MakeDirs.{FollowsMaking};

    type Output = Result<(), FsError>;

    ghost follows = { FollowsMaking };

    fn follow(&mut self, alloc: Global, answer: OneAnswer) -> PlanStep<Result<(), FsError>> {
        match lent(answer) {
            Err(error) => PlanStep::Gives(Err(error)),
            Ok((code, buf)) => self.take(alloc, code, buf),
        }
    }
}

/// How a directory is made: alone, or with those above it that are missing.
#[derive(Clone, Copy, PartialEq, Eq, Debug)]
pub struct DirBuilder {
    recursive: bool,
    mode: u32,
}

impl DirBuilder {
    ghost use Rattle.std.specs.Prelude.{false};

    /// Mode 0o777, and the directory alone.
    pub fn new() -> DirBuilder
        ensures { result ≡ record { recursive = false; mode = S_PERMISSIONS } }
    {
        DirBuilder {
            recursive: false,
            mode: S_PERMISSIONS,
        }
    }

    /// Whether those above it that are missing are made, too. A directory that is there already is
    /// then none the worse.
    pub fn recursive(&mut self, recursive: bool) -> &mut DirBuilder
        ensures same { result.ghost_name ≡ self.entry.ghost_name }
        ensures options { result.now ≡ record self.old { recursive = recursive } }
    {
        self.recursive = recursive;
        self
    }

    /// Who may read, write and enter each directory that is made, `S_I` bits of `linux/stat.h`.
    pub fn mode(&mut self, mode: u32) -> &mut DirBuilder
        ensures same { result.ghost_name ≡ self.entry.ghost_name }
        ensures options { result.now ≡ record self.old { mode = mode } }
    {
        self.mode = mode;
        self
    }

    /// Makes the directory of that path so. Nothing is asked for until the state is polled. With
    /// those above it, an empty path is made already.
    pub fn create(&self, path: Buf) -> MakeDir
        ensures { result ≡ makes_dir self.now path }
    {
        let plan = if self.recursive {
            Making::First(self.mode)
        } else {
            Making::Plain
        };
        if self.recursive && path.is_empty() {
            return Sequence::of_output(plan, Ok(()));
        }
        let request = Request {
            number: None,
            entry: mk_dir_entry(self.mode),
            from: 0,
            buf: Some(path),
        };
        Sequence::of_request(plan, request)
    }
}

impl Default for DirBuilder {
    fn default() -> DirBuilder {
        DirBuilder::new()
    }
}
