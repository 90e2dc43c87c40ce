//! Making a directory with those above it.

ghost use Rattle.std.specs.Prelude.{◌≡◌, true, IfErr, IfOk};
ghost use Rattle.rent_engine.specs.OneOp.{IsPlaced};
ghost use Rattle.rent_fs.specs.Creation.{creation_entry, creation_of, creation_request, goes_up, is_try, made, turns_down, Steps};
ghost use Rattle.rent_fs.specs.Entries.{mk_dir_entry};
ghost use Rattle.fs_data.specs.Paths.{parent_end};

use crate::error::FsError;
use crate::stats::stat_path_entry;
use fs_data::parent_end;
use rent_engine::Request;
use std::alloc::{AllocError, Global};
use std::collections::VecDeque;
use std::marker::Model;
use uring_base::Buf;
use uring_base::errno::ENOENT;
use uring_base::fcntl::AT_FDCWD;
use uring_base::squeue::Entry;
use uring_base::types::Fd;
use uring_ops_path::MkDirAt;

/// What a recursive creation does.
#[derive(Clone, Copy, PartialEq, Eq, Debug)]
pub enum Phase {
    /// It looks for what is there.
    Up,
    /// It asks what stands where a creation failed with this errno.
    Stats(u32),
    /// It makes what is missing.
    Down,
}

/// A creation of a directory and of those above it that are missing. What is tried and what is
/// missing are beginnings of the path, by their lengths, the shortest missing one first.
#[derive(Drop)]
pub struct Creation {
    path: Buf,
    mode: u32,
    tried: usize,
    missing: VecDeque<usize>,
    phase: Phase,
}

impl Model for Creation {
    ghost use Rattle.std.specs.Prelude.{length, ◌≤◌, All};
    ghost use Rattle.rent_fs.specs.Creation.{Creating, creating_code};

    ghost Value = { Creating };

    ghost coded = { creating_code };

    ghost view = { λ c. record { path = c.path; mode = c.mode; tried = c.tried; missing = c.missing.items; phase = c.phase } };

    ghost invariant = { λ c. (c.tried ≤ length c.path) × All (λ n. n ≤ length c.path) c.missing.items };
}

/// The entry of a creation of one directory.
pub(crate) fn mk_dir_entry(mode: u32) -> Entry
    ensures { result ≡ mk_dir_entry mode }
{
    MkDirAt::new(Fd(AT_FDCWD), 0).mode(mode).build()
}

fn creation_entry(phase: Phase, mode: u32) -> Entry
    ensures { result ≡ creation_entry phase mode }
{
    match phase {
        Phase::Up | Phase::Down => mk_dir_entry(mode),
        Phase::Stats(_) => stat_path_entry(0),
    }
}

impl Creation {
    /// One whose first try was made with the whole path, which came back.
    pub(crate) fn of_path(alloc: Global, path: Buf, mode: u32) -> Creation
        ensures { result ≡ creation_of path mode }
    {
        let tried = path.len();
        Creation {
            path,
            mode,
            tried,
            missing: VecDeque::new(alloc),
            phase: Phase::Up,
        }
    }

    /// Makes the next missing one, from the top; without one it is done.
    fn turn_down(&mut self) -> Option<Result<(), FsError>>
        ensures { Steps (turns_down self.old self.old.missing) result self.new }
    {
        match self.missing.pop_front() {
            None => Some(Ok(())),
            Some(next) => {
                self.tried = next;
                self.phase = Phase::Down;
                None
            }
        }
    }

    /// Tries the parent.
    fn go_up(&mut self) -> Result<Option<Result<(), FsError>>, AllocError>
        ensures steps { IfOk result (λ given. Steps (goes_up self.old (parent_end self.old.path self.old.tried)) given self.new) }
        ensures lacks { IfErr result (λ _. is_try (goes_up self.old (parent_end self.old.path self.old.tried)) ≡ true) }
    {
        match parent_end(self.path.as_slice(), self.tried) {
            None => Ok(Some(Err(FsError::WholeTree))),
            Some(above) => {
                self.missing.push_front(self.tried)?;
                self.tried = above;
                Ok(None)
            }
        }
    }

    /// What a result leads to, where `is_dir` says whether a stat said directory: an output, or the
    /// next operation.
    pub(crate) fn made(
        &mut self,
        code: i32,
        is_dir: bool,
    ) -> Result<Option<Result<(), FsError>>, AllocError>
        ensures steps { IfOk result (λ given. Steps (made self.old self.old.phase code is_dir) given self.new) }
        ensures lacks { IfErr result (λ _. is_try (made self.old self.old.phase code is_dir) ≡ true) }
    {
        match self.phase {
            Phase::Up if code >= 0 => Ok(self.turn_down()),
            Phase::Up if code == -ENOENT => self.go_up(),
            Phase::Up => {
                self.phase = Phase::Stats(code.unsigned_abs());
                Ok(None)
            }
            Phase::Stats(_) if code >= 0 && is_dir => Ok(self.turn_down()),
            Phase::Stats(errno) => Ok(Some(Err(FsError::Os(errno)))),
            Phase::Down if code >= 0 => Ok(self.turn_down()),
            Phase::Down => Ok(Some(Err(FsError::Os(code.unsigned_abs())))),
        }
    }

    /// The operation on the beginning that is tried.
    pub(crate) fn request(&self, alloc: Global) -> Result<Request, AllocError>
        ensures request { IfOk result (λ request. request ≡ creation_request self.now) }
        ensures placed { IfOk result IsPlaced }
    {
        let path = Buf::from_slice(alloc, &self.path.as_slice()[..self.tried])?;
        Ok(Request {
            number: None,
            entry: creation_entry(self.phase, self.mode),
            from: 0,
            buf: Some(path),
        })
    }
}
