//! A job's operation.

use crate::slot::Reply;
use rent_engine::OpKey;
use rent_fs::{ReadAt, Sync, WriteAt};
use uring_model::Outcome;

/// A job's operation, from its start until its result is given.
#[derive(Drop)]
pub enum JobOp {
    Read(ReadAt),
    Write(WriteAt),
    Sync(Sync),
    /// An operation of the engine itself, and what its outcome tells.
    Plain(OpKey, Reply),
}

/// What comes of polling a job's operation.
#[derive(Drop)]
pub enum JobPoll {
    Ready(Outcome),
    Pending(JobOp),
}
