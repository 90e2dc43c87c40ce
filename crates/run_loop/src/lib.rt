//! Jobs, run over a ring and a partner.
#![tactic(auto)]

mod drive;
mod entries;
mod flights;
mod in_turn;
mod job_op;
mod job_table;
mod laws;
mod offers;
mod polls;
mod round;
mod run;
mod shared;
mod slot;
mod starts;
mod two_threads;
mod user_rounds;
mod user_side;

pub use entries::first_bad_job;
pub use run::{run_jobs, run_on};
pub use shared::run_shared;
pub use uring_model::{Job, JobKind, Link, Outcome, Report, RunFault};
