//! What jobs ask of files, and what a partner makes of them.
//!
//! - Jobs, their outcomes and why a run has none (`jobs`); the files (`files`) and one operation on
//!   them (`perform`).
//! - What an entry of a ring asks (`operation_of`), and an entry that waits (`Pending`).
//! - The plain replay of a journal, job by job (`replay`).
//! - In specs/: the schedule that a partner keeps over any world (links, drains, choices, cancels,
//!   turns), the file machine as its first instance, when another machine goes as the files do, and
//!   what a journal means. `laws` has a function for each law.
#![tactic(auto)]

mod files;
mod jobs;
pub mod laws;
mod machine;
mod operation;
mod pending;
mod replayed;
mod rows;
mod settling;

pub use files::{Files, MAX_FILE_NUMBER};
pub use jobs::{Job, JobKind, Link, Outcome, Report, RunFault};
pub use machine::{Answered, MAX_FILE_LEN, perform};
pub use operation::{Operation, has_link, has_soft_link, is_drained, is_quiet, operation_of};
pub use pending::Pending;
pub use replayed::{Replayed, replay};
pub use rows::{Row, Settled, have_counts};
